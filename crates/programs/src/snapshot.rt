// The programs that write the picture that a recording draws on a fresh device, as a binary PPM: `snapshot` on one of the chart's line table, `snapshot-261` on one
// of the line table with 261 steps, `home-snapshot` on a home device; `layers` as `snapshot`, with each pixel coloured by the layer that owns it.
use crate::recording::{Kind, run};
use trace_run::Shown;

// Each is called by its name, and has its help text.
pub fn snapshot(rt: &HostRuntime, called: &[u8]) {
    run(
        rt,
        Shown::Colours,
        Kind::Steps262,
        called,
        b"usage: snapshot [FILE] > PICTURE.ppm\n\
            Runs the trace in FILE, or on standard input (no FILE, or -), on a fresh device (262 steps to a pass; snapshot-261 has 261), and writes what its visible steps drew.\n\
            The picture is a binary PPM of 160 x 144 pixels, black where nothing was drawn; tools/ppm2png.py makes a PNG of it.\n\
            Of a trace that is bad or too long it writes only a line, as trace does: 'bad' and an offset, or 'long'.\n\
            What cannot be read or written is told on standard error. The exit status is 1 then, and for 'bad' and 'long'; otherwise 0.\n",
    );
}

pub fn snapshot_261(rt: &HostRuntime, called: &[u8]) {
    run(
        rt,
        Shown::Colours,
        Kind::Steps261,
        called,
        b"usage: snapshot-261 [FILE] > PICTURE.ppm\n\
            Runs the trace in FILE, or on standard input (no FILE, or -), on a fresh device (261 steps to a pass; snapshot has 262), and writes what its visible steps drew.\n\
            The picture is a binary PPM of 160 x 144 pixels, black where nothing was drawn; tools/ppm2png.py makes a PNG of it.\n\
            Of a trace that is bad or too long it writes only a line, as trace does: 'bad' and an offset, or 'long'.\n\
            What cannot be read or written is told on standard error. The exit status is 1 then, and for 'bad' and 'long'; otherwise 0.\n",
    );
}

pub fn home_snapshot(rt: &HostRuntime, called: &[u8]) {
    run(
        rt,
        Shown::Colours,
        Kind::Home,
        called,
        b"usage: home-snapshot [FILE] > PICTURE.ppm\n\
            Runs the trace in FILE, or on standard input (no FILE, or -), on a fresh home device (262 steps to a pass), and writes what its steps drew. The area byte of LS is 0.\n\
            The picture is a binary PPM of 256 x 192 pixels, black where nothing was drawn; tools/ppm2png.py makes a PNG of it.\n\
            Of a trace that is bad or too long it writes only a line, as home-trace does: 'bad' and an offset, or 'long'.\n\
            What cannot be read or written is told on standard error. The exit status is 1 then, and for 'bad' and 'long'; otherwise 0.\n",
    );
}

pub fn layers(rt: &HostRuntime, called: &[u8]) {
    run(
        rt,
        Shown::Layers,
        Kind::Steps262,
        called,
        b"usage: layers [FILE] > PICTURE.ppm\n\
            Runs the trace in FILE, or on standard input (no FILE, or -), as snapshot does, and colours each pixel by the layer that owns it.\n\
            Background 32,32,32; background that holds a sprite back 255,0,255; sprite n 4n,255-4n,128; black where nothing was drawn.\n\
            Of a trace that is bad or too long it writes only a line, as trace does: 'bad' and an offset, or 'long'.\n\
            What cannot be read or written is told on standard error. The exit status is 1 then, and for 'bad' and 'long'; otherwise 0.\n",
    );
}
