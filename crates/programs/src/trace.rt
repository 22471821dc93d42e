// The programs that print what a recording does, call by call, on a fresh device: `trace` on one of the chart's line table, `trace-261` on one of the line table
// with 261 steps, for recordings kept from before the chart, `home-trace` on a home device.
use crate::recording::{Kind, run};
use trace_run::Shown;

// Each is called by its name, and has its help text.
pub fn trace_261(rt: &HostRuntime, called: &[u8]) {
    run(
        rt,
        Shown::Nothing,
        Kind::Steps261,
        called,
        b"usage: trace-261 [FILE]\n\
            Runs the trace in FILE, or on standard input (no FILE, or -), on a fresh device (261 steps to a pass; trace has 262), and prints a line for each call.\n\
            A trace has at most 65,535 bytes. Its records: PW port value, PR port, LS area (docs/TRACES.md).\n\
            The last line is 'end' and the number of records; or 'bad' and the offset of a bad record; or 'long'.\n\
            What cannot be read or written is told on standard error. The exit status is 1 then, and for 'bad' and 'long'; otherwise 0.\n",
    );
}

pub fn home_trace(rt: &HostRuntime, called: &[u8]) {
    run(
        rt,
        Shown::Nothing,
        Kind::Home,
        called,
        b"usage: home-trace [FILE]\n\
            Runs the trace in FILE, or on standard input (no FILE, or -), on a fresh home device (262 steps to a pass), and prints a line for each call.\n\
            A trace has at most 65,535 bytes. Its records: PW port value, PR port, LS area (docs/TRACES.md). The area byte of LS is 0.\n\
            The last line is 'end' and the number of records; or 'bad' and the offset of a bad record; or 'long'.\n\
            What cannot be read or written is told on standard error. The exit status is 1 then, and for 'bad' and 'long'; otherwise 0.\n",
    );
}

// The one that runs by any other name.
pub fn trace(rt: &HostRuntime, called: &[u8]) {
    run(
        rt,
        Shown::Nothing,
        Kind::Steps262,
        called,
        b"usage: trace [FILE]\n\
            Runs the trace in FILE, or on standard input (no FILE, or -), on a fresh device (262 steps to a pass; trace-261 has 261), and prints a line for each call.\n\
            A trace has at most 65,535 bytes. Its records: PW port value, PR port, LS area (docs/TRACES.md).\n\
            The last line is 'end' and the number of records; or 'bad' and the offset of a bad record; or 'long'.\n\
            What cannot be read or written is told on standard error. The exit status is 1 then, and for 'bad' and 'long'; otherwise 0.\n",
    );
}
