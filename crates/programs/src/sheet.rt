// The program that writes the tiles of a sheet, 32 bytes each, or `bad`.
ghost use Rattle.std.specs.Prelude.{◌≡◌, length};

use crate::zeros;

// The program at work. Its input has room for the longest sheet and one byte more: where that is filled, there is too much, and nothing that follows could change it.
fn run(rt: &HostRuntime, name: &[u8], help: &[u8]) {
    let mut input = zeros::<16_385>();
    let mut out = zeros::<8_192>();
    if let Some(n) = program::input(rt, name, help, &mut input) {
        let k = tile_codes::sheet(&input[..n], &mut out);
        program::output(rt, name, &out[..k]);
    }
}

pub fn sheet(rt: &HostRuntime, called: &[u8]) {
    run(
        rt,
        called,
        b"usage: sheet [FILE]\n\
            Reads a sheet of 1 to 256 tiles from FILE, or from standard input (no FILE, or -): 64 codes a tile, row by row, one byte a code, 0 to 15.\n\
            Writes 32 bytes a tile, as they stand in video memory (docs/TILES.md).\n\
            For a sheet of any other length, or with a code above 15, it writes the line 'bad' and nothing more.\n\
            What cannot be read or written is told on standard error. The exit status is 1 then, and for 'bad'; otherwise 0.\n",
    );
}
