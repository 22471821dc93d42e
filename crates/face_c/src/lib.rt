// The C face as C calls it (R7.4): each call of crate `face` under its C name, with the same promise. A slice passes as a pointer and a length.
#![tactic(auto)]

ghost use Rattle.std.specs.Prelude.{[], ◌≡◌};
ghost use Rattle.laws.specs.Lists.{at};
ghost use Rattle.face.specs.Tiles.{write_tile_call, read_tile_call};
ghost use Rattle.face.specs.Face.{new_table_call, new_call, out_call, input_call, step_call, row_step_call, dump_call, Leaves};
ghost use Rattle.face.specs.Layers.{LayerRowLeaves, LayerFrameLeaves};
ghost use Rattle.trace_record.specs.declared.Record.TheVariants.{Write, Read};
ghost use Rattle.face.specs.Record.{record_call, record_step_call, next_call};
ghost use Rattle.face.specs.Repair.{repair_call};
ghost use Rattle.face.specs.Version.{version};
ghost use Rattle.face.specs.Pixel.{pixel_call};

pub mod home_calls;

// A fresh device of this table into the block, in the version that the block's length tells.
#[unsafe(no_mangle)]
pub extern "C" fn vdp_new_table(state: &mut [u8], table: u8) -> u32
    ensures { Leaves (new_table_call state.old table) result state.new [] }
{
    face::vdp_new_table(state, table)
}

// The same with no table named: the chart's.
#[unsafe(no_mangle)]
pub extern "C" fn vdp_new(state: &mut [u8]) -> u32
    ensures { Leaves (new_call state.old) result state.new [] }
{
    face::vdp_new(state)
}

// A port write.
#[unsafe(no_mangle)]
pub extern "C" fn vdp_out(state: &mut [u8], vram: &mut [u8], port: u16, value: u8) -> u32
    ensures { Leaves (out_call state.old vram.old port value) result state.new vram.new }
{
    face::vdp_out(state, vram, port, value)
}

// A port read; its byte is in bits 8 to 15 of the answer.
#[unsafe(no_mangle)]
pub extern "C" fn vdp_input(state: &mut [u8], vram: &[u8], port: u16) -> u32
    ensures { Leaves (input_call state.old vram.now port) result state.new [] }
{
    face::vdp_input(state, vram, port)
}

// A step, whose row goes to its place in the frame.
#[unsafe(no_mangle)]
pub extern "C" fn vdp_step(state: &mut [u8], vram: &[u8], frame: &mut [u8], area: u8) -> u32
    ensures { Leaves (step_call state.old vram.now frame.old area) result state.new frame.new }
{
    face::vdp_step(state, vram, frame, area)
}

// A step, whose row goes to the first bytes of the row buffer.
#[unsafe(no_mangle)]
pub extern "C" fn vdp_row_step(state: &mut [u8], vram: &[u8], row: &mut [u8], area: u8) -> u32
    ensures { Leaves (row_step_call state.old vram.now row.old area) result state.new row.new }
{
    face::vdp_row_step(state, vram, row, area)
}

// The step on a frame, with the layers of the row's columns, which go to the first bytes of the layer buffer.
#[unsafe(no_mangle)]
pub extern "C" fn vdp_layer_step(
    state: &mut [u8],
    vram: &[u8],
    frame: &mut [u8],
    layers: &mut [u8],
    area: u8,
) -> u32
    ensures { LayerFrameLeaves state.old vram.now frame.old layers.old area result state.new frame.new layers.new }
{
    face::vdp_layer_step(state, vram, frame, layers, area)
}

// The same of the step on a row buffer.
#[unsafe(no_mangle)]
pub extern "C" fn vdp_layer_row_step(
    state: &mut [u8],
    vram: &[u8],
    row: &mut [u8],
    layers: &mut [u8],
    area: u8,
) -> u32
    ensures { LayerRowLeaves state.old vram.now row.old layers.old area result state.new row.new layers.new }
{
    face::vdp_layer_row_step(state, vram, row, layers, area)
}

// All tiles into the pixels; the block is only read.
#[unsafe(no_mangle)]
pub extern "C" fn vdp_dump_tileset(state: &[u8], vram: &[u8], pixels: &mut [u8]) -> u32
    ensures { Leaves (dump_call state.now vram.now pixels.old) result state.now pixels.new }
{
    face::vdp_dump_tileset(state, vram, pixels)
}

// The number of this face.
#[unsafe(no_mangle)]
pub extern "C" fn vdp_version() -> u32
    ensures { result ≡ version }
{
    face::vdp_version()
}

// The tile of these 64 codes into video memory; no device is asked.
#[unsafe(no_mangle)]
pub extern "C" fn vdp_write_tile(vram: &mut [u8], tile: u16, codes: &[u8]) -> u32
    ensures { Leaves (write_tile_call vram.old tile codes.now) result [] vram.new }
{
    face::vdp_write_tile(vram, tile, codes)
}

// The 64 codes of a tile; video memory is only read.
#[unsafe(no_mangle)]
pub extern "C" fn vdp_read_tile(vram: &[u8], tile: u16, codes: &mut [u8]) -> u32
    ensures { Leaves (read_tile_call vram.now tile codes.old) result [] codes.new }
{
    face::vdp_read_tile(vram, tile, codes)
}

// One pixel of the row as it would be drawn now; the block is only read.
#[unsafe(no_mangle)]
pub extern "C" fn vdp_pixel(state: &[u8], vram: &[u8], area: u8, row: u32, column: u32) -> u64
    ensures { result ≡ pixel_call state.now vram.now area row column }
{
    face::vdp_pixel(state, vram, area, row, column)
}

// A damaged block mended, and the changed offsets at the start of the list.
#[unsafe(no_mangle)]
pub extern "C" fn vdp_repair(state: &mut [u8], list: &mut [u8]) -> u32
    ensures { Leaves (repair_call state.old list.old) result state.new list.new }
{
    face::vdp_repair(state, list)
}

// A port write as a record, into the bytes from `used` on.
#[unsafe(no_mangle)]
pub extern "C" fn vdp_record_out(recording: &mut [u8], used: usize, port: u8, value: u8) -> u32
    ensures { Leaves (record_call recording.old used (Write port value)) result [] recording.new }
{
    face::vdp_record_out(recording, used, port, value)
}

// A port read.
#[unsafe(no_mangle)]
pub extern "C" fn vdp_record_input(recording: &mut [u8], used: usize, port: u8) -> u32
    ensures { Leaves (record_call recording.old used (Read port)) result [] recording.new }
{
    face::vdp_record_input(recording, used, port)
}

// A step.
#[unsafe(no_mangle)]
pub extern "C" fn vdp_record_step(recording: &mut [u8], used: usize, area: u8) -> u32
    ensures { Leaves (record_step_call recording.old used area) result [] recording.new }
{
    face::vdp_record_step(recording, used, area)
}

// What stands at an offset of a recording: which kind of record, its port or area, its value and its length.
#[unsafe(no_mangle)]
pub extern "C" fn vdp_record_next(recording: &[u8], at: usize) -> u32
    ensures { result ≡ next_call recording.now at }
{
    face::vdp_record_next(recording, at)
}
