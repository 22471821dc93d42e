// The home machine's calls of the C face (R21.1), as C calls them.
ghost use Rattle.std.specs.Prelude.{[], ◌≡◌};
ghost use Rattle.word.specs.Called.{Leaves};
ghost use Rattle.face.specs.Home.{new_table_call, new_call, out_call, input_call, step_call, row_step_call, dump_call};
ghost use Rattle.face.specs.HomePixel.{pixel_call};
ghost use Rattle.face.specs.HomeLayers.{LayerRowLeaves, LayerFrameLeaves};

// A fresh device of this table into the block.
#[unsafe(no_mangle)]
pub extern "C" fn vdp_home_new_table(state: &mut [u8], table: u8) -> u32
    ensures { Leaves (new_table_call state.old table) result state.new [] }
{
    face::home_calls::vdp_home_new_table(state, table)
}

// The same with no table named: the chart's.
#[unsafe(no_mangle)]
pub extern "C" fn vdp_home_new(state: &mut [u8]) -> u32
    ensures { Leaves (new_call state.old) result state.new [] }
{
    face::home_calls::vdp_home_new(state)
}

// A port write.
#[unsafe(no_mangle)]
pub extern "C" fn vdp_home_out(state: &mut [u8], vram: &mut [u8], port: u16, value: u8) -> u32
    ensures { Leaves (out_call state.old vram.old port value) result state.new vram.new }
{
    face::home_calls::vdp_home_out(state, vram, port, value)
}

// A port read; its byte is in bits 8 to 15 of the answer.
#[unsafe(no_mangle)]
pub extern "C" fn vdp_home_input(state: &mut [u8], vram: &[u8], port: u16) -> u32
    ensures { Leaves (input_call state.old vram.now port) result state.new [] }
{
    face::home_calls::vdp_home_input(state, vram, port)
}

// A step, whose row goes to its place in the frame.
#[unsafe(no_mangle)]
pub extern "C" fn vdp_home_step(state: &mut [u8], vram: &[u8], frame: &mut [u8]) -> u32
    ensures { Leaves (step_call state.old vram.now frame.old) result state.new frame.new }
{
    face::home_calls::vdp_home_step(state, vram, frame)
}

// A step, whose row goes to the first bytes of the row buffer.
#[unsafe(no_mangle)]
pub extern "C" fn vdp_home_row_step(state: &mut [u8], vram: &[u8], row: &mut [u8]) -> u32
    ensures { Leaves (row_step_call state.old vram.now row.old) result state.new row.new }
{
    face::home_calls::vdp_home_row_step(state, vram, row)
}

// The step on a frame, with the layers of the row's columns, which go to the first bytes of the layer buffer.
#[unsafe(no_mangle)]
pub extern "C" fn vdp_home_layer_step(
    state: &mut [u8],
    vram: &[u8],
    frame: &mut [u8],
    layers: &mut [u8],
) -> u32
    ensures { LayerFrameLeaves state.old vram.now frame.old layers.old result state.new frame.new layers.new }
{
    face::home_calls::vdp_home_layer_step(state, vram, frame, layers)
}

// The same of the step on a row buffer.
#[unsafe(no_mangle)]
pub extern "C" fn vdp_home_layer_row_step(
    state: &mut [u8],
    vram: &[u8],
    row: &mut [u8],
    layers: &mut [u8],
) -> u32
    ensures { LayerRowLeaves state.old vram.now row.old layers.old result state.new row.new layers.new }
{
    face::home_calls::vdp_home_layer_row_step(state, vram, row, layers)
}

// All tiles into the pixels; the block is only read.
#[unsafe(no_mangle)]
pub extern "C" fn vdp_home_dump_tileset(state: &[u8], vram: &[u8], pixels: &mut [u8]) -> u32
    ensures { Leaves (dump_call state.now vram.now pixels.old) result state.now pixels.new }
{
    face::home_calls::vdp_home_dump_tileset(state, vram, pixels)
}

// One pixel of the row as it would be drawn now, the fill among it; the block is only read.
#[unsafe(no_mangle)]
pub extern "C" fn vdp_home_pixel(state: &[u8], vram: &[u8], row: u32, column: u32) -> u64
    ensures { result ≡ pixel_call state.now vram.now row column }
{
    face::home_calls::vdp_home_pixel(state, vram, row, column)
}
