// The home machine's calls of the C face (R21.1): as the handheld's, on a home block.
ghost use Rattle.std.specs.Prelude.{[], ◌≡◌, ℕ, ◌<◌, length, Some};
ghost use Rattle.laws.specs.Lists.{at};
ghost use Rattle.refusal.specs.Refusals.{refusal_number, first};
ghost use Rattle.word.specs.Called.{Leaves, asked_lines};
ghost use Rattle.home.specs.Step.{colours_now};
ghost use Rattle.home_block.specs.HomeBlock.{block_size, state_of, well_formed};
ghost use Rattle.face.specs.Home.{new_table_call, new_call, out_call, input_call, step_call, row_step_call, dump_call};
ghost use Rattle.face.specs.HomeStepped.{TargetLeaves};
ghost use Rattle.face.specs.HomePixel.{pixel_call};
ghost use Rattle.face.specs.HomeLayers.{LayerRowLeaves, LayerFrameLeaves};

use super::target::Target;
use super::{left, store_colours};
use picture::Screen;
use points::Due;
use refusal::Refusal;

// A fresh device of this table into the block.
#[tactic(auto, unfolding(crate::specs::Home::new_table_call))]
pub fn vdp_home_new_table(state: &mut [u8], table: u8) -> u32
    ensures { Leaves (new_table_call state.old table) result state.new [] }
{
    if table <= 1 && state.len() == home_block::BLOCK_SIZE {
        home_block::fresh(state, raster::table_from(table));
        0
    } else {
        word::number(Err(Refusal::BlockMalformed))
    }
}

// The same with no table named: the chart's.
pub fn vdp_home_new(state: &mut [u8]) -> u32
    ensures { Leaves (new_call state.old) result state.new [] }
{
    vdp_home_new_table(state, raster::unnamed_table())
}

// The number by which a call on the block is refused before its own tests, 0 where it is not: no area is asked for, so that it is the block's alone.
fn asked(state: &[u8]) -> u32
    ensures { result ≡ refusal_number (first (asked_lines (well_formed state.now) 0)) }
{
    word::asked(home_block::well_formed(state), 0)
}

// A port write.
pub fn vdp_home_out(state: &mut [u8], vram: &mut [u8], port: u16, value: u8) -> u32
    ensures { Leaves (out_call state.old vram.old port value) result state.new vram.new }
{
    let refused = asked(state);
    if refused != 0 {
        return refused;
    }
    word::number(home_block::out(state, vram, port, value))
}

// A port read; its byte is in bits 8 to 15 of the answer.
pub fn vdp_home_input(state: &mut [u8], vram: &[u8], port: u16) -> u32
    ensures { Leaves (input_call state.old vram.now port) result state.new [] }
{
    let refused = asked(state);
    if refused != 0 {
        return refused;
    }
    word::byte_word(home_block::input(state, vram, port))
}

// The colours that a step of the block's device which is due draws a row with; where it draws none, none are made. (As the handheld's but for palette and
// device: one function for both would take more lines, for what differs, than this one has. So with `stepped` and `shown`.)
#[tactic(auto, unfolding(home_block::specs::HomeBlock::state_of))]
fn colours_of(state: &[u8], due: Due) -> [u32; 32]
    requires { length state.now ≡ block_size }
    ensures { (y : ℕ) → due.row ≡ Some y → result ≡ colours_now (state_of state.now) }
{
    if due.row.is_none() {
        [0; 32]
    } else if state[home_block::DIRTY] == 1 {
        colour::home_palette_recompute(home_block::palette_in(state))
    } else {
        home_block::cache_in(state)
    }
}

// One step: its row is written to the target, and its layers, if requested, to the first bytes of the layer buffer. (Inlined, as the handheld's is.)
#[inline(always)]
fn stepped(
    state: &mut [u8],
    vram: &[u8],
    target: Target,
    pixels: &mut [u8],
    told: bool,
    layers: &mut [u8],
) -> u32
    ensures { TargetLeaves target told state.old vram.now pixels.old layers.old result state.new pixels.new layers.new }
{
    let refused = asked(state);
    if refused != 0 {
        return refused;
    }
    let screen = Screen::Home;
    let reg = home_block::registers(state);
    let raster = home_block::raster_in(state);
    let due = target.due(told, reg, raster, vram, pixels.len(), layers.len(), screen);
    // Where no row is drawn, no colours are made, read or stored.
    let Some(_) = due.row else {
        return left(due, 0, state, home_block::VERTICAL_SCROLL);
    };
    let colours = colours_of(state, due);
    let bits = target.draw(due, reg, &colours, vram, pixels, layers, screen);
    store_colours(state, due, &colours, home_block::DIRTY, home_block::CACHE);
    left(due, bits, state, home_block::VERTICAL_SCROLL)
}

// A step, whose row goes to its place in the frame.
#[tactic(auto, unfolding(crate::specs::Home::step_call, home::specs::Step::frame_after))]
pub fn vdp_home_step(state: &mut [u8], vram: &[u8], frame: &mut [u8]) -> u32
    ensures { Leaves (step_call state.old vram.now frame.old) result state.new frame.new }
{
    stepped(state, vram, Target::Frame, frame, false, &mut [])
}

// A step, whose row goes to the first bytes of the row buffer.
#[tactic(auto, unfolding(crate::specs::Home::row_step_call, home::specs::Step::row_after))]
pub fn vdp_home_row_step(state: &mut [u8], vram: &[u8], row: &mut [u8]) -> u32
    ensures { Leaves (row_step_call state.old vram.now row.old) result state.new row.new }
{
    stepped(state, vram, Target::Row, row, false, &mut [])
}

// The step on a frame, with the layers of the row's columns, which go to the first bytes of the layer buffer.
#[tactic(auto, unfolding(crate::specs::HomeLayers::layer_call, crate::specs::HomeLayers::layers_left))]
pub fn vdp_home_layer_step(
    state: &mut [u8],
    vram: &[u8],
    frame: &mut [u8],
    layers: &mut [u8],
) -> u32
    ensures { LayerFrameLeaves state.old vram.now frame.old layers.old result state.new frame.new layers.new }
{
    stepped(state, vram, Target::Frame, frame, true, layers)
}

// The same of the step on a row buffer.
#[tactic(auto, unfolding(crate::specs::HomeLayers::layer_call, crate::specs::HomeLayers::layers_left))]
pub fn vdp_home_layer_row_step(
    state: &mut [u8],
    vram: &[u8],
    row: &mut [u8],
    layers: &mut [u8],
) -> u32
    ensures { LayerRowLeaves state.old vram.now row.old layers.old result state.new row.new layers.new }
{
    stepped(state, vram, Target::Row, row, true, layers)
}

// All tiles into the pixels; the block is only read.
pub fn vdp_home_dump_tileset(state: &[u8], vram: &[u8], pixels: &mut [u8]) -> u32
    ensures { Leaves (dump_call state.now vram.now pixels.old) result state.now pixels.new }
{
    let refused = asked(state);
    if refused != 0 {
        return refused;
    }
    let colours = home_block::cache_in(state);
    word::number(dump::dump_tileset(home_block::registers(state), &colours, vram, pixels))
}

// The colour of the number n that a row of the block's device is drawn with. Where the colours are dirty that one is made of the palette.
fn shown(state: &[u8], n: usize) -> u32
    requires { (length state.now ≡ block_size) × (n < 32) }
    ensures { result ≡ at (colours_now (state_of state.now)) n }
{
    if state[home_block::DIRTY] == 1 {
        colour::home_rgb(state[home_block::PALETTE + n])
    } else {
        home_block::cached_colour(state, n)
    }
}

// One pixel of the row as it would be drawn now, the fill among it; the block is only read.
pub fn vdp_home_pixel(state: &[u8], vram: &[u8], row: u32, column: u32) -> u64
    ensures { result ≡ pixel_call state.now vram.now row column }
{
    let refused = asked(state);
    if refused != 0 {
        return u64::from(refused);
    }
    let raster = home_block::raster_in(state);
    let spot = pixel::spot_at(
        vram,
        Screen::Home,
        home_block::registers(state),
        raster.vertical_scroll,
        row,
        column,
    );
    match spot {
        Ok(Some(n)) => word::pixel_word(Ok(()), true, shown(state, n)),
        Ok(None) => word::pixel_word(Ok(()), false, 0),
        Err(refusal) => word::pixel_word(Err(refusal), false, 0),
    }
}
