// The C face (R7.4): the device's calls over a state block, and answers by R7.7. A slice passes as a pointer and a length.
#![tactic(auto)]

ghost use Rattle.std.specs.Prelude.{[], ◌≡◌, ℕ, ◌+◌, ◌*◌, ◌≤◌, ◌<◌, length, Some};
ghost use Rattle.refusal.specs.Refusals.{refusal_number, first};
ghost use Rattle.laws.specs.Lists.{at};
ghost use Rattle.word.specs.Word.{points_word};
ghost use Rattle.word.specs.Called.{asked_lines};
ghost use Rattle.picture.specs.Area.{area_from, screen_of};
ghost use Rattle.fields.specs.Stored.{front_end};
ghost use Rattle.block.specs.Block.{old_size, well_formed, state_of};
ghost use Rattle.step.specs.Step.{colours_now};
ghost use Rattle.face.specs.Steps.{points_in, colours_stored, points_stored};
ghost use Rattle.face.specs.Stepped.{TargetLeaves};
ghost use Rattle.face.specs.Tiles.{write_tile_call, read_tile_call};
ghost use Rattle.face.specs.Face.{new_table_call, new_call, out_call, input_call, step_call, row_step_call, dump_call, counted_word, Leaves};
ghost use Rattle.face.specs.Layers.{LayerRowLeaves, LayerFrameLeaves};
ghost use Rattle.trace_record.specs.declared.Record.TheVariants.{Write, Read};
ghost use Rattle.face.specs.Record.{record_call, record_step_call, bytes_word, next_call};
ghost use Rattle.face.specs.Repair.{repair_call};
ghost use Rattle.face.specs.Version.{version};
ghost use Rattle.face.specs.Pixel.{pixel_call};

pub mod home_calls;
mod target;

use picture::Screen;
use points::Due;
use refusal::Refusal;
use target::Target;
use trace_record::Record;

// A fresh device of this table into the block, in the version that the block's length tells.
#[tactic(auto, unfolding(crate::specs::Face::new_table_call, block::specs::Block::fresh_in))]
pub fn vdp_new_table(state: &mut [u8], table: u8) -> u32
    ensures { Leaves (new_table_call state.old table) result state.new [] }
{
    let named = raster::table_from(table);
    if table <= 1 && block::has_room(named, state.len()) {
        block::fresh(state, named);
        0
    } else {
        word::number(Err(Refusal::BlockMalformed))
    }
}

// The same with no table named: the chart's.
pub fn vdp_new(state: &mut [u8]) -> u32
    ensures { Leaves (new_call state.old) result state.new [] }
{
    vdp_new_table(state, raster::unnamed_table())
}

// The number by which a call on the block is refused before its own tests, 0 where it is not; one that asks for no area has area 0. (A number and no Result:
// the C interface answers it as it is.)
fn asked(state: &[u8], area: u8) -> u32
    ensures { result ≡ refusal_number (first (asked_lines (well_formed state.now) area)) }
{
    word::asked(block::well_formed(state), area)
}

// A port write.
pub fn vdp_out(state: &mut [u8], vram: &mut [u8], port: u16, value: u8) -> u32
    ensures { Leaves (out_call state.old vram.old port value) result state.new vram.new }
{
    let refused = asked(state, 0);
    if refused != 0 {
        return refused;
    }
    word::number(block_ports::out(state, vram, port, value))
}

// A port read; its byte is in bits 8 to 15 of the answer.
pub fn vdp_input(state: &mut [u8], vram: &[u8], port: u16) -> u32
    ensures { Leaves (input_call state.old vram.now port) result state.new [] }
{
    let refused = asked(state, 0);
    if refused != 0 {
        return refused;
    }
    word::byte_word(block_ports::input(state, vram, port))
}

// The colours that a step of the block's device which is due draws a row with; where it draws none, none are made.
#[tactic(auto, unfolding(block::specs::Block::state_of))]
fn colours_of(state: &[u8], due: Due) -> [u32; 32]
    requires { old_size ≤ length state.now }
    ensures { (y : ℕ) → due.row ≡ Some y → result ≡ colours_now (state_of state.now) }
{
    if due.row.is_none() {
        [0; 32]
    } else if state[block::DIRTY] == 1 {
        colour::palette_recompute(block::palette_in(state))
    } else {
        block::cache_in(state)
    }
}

// ---- the parts of a step that are the same for either machine

// The colours into the block, whose dirty flag and cache stand at these places, if a row is drawn with them and they are not there already.
fn store_colours(state: &mut [u8], due: Due, colours: &[u32; 32], dirty: usize, cache: usize)
    requires { (dirty < length state.old) × (cache + 128 ≤ length state.old) }
    ensures { state.new ≡ colours_stored dirty cache due.row colours.now state.old }
{
    if due.row.is_some() && state[dirty] == 1 {
        block_parts::store_cache(state, cache, dirty, colours);
    }
}

// What the points of a step that was due leave of status and raster once its row, which set these bits, is drawn: into the block, whose scroll stands at this
// place. Answered by their word.
fn left(due: Due, bits: u8, state: &mut [u8], scroll: usize) -> u32
    requires { (front_end ≤ length state.old) × (scroll < length state.old) }
    ensures value { result ≡ points_word (points_in state.old bits due) }
    ensures state_after { state.new ≡ points_stored scroll (points_in state.old bits due) state.old }
{
    let reg = block_parts::registers(state);
    let points = points::finish(due, reg, state[fields::STATUS], bits);
    block_parts::store_raster(state, scroll, points.status, points.raster);
    word::word_of(points)
}

// ---- the steps

// The screen of an area's number.
fn screen_from(area: u8) -> Screen
    ensures { result ≡ screen_of (area_from area) }
{
    picture::screen_of(picture::area_from(area))
}

// One step: its row is written to the target, and its layers, if requested, to the first bytes of the layer buffer.
// (A flag `told`, not `Option<&mut [u8]>`: a clause cannot say simply what an optional buffer holds after the call. Inlined, since each of the four calls
// has a constant target and flag: a step that draws no row is then as fast as with a body for each call.)
#[inline(always)]
fn stepped(
    state: &mut [u8],
    vram: &[u8],
    target: Target,
    pixels: &mut [u8],
    told: bool,
    layers: &mut [u8],
    area: u8,
) -> u32
    ensures { TargetLeaves target told state.old vram.now pixels.old layers.old area result state.new pixels.new layers.new }
{
    let refused = asked(state, area);
    if refused != 0 {
        return refused;
    }
    let screen = screen_from(area);
    let reg = block::registers(state);
    let raster = block::raster_in(state);
    let due = target.due(told, reg, raster, vram, pixels.len(), layers.len(), screen);
    // Where no row is drawn, no colours are made, read or stored.
    let Some(_) = due.row else {
        return left(due, 0, state, block::VERTICAL_SCROLL);
    };
    let colours = colours_of(state, due);
    let bits = target.draw(due, reg, &colours, vram, pixels, layers, screen);
    store_colours(state, due, &colours, block::DIRTY, block::CACHE);
    left(due, bits, state, block::VERTICAL_SCROLL)
}

// A step, whose row goes to its place in the frame.
#[tactic(auto, unfolding(crate::specs::Face::step_call, step::specs::Frame::frame_after))]
pub fn vdp_step(state: &mut [u8], vram: &[u8], frame: &mut [u8], area: u8) -> u32
    ensures { Leaves (step_call state.old vram.now frame.old area) result state.new frame.new }
{
    stepped(state, vram, Target::Frame, frame, false, &mut [], area)
}

// A step, whose row goes to the first bytes of the row buffer.
#[tactic(auto, unfolding(crate::specs::Face::row_step_call, step::specs::Frame::row_after))]
pub fn vdp_row_step(state: &mut [u8], vram: &[u8], row: &mut [u8], area: u8) -> u32
    ensures { Leaves (row_step_call state.old vram.now row.old area) result state.new row.new }
{
    stepped(state, vram, Target::Row, row, false, &mut [], area)
}

// The step on a frame, with the layers of the row's columns, which go to the first bytes of the layer buffer.
#[tactic(auto, unfolding(crate::specs::Layers::layer_call, crate::specs::Layers::layers_left, step::specs::Layers::layers_after))]
pub fn vdp_layer_step(
    state: &mut [u8],
    vram: &[u8],
    frame: &mut [u8],
    layers: &mut [u8],
    area: u8,
) -> u32
    ensures { LayerFrameLeaves state.old vram.now frame.old layers.old area result state.new frame.new layers.new }
{
    stepped(state, vram, Target::Frame, frame, true, layers, area)
}

// The same of the step on a row buffer.
#[tactic(auto, unfolding(crate::specs::Layers::layer_call, crate::specs::Layers::layers_left, step::specs::Layers::layers_after))]
pub fn vdp_layer_row_step(
    state: &mut [u8],
    vram: &[u8],
    row: &mut [u8],
    layers: &mut [u8],
    area: u8,
) -> u32
    ensures { LayerRowLeaves state.old vram.now row.old layers.old area result state.new row.new layers.new }
{
    stepped(state, vram, Target::Row, row, true, layers, area)
}

// All tiles into the pixels; the block is only read.
pub fn vdp_dump_tileset(state: &[u8], vram: &[u8], pixels: &mut [u8]) -> u32
    ensures { Leaves (dump_call state.now vram.now pixels.old) result state.now pixels.new }
{
    let refused = asked(state, 0);
    if refused != 0 {
        return refused;
    }
    let colours = block::cache_in(state);
    word::number(dump::dump_tileset(block::registers(state), &colours, vram, pixels))
}

// The version of the C face, in three parts (include/vdp.h).
const MAJOR: u32 = 4;

const MINOR: u32 = 6;

const SMALL: u32 = 0;

pub fn vdp_version() -> u32
    ensures { result ≡ version }
{
    65536 * MAJOR + 256 * MINOR + SMALL
}

// The tile of these 64 codes into video memory; no device is asked.
pub fn vdp_write_tile(vram: &mut [u8], tile: u16, codes: &[u8]) -> u32
    ensures { Leaves (write_tile_call vram.old tile codes.now) result [] vram.new }
{
    word::number(tile_codes::write_tile(vram, tile, codes))
}

// The 64 codes of a tile; video memory is only read.
pub fn vdp_read_tile(vram: &[u8], tile: u16, codes: &mut [u8]) -> u32
    ensures { Leaves (read_tile_call vram.now tile codes.old) result [] codes.new }
{
    word::number(tile_codes::read_tile(vram, tile, codes))
}

// ---- one pixel

// The colour of the number n that a row of the block's device is drawn with. Where the colours are dirty that one is made of the palette.
fn shown(state: &[u8], n: usize) -> u32
    requires { (old_size ≤ length state.now) × (n < 32) }
    ensures { result ≡ at (colours_now (state_of state.now)) n }
{
    if state[block::DIRTY] == 1 {
        colour::rgb(
            state[block::PALETTE + 2 * n],
            state[block::PALETTE + (2 * n + 1)],
        )
    } else {
        block::cached_colour(state, n)
    }
}

// One pixel of the row as it would be drawn now; the block is only read.
pub fn vdp_pixel(state: &[u8], vram: &[u8], area: u8, row: u32, column: u32) -> u64
    ensures { result ≡ pixel_call state.now vram.now area row column }
{
    let refused = asked(state, area);
    if refused != 0 {
        return u64::from(refused);
    }
    let raster = block::raster_in(state);
    let spot = pixel::spot_at(
        vram,
        screen_from(area),
        block::registers(state),
        raster.vertical_scroll,
        row,
        column,
    );
    match spot {
        Ok(Some(n)) => word::pixel_word(Ok(()), true, shown(state, n)),
        Ok(None) => word::pixel_word(Ok(()), false, 0),
        Err(refusal) => word::pixel_word(Err(refusal), false, 0),
    }
}

// A damaged block mended, and the changed offsets at the start of the list.
pub fn vdp_repair(state: &mut [u8], list: &mut [u8]) -> u32
    ensures { Leaves (repair_call state.old list.old) result state.new list.new }
{
    match block_repair::repair(state, list) {
        Ok(count) => 256 * (count as u32),
        Err(refusal) => word::number(Err(refusal)),
    }
}

// ---- records of a recording

// The answer word of the writer: the size of the record from bit 8 on, or the refusal. (Inlined: each writer of a record then takes six instructions fewer.)
#[inline(always)]
fn recorded_word(recorded: Result<u8, Refusal>) -> u32
    ensures { result ≡ counted_word recorded }
{
    match recorded {
        Ok(count) => 256 * u32::from(count),
        Err(refusal) => word::number(Err(refusal)),
    }
}

// A port write as a record, into the bytes from `used` on.
pub fn vdp_record_out(recording: &mut [u8], used: usize, port: u8, value: u8) -> u32
    ensures { Leaves (record_call recording.old used (Write port value)) result [] recording.new }
{
    recorded_word(trace_record::put_record(recording, used, Record::Write(port, value)))
}

// A port read.
pub fn vdp_record_input(recording: &mut [u8], used: usize, port: u8) -> u32
    ensures { Leaves (record_call recording.old used (Read port)) result [] recording.new }
{
    recorded_word(trace_record::put_record(recording, used, Record::Read(port)))
}

// A step.
#[tactic(auto, unfolding(crate::specs::Record::record_step_call))]
pub fn vdp_record_step(recording: &mut [u8], used: usize, area: u8) -> u32
    ensures { Leaves (record_step_call recording.old used area) result [] recording.new }
{
    if picture::LAST_AREA < area {
        word::number(Err(Refusal::UnknownArea))
    } else {
        let step = Record::Step(picture::area_from(area));
        recorded_word(trace_record::put_record(recording, used, step))
    }
}

// Four bytes as a word, the first lowest.
fn bytes_word(a: u8, b: u8, c: u8, d: u8) -> u32
    ensures { result ≡ bytes_word a b c d }
{
    u32::from_le_bytes([a, b, c, d])
}

// What stands at an offset of a recording: which kind of record, its port or area, its value and its length.
pub fn vdp_record_next(recording: &[u8], at: usize) -> u32
    ensures { result ≡ next_call recording.now at }
{
    match trace_record::record_at(recording, at) {
        Record::Write(port, value) => bytes_word(1, port, value, 4),
        Record::Read(port) => bytes_word(2, port, 0, 3),
        Record::Step(area) => bytes_word(3, trace_record::area_number(area), 0, 3),
        Record::Bad => 4,
        Record::End => 0,
    }
}
