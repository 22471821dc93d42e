// The parts that either machine's state block has, each read or stored by itself, at the places that the machine tells.
#![tactic(auto)]

ghost use Rattle.std.specs.Prelude.{◌≡◌, ◌+◌, ◌≤◌, ◌<◌, length, replicate};
ghost use Rattle.laws.specs.Lists.{at};
ghost use Rattle.std.proofs.Math.Seq.{paste};
ghost use Rattle.fields.specs.Stored.{front_end};
ghost use Rattle.block_parts.specs.Parts.{registers_in, raster_in, colour_bytes, colour_at, colours_from, fields_fit, raster_stored, cache_stored, stamped};

use fields::{
    CHOSEN, COMMAND_BYTE, COMMAND_LATCHED, COUNTER, JUMPED, LINE_COUNT, MARK, MARK_FIRST,
    MARK_SECOND, REGISTERS, STATUS,
};
use raster::{LineTable, Raster};

// The registers that a fresh device has other than 0.
const REGISTER_2: usize = REGISTERS + 2;

const REGISTER_3: usize = REGISTERS + 3;

const REGISTER_4: usize = REGISTERS + 4;

const REGISTER_5: usize = REGISTERS + 5;

const REGISTER_6: usize = REGISTERS + 6;

const REGISTER_10: usize = REGISTERS + 10;

// ---- bytes

// Every byte 0.
fn clear(block: &mut [u8])
    ensures { block.new ≡ replicate (length block.old) 0 }
{
    block.fill(0);
}

// A fresh block but for its table, with this second byte of the mark and its dirty flag at this place.
pub fn stamp(block: &mut [u8], mark: u8, dirty: usize)
    requires { (front_end ≤ length block.old) × (dirty < length block.old) }
    ensures { block.new ≡ stamped (length block.old) mark dirty }
{
    clear(block);
    block[MARK] = MARK_FIRST;
    block[MARK_SECOND] = mark;
    block[REGISTER_2] = 0xFF;
    block[REGISTER_3] = 0xFF;
    block[REGISTER_4] = 0xFF;
    block[REGISTER_5] = 0xFF;
    block[REGISTER_6] = 0xFF;
    block[REGISTER_10] = 1;
    block[dirty] = 1;
}

// ---- colours

// Four bytes of src, the lowest first.
#[tactic(auto, unfolding(crate::specs::Parts::colour_at))]
pub fn colour_at(src: &[u8], at: usize) -> u32
    requires { at + 4 ≤ length src.now }
    ensures { result ≡ colour_at src.now at }
{
    small::four_at(src, at)
}

// The 32 colours that stand from this place on.
pub fn colours_at(src: &[u8], place: usize) -> [u32; 32]
    requires { place + 128 ≤ length src.now }
    ensures { result ≡ colours_from place src.now }
{
    let mut out = [0u32; 32];
    for i in 0..32 {
        out[i] = colour_at(src, place + 4 * i);
    }
    out
}

// The four bytes of each colour, the lowest first, into dst at this place.
fn put_colours(dst: &mut [u8], place: usize, colours: &[u32])
    requires { (place + 128 ≤ length dst.old) × (length colours.now ≡ 32) }
    ensures { dst.new ≡ paste dst.old place (colour_bytes colours.now) 128 }
{
    for i in 0..32 {
        let at = place + 4 * i;
        let bytes = colours[i].to_le_bytes();
        dst[at..at + 4].copy_from_slice(&bytes);
    }
}

// Colours into a block, which are not dirty then.
pub fn store_cache(block: &mut [u8], place: usize, dirty: usize, colours: &[u32; 32])
    requires { (place + 128 ≤ length block.old) × (dirty < length block.old) }
    ensures { block.new ≡ cache_stored place dirty colours.now block.old }
{
    put_colours(block, place, colours);
    block[dirty] = 0;
}

// ---- the fields that stand at the same places

// R7.6: whether the bytes that both have fit their places.
pub fn fields_fit(block: &[u8]) -> bool
    requires { front_end ≤ length block.now }
    ensures { result ≡ fields_fit block.now }
{
    let command = block[COMMAND_LATCHED] != 0 || block[COMMAND_BYTE] == 0;
    block[JUMPED] <= 1 && block[CHOSEN] <= 2 && block[COMMAND_LATCHED] <= 1 && command
}

// The registers.
pub fn registers(block: &[u8]) -> [u8; 11]
    requires { front_end ≤ length block.now }
    ensures { result ≡ registers_in block.now }
{
    let mut reg = [0u8; 11];
    reg.copy_from_slice(&block[REGISTERS..REGISTERS + 11]);
    reg
}

// The raster, its scroll at this place, with this table.
pub fn raster_in(block: &[u8], scroll: usize, table: LineTable) -> Raster
    requires { (front_end ≤ length block.now) × (scroll < length block.now) }
    ensures { result ≡ raster_in scroll table block.now }
{
    Raster {
        v_counter: block[COUNTER],
        v_counter_jumped: block[JUMPED] == 1,
        line_interrupt_counter: block[LINE_COUNT],
        vertical_scroll: block[scroll],
        table,
    }
}

// A status and a raster into a block, its scroll at this place.
pub fn store_raster(block: &mut [u8], scroll: usize, status: u8, raster: Raster)
    requires { (front_end ≤ length block.old) × (scroll < length block.old) }
    ensures { block.new ≡ raster_stored scroll status raster block.old }
{
    block[STATUS] = status;
    block[COUNTER] = raster.v_counter;
    block[JUMPED] = fields::flag_of(raster.v_counter_jumped);
    block[LINE_COUNT] = raster.line_interrupt_counter;
    block[scroll] = raster.vertical_scroll;
}
