// The state block (R7.5): a device as 219 or 220 bytes, and back.
#![tactic(auto)]

ghost use Rattle.std.specs.Prelude.{◌≡◌, ◌≤◌, ◌<◌, length};
ghost use Rattle.laws.specs.Lists.{at};
ghost use Rattle.block.specs.Block.{old_size, mark_of, fits, fresh_in, state_of, well_formed};

use fields::{MARK, MARK_FIRST, MARK_SECOND};
use raster::{LineTable, Raster};

// The bytes of a block of the first version and of the second.
pub const OLD_SIZE: usize = 219;

pub const BLOCK_SIZE: usize = 220;

// The places that are its own: the byte that waits for the palette and its flag, the scroll, the dirty flag, the palette, the cache, the table.
pub const PALETTE_LATCHED: usize = 23;

pub const PALETTE_BYTE: usize = 24;

pub const VERTICAL_SCROLL: usize = 25;

pub const DIRTY: usize = 26;

pub const PALETTE: usize = 27;

pub const CACHE: usize = 91;

pub const TABLE: usize = 219;

// The second byte of the mark, by the length.
pub fn mark_of(len: usize) -> u8
    ensures { result ≡ mark_of len }
{
    if len == OLD_SIZE { 0x53 } else { 0x54 }
}

// Whether a block of this length has room for a device of this table.
pub fn has_room(table: LineTable, len: usize) -> bool
    ensures { result ≡ fits table len }
{
    match table {
        LineTable::Steps261 => len == OLD_SIZE || len == BLOCK_SIZE,
        LineTable::Steps262 => len == BLOCK_SIZE,
    }
}

// Byte 219, the line table; a block without it has table 0. (An index, not `get`: `Option<&u8>` is laid out wrongly on 32-bit targets, docs/DECISIONS.md.)
fn table_byte(block: &[u8]) -> u8
    ensures { result ≡ at block.now 219 }
{
    if OLD_SIZE < block.len() {
        block[TABLE]
    } else {
        0
    }
}

// R7.6: whether a block has a length of blocks, its mark, and no byte that does not fit its place.
#[tactic(auto, unfolding(crate::specs::Block::well_formed))]
pub fn well_formed(block: &[u8]) -> bool
    ensures { result ≡ well_formed block.now }
{
    let len = block.len();
    if len < OLD_SIZE || BLOCK_SIZE < len {
        return false;
    }
    let marked = block[MARK] == MARK_FIRST && block[MARK_SECOND] == mark_of(len);
    let latched = block[PALETTE_LATCHED];
    let flags = latched <= 1 && block[DIRTY] <= 1 && table_byte(block) <= 1;
    let palette = latched != 0 || block[PALETTE_BYTE] == 0;
    marked && block_parts::fields_fit(block) && flags && palette
}

// A fresh device of this table into a block, in the version that its length tells; one that has no room for it is left as it is.
pub fn fresh(block: &mut [u8], table: LineTable)
    ensures { block.new ≡ fresh_in table block.old }
{
    let len = block.len();
    if !has_room(table, len) {
        return;
    }
    block_parts::stamp(block, mark_of(len), DIRTY);
    if OLD_SIZE < len {
        block[TABLE] = u8::from(table);
    }
}

// ---- the parts of a block that the calls read and write, each by itself

// The registers.
#[tactic(auto, unfolding(crate::specs::Block::state_of))]
pub fn registers(block: &[u8]) -> [u8; 11]
    requires { old_size ≤ length block.now }
    ensures { result ≡ (state_of block.now).reg }
{
    block_parts::registers(block)
}

// The raster.
#[tactic(auto, unfolding(crate::specs::Block::state_of))]
pub fn raster_in(block: &[u8]) -> Raster
    requires { old_size ≤ length block.now }
    ensures { result ≡ (state_of block.now).raster }
{
    block_parts::raster_in(
        block,
        VERTICAL_SCROLL,
        raster::table_from(table_byte(block)),
    )
}

// The palette, and the cached colours.
#[tactic(auto, unfolding(crate::specs::Block::state_of))]
pub fn palette_in(block: &[u8]) -> [u8; 64]
    requires { old_size ≤ length block.now }
    ensures { result ≡ (state_of block.now).cram }
{
    let mut cram = [0u8; 64];
    cram.copy_from_slice(&block[PALETTE..PALETTE + 64]);
    cram
}

#[tactic(auto, unfolding(crate::specs::Block::state_of))]
pub fn cache_in(block: &[u8]) -> [u32; 32]
    requires { old_size ≤ length block.now }
    ensures { result ≡ (state_of block.now).color_cache }
{
    block_parts::colours_at(block, CACHE)
}

// One of the cached colours.
pub fn cached_colour(block: &[u8], n: usize) -> u32
    requires { (old_size ≤ length block.now) × (n < 32) }
    ensures { result ≡ at (state_of block.now).color_cache n }
{
    block_parts::colour_at(block, CACHE + 4 * n)
}
