// The home machine's state block (R21.2): a device as 186 bytes, its parts read and stored where they stand, and its ports: the front's, which are those of
// either machine, and a palette of its own.
#![tactic(auto)]

ghost use Rattle.std.specs.Prelude.{◌≡◌, true, ◌≤◌, ◌<◌, length};
ghost use Rattle.laws.specs.Lists.{at};
ghost use Rattle.fields.specs.Stored.{address_in};
ghost use Rattle.home.specs.declared.HomeState.{HomeState};
ghost use Rattle.home.specs.Home.{palette_size, made};
ghost use Rattle.home.specs.Ports.{palette_write};
ghost use Rattle.home_block.specs.HomeBlock.{block_size, block_of, state_of, well_formed, Sized};
ghost use Rattle.home_block.specs.InPlace.{OutInPlace, InputInPlace};

use fields::{MARK, MARK_FIRST, MARK_SECOND};
use home::PALETTE_SIZE;
use raster::{LineTable, Raster};
use refusal::Refusal;

pub const BLOCK_SIZE: usize = 186;

// The places that are its own: the scroll, the dirty flag, the table, the palette, the cache.
pub const VERTICAL_SCROLL: usize = 23;

pub const DIRTY: usize = 24;

const TABLE: usize = 25;

pub const PALETTE: usize = 26;

pub const CACHE: usize = 58;

// The second byte of its mark.
const HOME_MARK: u8 = 0x48;

// R21.3: whether a block has the length, the mark, and no byte that does not fit its place.
#[tactic(auto, unfolding(crate::specs::HomeBlock::well_formed))]
pub fn well_formed(block: &[u8]) -> bool
    ensures { result ≡ well_formed block.now }
{
    block.len() == BLOCK_SIZE
        && block[MARK] == MARK_FIRST
        && block[MARK_SECOND] == HOME_MARK
        && block_parts::fields_fit(block)
        && block[DIRTY] <= 1
        && block[TABLE] <= 1
}

// A fresh device of this table into a block.
pub fn fresh(block: &mut [u8], table: LineTable)
    requires { length block.old ≡ block_size }
    ensures { block.new ≡ block_of (made table) }
{
    block_parts::stamp(block, HOME_MARK, DIRTY);
    block[TABLE] = u8::from(table);
}

// ---- the parts of a block that the calls read and write, each by itself

// The registers.
#[tactic(auto, unfolding(crate::specs::HomeBlock::state_of, fields::specs::Stored::front_in))]
pub fn registers(block: &[u8]) -> [u8; 11]
    requires { length block.now ≡ block_size }
    ensures { result ≡ (state_of block.now).front.reg }
{
    block_parts::registers(block)
}

// The raster.
#[tactic(auto, unfolding(crate::specs::HomeBlock::state_of))]
pub fn raster_in(block: &[u8]) -> Raster
    requires { length block.now ≡ block_size }
    ensures { result ≡ (state_of block.now).raster }
{
    block_parts::raster_in(block, VERTICAL_SCROLL, raster::table_from(block[TABLE]))
}

// The palette, and the cached colours.
#[tactic(auto, unfolding(crate::specs::HomeBlock::state_of))]
pub fn palette_in(block: &[u8]) -> [u8; 32]
    requires { length block.now ≡ block_size }
    ensures { result ≡ (state_of block.now).cram }
{
    let mut cram = [0u8; 32];
    cram.copy_from_slice(&block[PALETTE..PALETTE + 32]);
    cram
}

#[tactic(auto, unfolding(crate::specs::HomeBlock::state_of))]
pub fn cache_in(block: &[u8]) -> [u32; 32]
    requires { length block.now ≡ block_size }
    ensures { result ≡ (state_of block.now).color_cache }
{
    block_parts::colours_at(block, CACHE)
}

// One of the cached colours.
#[tactic(auto, using(block_parts::proofs::Copies::one_of_lem), unfolding(crate::specs::HomeBlock::state_of))]
pub fn cached_colour(block: &[u8], n: usize) -> u32
    requires { (length block.now ≡ block_size) × (n < 32) }
    ensures { result ≡ at (state_of block.now).color_cache n }
{
    block_parts::colour_at(block, CACHE + 4 * n)
}

// ---- the ports

// A byte for the palette (R20.3): it is stored at once.
fn write_palette(block: &mut [u8], val: u8)
    requires { (length block.old ≡ block_size) × (address_in block.old < palette_size) }
    ensures { (h : HomeState) → Sized h → block.old ≡ block_of h → block.new ≡ block_of (palette_write h val).device }
{
    let addr = fields::address_in(block);
    fields::store_colour(block, PALETTE, DIRTY, usize::from(addr), val);
    fields::store_address(block, (addr + 1) % PALETTE_SIZE);
}

// A port write on the device of a well-formed block.
pub fn out(block: &mut [u8], vram: &mut [u8], port: u16, val: u8) -> Result<(), Refusal>
    requires { well_formed block.old ≡ true }
    ensures { OutInPlace block.old vram.old port val result block.new vram.new }
{
    let sent = inplace::write(block, vram, PALETTE_SIZE, port, val);
    if sent.palette {
        write_palette(block, val);
        Ok(())
    } else {
        sent.outcome
    }
}

// A port read, all of it the front's.
pub fn input(block: &mut [u8], vram: &[u8], port: u16) -> Result<u8, Refusal>
    requires { well_formed block.old ≡ true }
    ensures { InputInPlace block.old vram.now port result block.new }
{
    inplace::read(block, vram, port)
}
