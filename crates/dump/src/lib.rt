// All tiles of video memory on one sheet (R5.13): 256 as background, and the same numbers as sprites.
#![tactic(auto)]

ghost use Rattle.std.specs.Prelude.{◌≡◌, cond, ◌&&◌, List, ℕ, ◌+◌, ◌-◌, ◌*◌, ◌/◌, ◌%◌, ◌<◌, ◌≤◌, ltb, leb, length};
ghost use Rattle.laws.specs.Lists.{at};
ghost use Rattle.laws.specs.Sizes.{vram_size};
ghost use Rattle.picture.specs.Tile.{code_at};
ghost use Rattle.dump.specs.Dump.{tile_column, tile_row, pixel_byte, dump_size, dumped};
ghost use Rattle.dump.specs.Lines.{Dumping};
ghost use Rattle.dump.specs.Sheet.{SheetLeaves};

use refusal::Refusal;
use small::VRAM_SIZE;

const DUMP_SIZE: usize = 131072;

// R5.14: the sheet's pixel at which tile chr starts.
#[tactic(auto, unfolding(crate::specs::Dump::tile_row, crate::specs::Dump::tile_column))]
fn place_of(tall: bool, chr: usize) -> usize
    requires { chr < 512 }
    ensures value { result ≡ 1024 * tile_row tall chr + 8 * tile_column tall chr }
    ensures result_bound { result + 904 ≤ 32768 }
{
    if tall && 256 <= chr {
        1024 * (2 * (chr / 32) + chr % 2) + 8 * (chr % 32 / 2)
    } else {
        1024 * (chr / 16) + 8 * (chr % 16)
    }
}

// The tile line at addr, drawn at pixel x of the whole picture.
fn dump_line(
    pixels: &mut [u8],
    vram: &[u8],
    colours: &[u32; 32],
    sprite: bool,
    addr: usize,
    x: usize,
)
    requires { (length pixels.old ≡ dump_size) × (addr + 4 ≤ length vram.now) × (x + 8 ≤ 32768) }
    ensures { (k : ℕ) → at pixels.new k ≡ cond (leb x (k / 4) && ltb (k / 4 - x) 8) (pixel_byte colours.now sprite (code_at (at vram.now) addr (k / 4 - x)) (k % 4) (at pixels.old k)) (at pixels.old k) }
{
    if sprite {
        tile::sprite_columns(pixels, vram, colours, addr, 0, 0, 32768, x, 0, 8);
    } else {
        tile::character_line(pixels, vram, colours, addr, false, 0, x, 0, 8);
    }
}

// The eight lines of tile chr, at its place. The sprites' pattern base counts for sprites alone.
fn dump_tile(
    pixels: &mut [u8],
    vram: &[u8],
    colours: &[u32; 32],
    tall: bool,
    high: bool,
    chr: usize,
)
    requires { (length pixels.old ≡ dump_size) × (length vram.now ≡ vram_size) × (chr < 512) }
    ensures { (pixels₀ : List ℕ) → Dumping vram.now tall high colours.now pixels₀ (8 * chr) pixels.old → Dumping vram.now tall high colours.now pixels₀ (8 * (chr + 1)) pixels.new }
{
    let place = place_of(tall, chr);
    let sprite = 256 <= chr;
    let addr = small::weight(sprite && high, 8192) + 32 * (chr % 256);
    for line in 0..8 {
        dump_line(
            pixels,
            vram,
            colours,
            sprite,
            addr + 4 * line,
            place + 128 * line,
        );
    }
}

// All tiles, by these colours (R5.15).
fn draw_tileset(pixels: &mut [u8], vram: &[u8], colours: &[u32; 32], reg: [u8; 11])
    requires { (length pixels.old ≡ dump_size) × (length vram.now ≡ vram_size) }
    ensures { pixels.new ≡ dumped vram.now reg colours.now pixels.old }
{
    let tall = small::is_set(reg[1], 1);
    let high = small::is_set(reg[6], 2);
    for chr in 0..512 {
        dump_tile(pixels, vram, colours, tall, high, chr);
    }
}

// The sheet of all tiles as a call: video memory and the sheet are tested first. It draws with the colours as they stand.
#[tactic(auto, unfolding(crate::specs::Sheet::dump_refusal, crate::specs::Sheet::sheet_after))]
pub fn dump_tileset(
    reg: [u8; 11],
    colours: &[u32; 32],
    vram: &[u8],
    pixels: &mut [u8],
) -> Result<(), Refusal>
    ensures { SheetLeaves reg colours.now vram.now pixels.old result pixels.new }
{
    if vram.len() != VRAM_SIZE {
        return Err(Refusal::VramLength);
    }
    if pixels.len() != DUMP_SIZE {
        return Err(Refusal::PixelLength);
    }
    draw_tileset(pixels, vram, colours, reg);
    Ok(())
}
