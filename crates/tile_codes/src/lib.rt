// Tiles in and out: the 64 codes that an author draws, row by row, as the 32 bytes that video memory holds, and back; and a sheet of many tiles.
#![tactic(auto)]

ghost use Rattle.std.specs.Prelude.{◌≡◌, ◌+◌, ◌-◌, ◌*◌, ◌<◌, ◌≤◌, length, take};
ghost use Rattle.laws.specs.Bits.{bit, digit, byte_of};
ghost use Rattle.laws.specs.Lists.{at, written};
ghost use Rattle.picture.specs.Tile.{code_of};
ghost use Rattle.tile_codes.specs.Tiles.{codes_at, tile_bytes};
ghost use Rattle.tile_codes.specs.Calls.{any_high, WriteLeaves, ReadLeaves};
ghost use Rattle.tile_codes.specs.Sheet.{is_sheet, SheetLeaves};

use refusal::Refusal;

// `weight` where bit i of a byte is set, else 0.
fn weighed(byte: u8, i: usize, weight: usize) -> usize
    requires { i < 8 }
    ensures value { result ≡ weight * digit (bit byte i) }
    ensures upper_bound { result ≤ weight }
{
    small::weight(small::is_set(byte, i), weight)
}

// The code that bit i of the bytes at k0, k1, k2 and k3 has, the first one's the lowest.
fn code_at(bytes: &[u8], k0: usize, k1: usize, k2: usize, k3: usize, i: usize) -> u8
    requires { (k0 < length bytes.now) × (k1 < length bytes.now) × (k2 < length bytes.now) × (k3 < length bytes.now) × (i < 8) }
    ensures { (result ≡ code_of (at bytes.now k0) (at bytes.now k1) (at bytes.now k2) (at bytes.now k3) i) × (result < 16) }
{
    let low = weighed(bytes[k0], i, 1) + weighed(bytes[k1], i, 2);
    let high = weighed(bytes[k2], i, 4) + weighed(bytes[k3], i, 8);
    (low + high) as u8
}

// The byte of one plane of a tile's line: a bit of each of its eight codes, which start at `from`; the leftmost is the highest.
fn plane_byte(codes: &[u8], from: usize, plane: usize) -> u8
    requires { (from + 8 ≤ length codes.now) × (plane < 8) }
    ensures { result ≡ byte_of (λ b. bit (at codes.now (from + (7 - b))) plane) }
{
    let half = from + 4;
    16 * code_at(codes, from + 3, from + 2, from + 1, from, plane)
        + code_at(codes, half + 3, half + 2, half + 1, half, plane)
}

// The 32 bytes of the tile whose codes start at `from`, into dst at `to`.
fn put_tile(dst: &mut [u8], to: usize, codes: &[u8], from: usize)
    requires { (to + 32 ≤ length dst.old) × (from + 64 ≤ length codes.now) }
    ensures { dst.new ≡ written dst.old to (tile_bytes (λ k. at codes.now (from + k))) }
{
    for j in 0..32 {
        dst[to + j] = plane_byte(codes, from + 8 * (j / 4), j % 4);
    }
}

// The 64 codes of the tile whose bytes start at `from`, into a buffer of that length.
fn get_tile(src: &[u8], from: usize, codes: &mut [u8])
    requires { (from + 32 ≤ length src.now) × (length codes.old ≡ 64) }
    ensures { codes.new ≡ codes_at (at src.now) from }
{
    for k in 0..64 {
        let line = from + 4 * (k / 8);
        codes[k] = code_at(src, line, line + 1, line + 2, line + 3, 7 - k % 8);
    }
}

// Whether a code is above 15. (A loop, not `any`: `any` gives wrong answers on 32-bit targets, docs/DECISIONS.md.)
fn any_high(codes: &[u8]) -> bool
    ensures { result ≡ any_high codes.now }
{
    let mut high = false;
    for i in 0..codes.len() {
        high = (15 < codes[i]) | high;
    }
    high
}

// Tile n becomes the one of these codes.
pub fn write_tile(vram: &mut [u8], n: u16, codes: &[u8]) -> Result<(), Refusal>
    ensures { WriteLeaves vram.old n codes.now result vram.new }
{
    if vram.len() != small::VRAM_SIZE {
        return Err(Refusal::VramLength);
    }
    if 511 < n {
        return Err(Refusal::UnknownTile);
    }
    if codes.len() != 64 {
        return Err(Refusal::CodesLength);
    }
    if any_high(codes) {
        return Err(Refusal::HighCode);
    }
    put_tile(vram, 32 * usize::from(n), codes, 0);
    Ok(())
}

// The codes of tile n.
pub fn read_tile(vram: &[u8], n: u16, codes: &mut [u8]) -> Result<(), Refusal>
    ensures { ReadLeaves vram.now n codes.old result codes.new }
{
    if vram.len() != small::VRAM_SIZE {
        return Err(Refusal::VramLength);
    }
    if 511 < n {
        return Err(Refusal::UnknownTile);
    }
    if codes.len() != 64 {
        return Err(Refusal::CodesLength);
    }
    get_tile(vram, 32 * usize::from(n), codes);
    Ok(())
}

// Whether the input is a sheet: 1 to 256 tiles of 64 codes, none above 15.
#[tactic(auto, unfolding(crate::specs::Sheet::is_sheet))]
fn is_sheet(input: &[u8]) -> bool
    ensures { result ≡ is_sheet input.now }
{
    let n = input.len() / 64;
    input.len() % 64 == 0 && 1 <= n && n <= 256 && !any_high(input)
}

// The bytes of a sheet's tiles, or the line `bad`, at the start of out, and how many they are. Without room for 256 tiles nothing happens.
pub fn sheet(input: &[u8], out: &mut [u8]) -> usize
    ensures sheet_leaves { SheetLeaves input.now out.old result out.new }
    ensures upper_bound { (result ≤ length out.new) × (result ≡ length (take result out.new)) }
{
    if out.len() < 8192 {
        return 0;
    }
    if !is_sheet(input) {
        out[..4].copy_from_slice(b"bad\n");
        return 4;
    }
    let tiles = input.len() / 64;
    for n in 0..tiles {
        put_tile(out, 32 * n, input, 64 * n);
    }
    32 * tiles
}
