// The background of a row (R5.1), tile by tile, with the priority mask that its tiles mark (R5.5).
#![tactic(auto)]

ghost use Rattle.std.specs.Prelude.{◌≡◌, ◌+◌, ◌-◌, ◌*◌, ◌/◌, ◌%◌, ◌<◌, ◌≤◌, ◌||◌, ◌⊎◌, length, if◌then◌else◌};
ghost use Rattle.laws.specs.Bits.{bit, number};
ghost use Rattle.laws.specs.Lists.{at};
ghost use Rattle.laws.specs.Paint.{painted};
ghost use Rattle.laws.specs.Sizes.{vram_size};
ghost use Rattle.bitmap.specs.Mask.{bit_of, with_byte, bytes_of};
ghost use Rattle.picture.specs.Tile.{turned, names_at, tile_line};
ghost use Rattle.tile.specs.Line.{colours_in};
ghost use Rattle.background.specs.Background.{Room, back_colour, back_front, shade, prio_to, place_at, Whole, cut_of, home_column, home_last};

use bitmap::Bitmap;
use picture::Screen;

// R5.2: where the tile entries start.
pub fn names_at(reg: [u8; 11]) -> usize
    ensures value { result ≡ names_at (at reg) }
    ensures upper_bound { result ≤ 14336 }
{
    usize::from(reg[2] & 0x0E) * 1024
}

// How far from a tile's start line y stands: the lines the other way round where it is flipped.
fn line_in(flip: bool, y: usize) -> usize
    ensures value { result ≡ 4 * turned flip (y % 8) }
    ensures upper_bound { result ≤ 28 }
{
    let line = y % 8;
    if flip { 28 - 4 * line } else { 4 * line }
}

// Where line y of the tile with these entry bytes stands.
pub fn line_at(lo: u8, hi: u8, y: usize) -> usize
    ensures value { result ≡ tile_line lo hi y }
    ensures result_bound { result + 4 ≤ vram_size }
{
    let character = usize::from(lo) + small::weight(small::is_set(hi, 0), 256);
    32 * character + line_in(small::is_set(hi, 2), y)
}

// The mask with the marks of a tile, if it has priority.
fn with_marks(prio: Bitmap, on: bool, place: usize, bits: u8) -> Bitmap
    ensures { result.bits ≡ (if on then with_byte prio.bits place bits else prio.bits) }
{
    if on { prio.set(place, bits) } else { prio }
}

// How far to the left the first tile of a row marks, where scroll cuts s pixels of it.
pub fn cut_of(screen: Screen, s: u8) -> u8
    ensures value { result ≡ cut_of screen s }
    ensures fact { (result ≡ 0) ⊎ (result ≡ s) }
{
    match screen {
        Screen::VisibleOnly => s,
        Screen::EffectiveArea | Screen::TrueEdges | Screen::Home => 0,
    }
}

// The map's column that column 0 of home row `line` shows.
pub fn home_column(reg: [u8; 11], line: usize) -> usize
    ensures value { result ≡ home_column reg line }
    ensures upper_bound { result < 256 }
{
    if small::is_set(reg[0], 6) && line < 16 {
        0
    } else {
        (256 - usize::from(reg[8])) % 256
    }
}

// The map's line that its columns from 192 on show, where those before them show line y.
pub fn home_line(reg: [u8; 11], line: usize, y: usize) -> usize
    ensures { result ≡ home_last reg line y }
{
    if small::is_set(reg[0], 7) { line } else { y }
}

// Where the pixels of one tile, from x on, mark: the row's first tile `cut` places to the left of them, around the circle.
fn place_of(cut: u8, x: usize) -> usize
    requires { cut ≤ 8 }
    ensures { result ≡ place_at cut x }
{
    if x == 0 {
        usize::from(0u8.wrapping_sub(cut))
    } else {
        x
    }
}

// n pixels from x on, which all lie in one tile; answers the priority mask with their marks.
fn render_tile(
    row: &mut [u8],
    vram: &[u8],
    colours: &[u32; 32],
    names: usize,
    sx: usize,
    y: usize,
    x: usize,
    n: usize,
    cut: u8,
    prio: Bitmap,
) -> Bitmap
    requires room { Room vram.now names sx y }
    requires n_bound { ((sx + x) % 8 + n ≤ 8) × ((x + n) * 4 ≤ length row.old) × (x < 256) }
    requires n_bound_2 { (n ≤ 8) × (cut ≤ 8) × Whole cut x n }
    ensures row_after { row.new ≡ painted row.old x n (λ i. shade colours.now (back_colour vram.now names sx y) (x + i)) }
    ensures bits_value { prio.bits ≡ bytes_of (prio_to vram.now names sx y cut x) → result.bits ≡ bytes_of (prio_to vram.now names sx y cut (x + n)) }
{
    let mx = (sx + x) % 256;
    let e = names + 2 * (32 * (y / 8) + mx / 8);
    let lo = vram[e];
    let hi = vram[e + 1];
    let addr = line_at(lo, hi, y);
    let bits = tile::character_line(
        row,
        vram,
        colours,
        addr,
        small::is_set(hi, 1),
        small::weight(small::is_set(hi, 3), 16),
        x,
        mx % 8,
        n,
    );
    with_marks(prio, small::is_set(hi, 4), place_of(cut, x), bits)
}

// The bits where `on`, else none.
fn where_on(on: bool, bits: u8) -> u8
    ensures { result ≡ (if on then bits else 0) }
{
    if on { bits } else { 0 }
}

// The eight pixels from x on, which are a whole tile; answers which of them stand in front of sprites. The two bytes of its entry are one
// number, which the compiler reads at once.
fn render_whole_tile(
    row: &mut [u8],
    vram: &[u8],
    table: &[u8; 128],
    names: usize,
    sx: usize,
    y: usize,
    x: usize,
) -> u8
    requires room { Room vram.now names sx y }
    requires x_value { ((sx + x) % 8 ≡ 0) × ((x + 8) * 4 ≤ length row.old) × (x < 256) }
    ensures row_after { row.new ≡ painted row.old x 8 (λ i. shade (colours_in table.now) (back_colour vram.now names sx y) (x + i)) }
    ensures value { result ≡ number 8 (λ i. back_front vram.now names sx y (x + i)) }
{
    let mx = (sx + x) % 256;
    let e = names + 2 * (32 * (y / 8) + mx / 8);
    let entry = usize::from(u16::from_le_bytes([vram[e], vram[e + 1]]));
    let bits = tile::character_whole(
        row,
        vram,
        table,
        32 * (entry % 512) + line_in(entry / 1024 % 2 == 1, y),
        entry / 512 % 2 == 1,
        entry / 2048 % 2 * 16,
        x,
    );
    where_on(entry / 4096 % 2 == 1, bits)
}

// The mask with the marks of a row of tiles that stand `shift` places past multiples of eight: those of the tile from place 8 k + shift on
// are byte k + 1.
fn lay(mut prio: Bitmap, marks: [u8; 33], shift: usize) -> Bitmap
    requires { shift < 8 }
    ensures { result.bits ≡ bytes_of (λ i. bit_of prio.bits i || bit (at marks ((8 + i - shift) / 8)) ((8 + i - shift) % 8)) }
{
    for i in 0..32 {
        prio.bits[i] |= bitmap::lower(marks[i + 1], shift) | bitmap::upper(marks[i], shift);
    }
    prio
}

// The background of a row whose pixel 0 shows the map's pixel (sx, y); answers the priority mask, the first tile's marks `cut` to the left.
// The whole tiles between the first and the last have a loop of their own, which keeps their marks; all are laid in together.
pub fn render_background_line(
    row: &mut [u8],
    vram: &[u8],
    colours: &[u32; 32],
    names: usize,
    sx: usize,
    y: usize,
    width: usize,
    cut: u8,
) -> Bitmap
    requires room { Room vram.now names sx y }
    requires width_bound { (width ≤ 256) × (width * 4 ≤ length row.old) × ((cut ≡ 0) ⊎ (cut ≡ sx % 8)) }
    ensures row_after { row.new ≡ painted row.old 0 width (shade colours.now (back_colour vram.now names sx y)) }
    ensures bits_value { result.bits ≡ bytes_of (prio_to vram.now names sx y cut width) }
{
    let none = Bitmap::new();
    let first = (8 - sx % 8).min(width);
    let mut prio = render_tile(row, vram, colours, names, sx, y, 0, first, cut, none);
    let table = tile::bytes_of(colours);
    let mut marks = [0u8; 33];
    let mut x = first;
    // No range by steps: where the whole tiles end, the last one starts.
    while x + 8 <= width {
        let bits = render_whole_tile(row, vram, &table, names, sx, y, x);
        marks[x / 8 + 1] = bits;
        x += 8;
    }
    prio = lay(prio, marks, first % 8);
    if x < width {
        prio = render_tile(row, vram, colours, names, sx, y, x, width - x, cut, prio);
    }
    prio
}
