// One line of a tile, drawn into a row of pixels: as background, and as a sprite.
#![tactic(auto)]

ghost use Rattle.std.specs.Prelude.{◌≡◌, true, cond, ℕ, ◌+◌, ◌-◌, ◌*◌, ◌%◌, ◌^◌, ◌<◌, ◌≤◌, length, set, ltb};
ghost use Rattle.std.specs.Int.Bits.{bit_or};
ghost use Rattle.laws.specs.Bits.{bit, number, byte_of};
ghost use Rattle.laws.specs.Lists.{at};
ghost use Rattle.laws.specs.Paint.{put, painted, put_if, overlaid, four_at};
ghost use Rattle.picture.specs.Tile.{code_of, code_at, turned};
ghost use Rattle.picture.specs.Picture.{solid};
ghost use Rattle.picture.specs.Layers.{owner};
ghost use Rattle.tile.specs.Lanes.{lanes, lane, exchange};
ghost use Rattle.tile.specs.Layer.{stamped};
ghost use Rattle.tile.specs.Fours.{fours, one_of, chosen_of};
ghost use Rattle.tile.specs.Line.{colour_bytes, colours_in, line_colour, line_solid, line_marked, line_drawn, line_held, sprite_colour};

use column::Columns;

// A tile's line: the codes of its eight pixels, a byte of one number to each, and a bit for each that is not 0, the leftmost pixel's lowest.
#[derive(Clone, Copy)]
struct TileLine {
    codes: u64,
    solids: u8,
}

// Four colours, of pixels side by side.
#[derive(Clone, Copy)]
struct Four {
    a: u32,
    b: u32,
    c: u32,
    d: u32,
}

// ---- marks

// The byte with bit i set where `on`.
pub fn mark(bits: u8, i: usize, on: bool) -> u8
    requires { i < 8 }
    ensures { result ≡ cond on (bit_or bits (1 * 2 ^ i % 256)) bits }
{
    if on { bits | 1 << i } else { bits }
}

// ---- one pixel

// The four bytes of a colour, at pixel x of the row.
pub fn pixel_set_full(row: &mut [u8], x: usize, c: u32)
    requires { x * 4 + 4 ≤ length row.old }
    ensures { row.new ≡ put row.old x c }
{
    let k = x * 4;
    row[k..k + 4].copy_from_slice(&c.to_le_bytes());
}

// The same where `shown`; else the row stays.
fn pixel_set_if(shown: bool, row: &mut [u8], x: usize, c: u32)
    requires { shown ≡ true → x * 4 + 4 ≤ length row.old }
    ensures { row.new ≡ put_if shown row.old x c }
{
    if shown {
        pixel_set_full(row, x, c);
    }
}

// ---- the eight codes of a line at once, a byte of one number to each

// The bits of x that are s places apart, exchanged where m has the lower of the two.
fn exchanged(x: u64, s: usize, m: u64) -> u64
    requires { s < 64 }
    ensures { result ≡ exchange x s m }
{
    let t = (x ^ x >> s) & m;
    x ^ t ^ t << s
}

// The lanes in the other order.
fn mirrored(w: u64) -> u64
    ensures { result ≡ lanes 8 (λ k. lane w (7 - k)) }
{
    w.swap_bytes()
}

// The codes of a line whose four bytes are the lanes of x, the leftmost pixel's in lane 0. The bits of x stand in rows of eight, a byte to a row; with rows
// and columns exchanged, by squares of four, of two and of one, each lane is a code.
fn codes_of(flip: bool, x: u32) -> u64
    ensures { result ≡ lanes 8 (λ k. code_of (lane x 0) (lane x 1) (lane x 2) (lane x 3) (7 - turned flip k)) }
{
    let long = u64::from(x);
    let fours = (long | long << 28) & 0x0F0F0F0F0F0F0F0F;
    let twos = exchanged(fours, 14, 0x0000CCCC0000CCCC);
    let w = exchanged(twos, 7, 0x00AA00AA00AA00AA);
    if flip { w } else { mirrored(w) }
}

// A bit for each pixel of a line whose four bytes are the lanes of x, the leftmost's highest, which is set where the code is not 0.
fn solid_of(x: u32) -> u8
    ensures { result ≡ bit_or (bit_or (lane x 0) (lane x 2)) (bit_or (lane x 1) (lane x 3)) }
{
    let h = x | x >> 16;
    ((h | h >> 8) % 256) as u8
}

// The bits of a byte in the other order.
fn reversed(b: u8) -> u8
    ensures { result ≡ number 8 (λ k. bit b (7 - k)) }
{
    b.reverse_bits()
}

// A bit for each pixel of that line, the leftmost's lowest.
fn solids_of(flip: bool, x: u32) -> u8
    ensures { result ≡ number 8 (λ k. bit (bit_or (bit_or (lane x 0) (lane x 2)) (bit_or (lane x 1) (lane x 3))) (7 - turned flip k)) }
{
    let b = solid_of(x);
    if flip { b } else { reversed(b) }
}

// The line at addr, whose four bytes are fetched once.
fn line_of(vram: &[u8], addr: usize, flip: bool) -> TileLine
    requires { addr + 4 ≤ length vram.now }
    ensures codes_value { result.codes ≡ lanes 8 (λ k. code_at (at vram.now) addr (turned flip k)) }
    ensures solids_value { result.solids ≡ number 8 (line_solid vram.now addr flip 0) }
{
    let x = small::four_at(vram, addr);
    TileLine {
        codes: codes_of(flip, x),
        solids: solids_of(flip, x),
    }
}

// The code in lane k.
fn color_code(codes: u64, k: usize) -> usize
    requires { k < 8 }
    ensures { result ≡ lane codes k }
{
    ((codes >> (8 * k)) % 256) as usize
}

// The code of pixel p of the line at addr.
pub fn pixel_code(vram: &[u8], addr: usize, flip: bool, p: usize) -> usize
    requires { (p < 8) × (addr + 4 ≤ length vram.now) }
    ensures value { result ≡ code_at (at vram.now) addr (turned flip p) }
    ensures upper_bound { result < 16 }
{
    let line = line_of(vram, addr, flip);
    color_code(line.codes, p)
}

// n bits of a byte, from bit `start` on.
fn cut(bits: u8, start: usize, n: usize) -> u8
    requires { start + n ≤ 8 }
    ensures { result ≡ number n (λ k. bit bits (start + k)) }
{
    let low: usize = 1 << n;
    ((usize::from(bits) >> start) % low) as u8
}

// ---- the background

// The colours that the first n lanes name, of 16 of the colours from colour `palette` on, from pixel x of the row on.
fn paint(row: &mut [u8], colours: &[u32], palette: usize, x: usize, codes: u64, n: usize)
    requires { (n ≤ 8) × ((x + n) * 4 ≤ length row.old) × (palette + 16 ≤ length colours.now) × ((k : ℕ) → k < n → lane codes k < 16) }
    ensures { row.new ≡ painted row.old x n (λ k. at colours.now (palette + lane codes k)) }
{
    let top = palette + 16;
    let some = &colours[palette..top];
    let mut w = codes;
    for i in 0..n {
        let c = (w % 256) as usize;
        pixel_set_full(row, x + i, some[c]);
        w /= 256;
    }
}

// ---- the colours as bytes, for the lines that are drawn whole: a lane that counts bytes is their index as it stands

// The colours into a row of 32 pixels.
fn paint_colours(row: &mut [u8], colours: &[u32])
    requires { (length row.old ≡ 128) × (length colours.now ≡ 32) }
    ensures row_after { row.new ≡ colour_bytes colours.now }
    ensures row_after_2 { colours_in row.new ≡ colours.now }
{
    for i in 0..32 {
        pixel_set_full(row, i, colours[i]);
    }
}

// The colours as bytes, four to each.
pub fn bytes_of(colours: &[u32; 32]) -> [u8; 128]
    ensures value { result ≡ colour_bytes colours.now }
    ensures result_value { colours_in result ≡ colours.now }
{
    let mut table = [0u8; 128];
    paint_colours(&mut table, colours);
    table
}

// The colour whose first byte lane k names.
fn lane_colour(table: &[u8], codes: u64, k: usize) -> u32
    requires { (k < 8) × ((i : ℕ) → i < 8 → lane codes i + 4 ≤ length table.now) }
    ensures { result ≡ four_at table.now (lane codes k) }
{
    small::four_at(table, color_code(codes, k))
}

// The colours that the four lanes from lane k on name, of 16 of the colours from colour `palette` on. A lane times 4 is the place of its first byte.
fn lane_colours(table: &[u8], palette: usize, codes: u64, k: usize) -> Four
    requires { (k < 5) × (palette ≤ 16) × (length table.now ≡ 128) × ((i : ℕ) → i < 8 → lane codes i < 16) }
    ensures { result ≡ fours (λ i. at (colours_in table.now) (palette + lane codes i)) k }
{
    let low = 4 * palette;
    let top = low + 64;
    let some = &table[low..top];
    let places = codes << 2;
    Four {
        a: lane_colour(some, places, k),
        b: lane_colour(some, places, k + 1),
        c: lane_colour(some, places, k + 2),
        d: lane_colour(some, places, k + 3),
    }
}

// Four colours, from pixel x of the row on.
fn four_set_full(row: &mut [u8], x: usize, v: Four)
    requires { (x < 65540) × ((x + 4) * 4 ≤ length row.old) }
    ensures { row.new ≡ painted row.old x 4 (one_of v) }
{
    pixel_set_full(row, x, v.a);
    pixel_set_full(row, x + 1, v.b);
    pixel_set_full(row, x + 2, v.c);
    pixel_set_full(row, x + 3, v.d);
}

// The colours that the eight lanes name, of 16 of the colours from colour `palette` on, from pixel x of the row on. All are read before the
// first is stored: a store could not change them, but the compiler does not know that.
fn paint_whole(row: &mut [u8], table: &[u8], palette: usize, x: usize, codes: u64)
    requires { (x < 65536) × ((x + 8) * 4 ≤ length row.old) × (palette ≤ 16) × (length table.now ≡ 128) × ((k : ℕ) → k < 8 → lane codes k < 16) }
    ensures { row.new ≡ painted row.old x 8 (λ k. at (colours_in table.now) (palette + lane codes k)) }
{
    let left = lane_colours(table, palette, codes, 0);
    let right = lane_colours(table, palette, codes, 4);
    four_set_full(row, x, left);
    four_set_full(row, x + 4, right);
}

// n pixels of the line at addr, from the tile's pixel start on, drawn from pixel x of the row on; answers which are not of code 0.
pub fn character_line(
    row: &mut [u8],
    vram: &[u8],
    colours: &[u32; 32],
    addr: usize,
    flip: bool,
    palette: usize,
    x: usize,
    start: usize,
    n: usize,
) -> u8
    requires { (start + n ≤ 8) × (addr + 4 ≤ length vram.now) × (palette ≤ 16) × ((x + n) * 4 ≤ length row.old) }
    ensures row_after { row.new ≡ painted row.old x n (line_colour colours.now palette vram.now addr flip start) }
    ensures value { result ≡ number n (line_solid vram.now addr flip start) }
{
    let line = line_of(vram, addr, flip);
    paint(row, colours, palette, x, line.codes >> (8 * (start % 8)), n);
    cut(line.solids, start, n)
}

// The whole line at addr, drawn from pixel x of the row on; answers which pixels are not of code 0.
pub fn character_whole(
    row: &mut [u8],
    vram: &[u8],
    table: &[u8; 128],
    addr: usize,
    flip: bool,
    palette: usize,
    x: usize,
) -> u8
    requires { (addr + 4 ≤ length vram.now) × (palette ≤ 16) × (x < 65536) × ((x + 8) * 4 ≤ length row.old) }
    ensures row_after { row.new ≡ painted row.old x 8 (line_colour (colours_in table.now) palette vram.now addr flip 0) }
    ensures value { result ≡ number 8 (line_solid vram.now addr flip 0) }
{
    let line = line_of(vram, addr, flip);
    paint_whole(row, table, palette, x, line.codes);
    line.solids
}

// ---- a sprite

// The columns of a sprite that a row of `width` pixels has from pixel x on, a bit for each.
fn in_row(width: usize, x: usize) -> u8
    ensures { result ≡ byte_of (λ k. ltb (x + k) width) }
{
    if width <= x {
        return 0;
    }
    cut(255, 0, (width - x).min(8))
}

// The colours in palette 1 that the first n lanes name, from pixel x of the row on, where `drawn` has their bits.
fn overlay_some(row: &mut [u8], colours: &[u32; 32], x: usize, codes: u64, n: usize, drawn: u8)
    requires { (x < 65536) × (n ≤ 8) × ((k : ℕ) → k < 8 → bit drawn k ≡ true → (x + k) * 4 + 4 ≤ length row.old) × ((k : ℕ) → k < n → lane codes k < 16) }
    ensures { row.new ≡ overlaid row.old x n (bit drawn) (λ k. at colours.now (16 + lane codes k)) }
{
    let mut w = codes;
    for i in 0..n {
        let c = 16 + (w % 256) as usize;
        pixel_set_if(small::is_set(drawn, i), row, x + i, colours[c]);
        w /= 256;
    }
}

// The columns of the line at addr, from the tile's pixel start to below end, drawn from pixel x of the row on where `held` and `taken` let them.
pub fn sprite_columns(
    row: &mut [u8],
    vram: &[u8],
    colours: &[u32; 32],
    addr: usize,
    held: u8,
    taken: u8,
    width: usize,
    x: usize,
    start: usize,
    end: usize,
) -> Columns
    requires { (end ≤ 8) × (start ≤ 256) × (addr + 4 ≤ length vram.now) × (x < 65536) × (width * 4 ≤ length row.old) }
    ensures row_after { row.new ≡ overlaid row.old x 8 (line_drawn vram.now addr start end held taken width x) (sprite_colour colours.now vram.now addr start) }
    ensures marks_value { (result.marks ≡ byte_of (line_marked vram.now addr start end held)) × (result.drawn ≡ byte_of (line_drawn vram.now addr start end held taken width x)) × (result.held ≡ byte_of (line_held vram.now addr start end held)) }
{
    if end <= start {
        return column::fates(0, held, taken, 0);
    }
    let line = line_of(vram, addr, false);
    let all = cut(line.solids, start, end - start);
    let columns = column::fates(all, held, taken, in_row(width, x));
    let codes = line.codes >> (8 * start);
    overlay_some(row, colours, x, codes, end - start, columns.drawn);
    columns
}

// The colours of the four pixels from pixel x of the row on, as they stand there.
fn row_colours(row: &[u8], x: usize) -> Four
    requires { (x < 65540) × ((x + 4) * 4 ≤ length row.now) }
    ensures { result ≡ fours (λ i. four_at row.now (i * 4)) x }
{
    Four {
        a: small::four_at(row, x * 4),
        b: small::four_at(row, (x + 1) * 4),
        c: small::four_at(row, (x + 2) * 4),
        d: small::four_at(row, (x + 3) * 4),
    }
}

// The first colour where bit k of `drawn` is set, else the second.
fn chosen(drawn: u8, k: usize, a: u32, b: u32) -> u32
    requires { k < 8 }
    ensures { result ≡ cond (bit drawn k) a b }
{
    if small::is_set(drawn, k) { a } else { b }
}

// Four pixels, from pixel x of the row on: the new colours where `drawn` has the bits from bit k on, else the old.
fn overlay_four(row: &mut [u8], x: usize, drawn: u8, k: usize, new: Four, old: Four)
    requires { (k < 5) × (x < 65540) × ((x + 4) * 4 ≤ length row.old) }
    ensures { row.new ≡ painted row.old x 4 (one_of (chosen_of drawn k new old)) }
{
    let v = Four {
        a: chosen(drawn, k, new.a, old.a),
        b: chosen(drawn, k + 1, new.b, old.b),
        c: chosen(drawn, k + 2, new.c, old.c),
        d: chosen(drawn, k + 3, new.d, old.d),
    };
    four_set_full(row, x, v);
}

// The colours in palette 1 that the lanes name where `drawn` has their bits, from pixel x of the row on; the others are stored again as they
// were, so that there is no branch. All are read before the first is stored, as in `paint_whole`.
fn overlay(row: &mut [u8], table: &[u8], x: usize, codes: u64, drawn: u8)
    requires { (x < 65536) × ((x + 8) * 4 ≤ length row.old) × (length table.now ≡ 128) × ((k : ℕ) → k < 8 → lane codes k < 16) }
    ensures { row.new ≡ overlaid row.old x 8 (bit drawn) (λ k. at (colours_in table.now) (16 + lane codes k)) }
{
    let old_left = row_colours(row, x);
    let old_right = row_colours(row, x + 4);
    let left = lane_colours(table, 16, codes, 0);
    let right = lane_colours(table, 16, codes, 4);
    overlay_four(row, x, drawn, 0, left, old_left);
    overlay_four(row, x + 4, drawn, 4, right, old_right);
}

// The whole line at addr, all of it in the row: what it marks and draws are made as bytes first.
fn sprite_whole(
    row: &mut [u8],
    vram: &[u8],
    table: &[u8; 128],
    addr: usize,
    held: u8,
    taken: u8,
    width: usize,
    x: usize,
) -> Columns
    requires { (addr + 4 ≤ length vram.now) × (x < 65536) × (x + 8 ≤ width) × (width * 4 ≤ length row.old) }
    ensures row_after { row.new ≡ overlaid row.old x 8 (line_drawn vram.now addr 0 8 held taken width x) (sprite_colour (colours_in table.now) vram.now addr 0) }
    ensures marks_value { (result.marks ≡ byte_of (line_marked vram.now addr 0 8 held)) × (result.drawn ≡ byte_of (line_drawn vram.now addr 0 8 held taken width x)) × (result.held ≡ byte_of (line_held vram.now addr 0 8 held)) }
{
    let line = line_of(vram, addr, false);
    let columns = column::fates(line.solids, held, taken, 255);
    overlay(row, table, x, line.codes, columns.drawn);
    columns
}

// The same, with the whole line on a way of its own, by the colours as bytes.
pub fn character_line_sprite(
    row: &mut [u8],
    vram: &[u8],
    colours: &[u32; 32],
    table: &[u8; 128],
    addr: usize,
    held: u8,
    taken: u8,
    width: usize,
    x: usize,
    start: usize,
    end: usize,
) -> Columns
    requires { (end ≤ 8) × (start ≤ 256) × (addr + 4 ≤ length vram.now) × (x < 65536) × (width * 4 ≤ length row.old) × (colours_in table.now ≡ colours.now) }
    ensures row_after { row.new ≡ overlaid row.old x 8 (line_drawn vram.now addr start end held taken width x) (sprite_colour colours.now vram.now addr start) }
    ensures marks_value { (result.marks ≡ byte_of (line_marked vram.now addr start end held)) × (result.drawn ≡ byte_of (line_drawn vram.now addr start end held taken width x)) × (result.held ≡ byte_of (line_held vram.now addr start end held)) }
{
    if start == 0 && end == 8 && x + 8 <= width {
        return sprite_whole(row, vram, table, addr, held, taken, width, x);
    }
    sprite_columns(row, vram, colours, addr, held, taken, width, x, start, end)
}

// The columns of the line at addr, from the tile's pixel start to below end, that are not of code 0: what an unseen sprite marks.
pub fn character_line_sprite_bitmap(vram: &[u8], addr: usize, start: usize, end: usize) -> u8
    requires { (end ≤ 8) × (start ≤ 256) × (addr + 4 ≤ length vram.now) }
    ensures { result ≡ byte_of (solid start end (code_at (at vram.now) addr)) }
{
    if end <= start {
        return 0;
    }
    let line = line_of(vram, addr, false);
    cut(line.solids, start, end - start)
}

// ---- the layers

// The layer of column k, if the row has it, where sprite n's pixel is drawn, or is held back, or neither.
fn own_column(layers: &mut [u8], width: usize, k: usize, n: usize, drawn: bool, held: bool)
    requires { (width ≤ length layers.old) × (n < 64) }
    ensures { layers.new ≡ cond (ltb k width) (set layers.old k (owner n drawn held (at layers.old k))) layers.old }
{
    if k < width {
        layers[k] = column::owner_of(n, drawn, held, layers[k]);
    }
}

// The eight columns of sprite n, from column x of the row on, into its layers.
pub fn own_columns(layers: &mut [u8], width: usize, x: usize, n: usize, drawn: u8, held: u8)
    requires { (width ≤ length layers.old) × (x < 65536) × (n < 64) }
    ensures { layers.new ≡ stamped layers.old width x n drawn held 8 }
{
    for i in 0..8 {
        own_column(
            layers,
            width,
            x + i,
            n,
            small::is_set(drawn, i),
            small::is_set(held, i),
        );
    }
}
