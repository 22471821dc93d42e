// The sprites of a line, over its background: which are on it (R5.6, R5.7), and what their pixels meet (R5.11, R5.12).
#![tactic(auto)]

ghost use Rattle.std.specs.Prelude.{◌≡◌, ℕ, ◌+◌, ◌-◌, ◌*◌, ◌/◌, ◌%◌, ◌^◌, ◌<◌, ◌≤◌, Bool, not, ◌||◌, List, length, MatchOption, IfSome, if◌then◌else◌, ◌==◌, bit_and, bit_or};
ghost use Rattle.laws.specs.Lists.{at};
ghost use Rattle.laws.specs.Paint.{painted};
ghost use Rattle.laws.specs.Sizes.{vram_size};
ghost use Rattle.bitmap.specs.Mask.{bytes_of, cleared};
ghost use Rattle.picture.specs.View.{early};
ghost use Rattle.picture.specs.Picture.{table_at, tall, sprite_line};
ghost use Rattle.picture.specs.Layers.{layers_in};
ghost use Rattle.tile.specs.Line.{colours_in};
ghost use Rattle.stand.specs.Stand.{stand_of, Fits};
ghost use Rattle.sprites.specs.Sprites.{Follows, Finished, Laid, Room, Tabled, Turned, stamped_if, line_of, eight_of};

use bitmap::Bitmap;
use column::Columns;
use picture::{Screen, Stand};

// A sprite of the list that is on a line, and the line of it that is shown there.
#[derive(Clone, Copy)]
pub struct Next {
    pub n: usize,
    pub d: usize,
}

// What the registers say of the sprites: where their table starts, the lines of each, and what the early clock takes off X.
#[derive(Clone, Copy)]
struct Table {
    start: usize,
    lines: usize,
    early: u8,
}

// What a sprite's turn leaves: the two bytes of the mask with its marks, whether two pixels have met, and how many sprites the line has with it.
#[derive(Clone, Copy)]
struct Turn {
    low: u8,
    high: u8,
    hit: bool,
    count: usize,
}

// What the sprites of a line leave: their mask, whether a pixel met it, and whether there was a ninth.
#[derive(Clone, Copy)]
struct Marks {
    mask: Bitmap,
    hit: bool,
    ninth: bool,
}

// What a whole line of sprites tells: whether two pixels met, and whether there was a ninth.
#[derive(Clone, Copy)]
pub struct Line {
    pub hit: bool,
    pub ninth: bool,
}

// ---- what the registers and the table say of a sprite

// What the early clock takes off X.
pub fn early_of(reg: [u8; 11]) -> u8
    ensures value { result ≡ early (at reg) }
    ensures upper_bound { result ≤ 8 }
{
    if small::is_set(reg[0], 3) { 8 } else { 0 }
}

// Where the sprite table starts.
pub fn table_at(reg: [u8; 11]) -> usize
    ensures value { result ≡ table_at (at reg) }
    ensures upper_bound { result ≤ 16128 }
{
    usize::from(reg[5] & 0x7E) * 128
}

// The first line of a sprite with this Y byte.
fn top_of(y: u8) -> usize
    ensures value { result ≡ (y + 1) % 256 }
    ensures upper_bound { result < 256 }
{
    usize::from(y.wrapping_add(1))
}

// The lines of a sprite.
pub fn height(tall: bool) -> usize
    ensures value { result ≡ (if tall then 16 else 8) }
    ensures upper_bound { result ≤ 16 }
    ensures result_nonzero { 0 < result }
{
    if tall { 16 } else { 8 }
}

// The three together.
fn table_of(reg: [u8; 11]) -> Table
    ensures { Tabled (at reg) result }
{
    Table {
        start: table_at(reg),
        lines: height(small::is_set(reg[1], 1)),
        early: early_of(reg),
    }
}

// The first address of the sprites' tiles.
fn pattern_base(high: bool) -> usize
    ensures value { result ≡ (if high then 8192 else 0) }
    ensures upper_bound { result ≤ 8192 }
{
    if high { 8192 } else { 0 }
}

// The tile that line d of a sprite is in: of a pair, the even one for the upper half, the odd one for the lower.
fn sprite_double_size_src_line(tall: bool, num: u8, d: usize) -> usize
    requires { d < 16 }
    ensures value { result ≡ (if tall then num / 2 * 2 + d / 8 else num) }
    ensures upper_bound { result < 256 }
{
    let char_num = usize::from(num);
    if tall {
        char_num / 2 * 2 + d / 8
    } else {
        char_num
    }
}

// Where that line stands.
pub fn line_at(reg: [u8; 11], num: u8, d: usize) -> usize
    requires { d < 16 }
    ensures value { result ≡ sprite_line (at reg) num d }
    ensures result_bound { result + 4 ≤ vram_size }
{
    let base = pattern_base(small::is_set(reg[6], 2));
    let char_num = sprite_double_size_src_line(small::is_set(reg[1], 1), num, d);
    base + 32 * char_num + 4 * (d % 8)
}

// ---- one sprite

// Whether two pixels have met: before, or one of the pixels `bits` one of those that are `taken`.
fn collision_calc(hit: bool, taken: u8, bits: u8) -> bool
    ensures { result ≡ (hit || not (bit_and taken bits == 0)) }
{
    hit || taken & bits != 0
}

// What became of the columns of sprite n, from column x on, into the layers; a layer buffer with fewer bytes than the row has columns asks for none.
fn own(layers: &mut [u8], width: usize, x: usize, n: usize, columns: Columns)
    requires { (x < 65536) × (n < 64) }
    ensures { layers.new ≡ stamped_if layers.old width x n columns.drawn columns.held }
{
    if width <= layers.len() {
        tile::own_columns(layers, width, x, n, columns.drawn, columns.held);
    }
}

// What the turn of a sprite leaves that marks the pixels `bits` from `place` up, where others have marked those that are `taken`.
fn marked(low: u8, high: u8, place: usize, hit: bool, taken: u8, bits: u8, count: usize) -> Turn
    ensures low_value { result.low ≡ bit_or low (bits * 2 ^ (place % 8) % 256) }
    ensures high_value { result.high ≡ bit_or high (bits / 2 / 2 ^ (8 - place % 8 - 1)) }
    ensures hit_value { result.hit ≡ (hit || not (bit_and taken bits == 0)) }
    ensures count_value { result.count ≡ count }
{
    let shift = place % 8;
    Turn {
        low: low | bitmap::lower(bits, shift),
        high: high | bitmap::upper(bits, shift),
        hit: collision_calc(hit, taken, bits),
        count,
    }
}

// Where sprite n stands, by its X byte.
fn stand_of(vram: &[u8], screen: Screen, e: u8, table: usize, n: usize) -> Stand
    requires { (length vram.now ≡ vram_size) × (table ≤ 16128) × (n < 64) × (e ≤ 8) }
    ensures value { result ≡ stand_of screen e (at vram.now (table + 128 + 2 * n)) }
    ensures fits { Fits result }
{
    stand::settings(screen, e, vram[table + 128 + 2 * n])
}

// The turn of the next sprite, which stands at s: `front` and `behind` are the two bytes of the priority mask that it is tested against, `low` and `high` those
// of the sprites' mask that it marks, `count` how many were before it. An unseen one counts and marks too, and draws nothing; it owns no pixel.
fn render_sprite(
    row: &mut [u8],
    layers: &mut [u8],
    vram: &[u8],
    colours: &[u32; 32],
    bytes: &[u8; 128],
    reg: [u8; 11],
    width: usize,
    table: usize,
    next: Next,
    s: Stand,
    front: u8,
    behind: u8,
    low: u8,
    high: u8,
    hit: bool,
    count: usize,
) -> Turn
    requires room { Room vram.now row.old width }
    requires fits { Fits s }
    requires table_bound { (table ≤ 16128) × (next.n < 64) × (next.d < 16) × (count < 8) × (colours_in bytes.now ≡ colours.now) }
    ensures { Turned row.old layers.old vram.now colours.now (line_of vram.now (at reg) table next) (eight_of front behind s.prio) (eight_of low high s.mark) width next.n s low high hit count result row.new layers.new }
{
    let addr = line_at(reg, vram[table + 128 + 2 * next.n + 1], next.d);
    let held = bitmap::window(front, behind, s.prio % 8);
    let taken = bitmap::window(low, high, s.mark % 8);
    let more = count + 1;
    if s.seen {
        let columns = tile::character_line_sprite(
            row, vram, colours, bytes, addr, held, taken, width, s.x, s.start, s.end,
        );
        own(layers, width, s.x, next.n, columns);
        return marked(low, high, s.mark, hit, taken, columns.marks, more);
    }
    let bits = tile::character_line_sprite_bitmap(vram, addr, s.start, s.end);
    marked(low, high, s.mark, hit, taken, bits, more)
}

// ---- the line

// The next sprite on the line, of those from sprite `from` on.
fn next_on(vram: &[u8], table: usize, from: usize, line: usize, lines: usize) -> Option<Next>
    requires { (length vram.now ≡ vram_size) × (table ≤ 16128) × (from ≤ 64) × (lines ≤ 16) }
    ensures by_index { (g : ℕ → ℕ) → table ≡ table_at g → lines ≡ (if tall g then 16 else 8) → MatchOption result (Follows (at vram.now) g line from 64 0) (λ next. Follows (at vram.now) g line from next.n next.d) }
    ensures from_le_n { IfSome result (λ next. (from ≤ next.n) × (next.n < 64) × (next.d < 16)) }
{
    for n in from..64 {
        let y = vram[table + n];
        if y == 0xD0 {
            return None;
        }
        let d = line.wrapping_sub(top_of(y));
        if d < lines {
            return Some(Next { n, d });
        }
    }
    None
}

// The same by the registers.
pub fn next_sprite(vram: &[u8], reg: [u8; 11], from: usize, line: usize) -> Option<Next>
    requires { (length vram.now ≡ vram_size) × (from ≤ 64) }
    ensures follows { MatchOption result (Follows (at vram.now) (at reg) line from 64 0) (λ next. Follows (at vram.now) (at reg) line from next.n next.d) }
    ensures from_le_n { IfSome result (λ next. (from ≤ next.n) × (next.n < 64) × (next.d < 16)) }
{
    let table = table_of(reg);
    next_on(vram, table.start, from, line, table.lines)
}

// The sprites of a line, over its background, under the priority mask `prio`, with what they mark joined to `mask`, and the layers that they own. Both
// masks come by value; the loop reads and marks them where they stand. `bytes` are the colours.
fn sprites_line(
    row: &mut [u8],
    layers: &mut [u8],
    vram: &[u8],
    colours: &[u32; 32],
    bytes: &[u8; 128],
    screen: Screen,
    reg: [u8; 11],
    line: usize,
    width: usize,
    prio: Bitmap,
    mut mask: Bitmap,
) -> Marks
    requires room { Room vram.now row.old width }
    requires bytes_value { colours_in bytes.now ≡ colours.now }
    ensures { (row₀ layers₀ : List ℕ) (f : ℕ → Bool) (colour : ℕ → ℕ) → prio.bits ≡ bytes_of f → mask.bits ≡ cleared → row.old ≡ painted row₀ 0 width (λ x. at colours.now (colour x)) → layers.old ≡ layers_in layers₀ width (λ x. 0) → Laid (at vram.now) (at reg) (stand_of screen (early (at reg))) line f row₀ colours.now width colour row.new result layers₀ layers.new }
{
    let table = table_of(reg);
    let mut hit = false;
    let mut count: usize = 0;
    let mut from: usize = 0;
    while let Some(next) = next_on(vram, table.start, from, line, table.lines) {
        if count == 8 {
            return Marks {
                mask,
                hit,
                ninth: true,
            };
        }
        let s = stand_of(vram, screen, table.early, table.start, next.n);
        let p = s.prio % 256 / 8;
        let low = s.mark % 256 / 8;
        let high = (low + 1) % 32;
        let one = render_sprite(
            row,
            layers,
            vram,
            colours,
            bytes,
            reg,
            width,
            table.start,
            next,
            s,
            prio.bits[p],
            prio.bits[(p + 1) % 32],
            mask.bits[low],
            mask.bits[high],
            hit,
            count,
        );
        mask.bits[low] = one.low;
        mask.bits[high] = one.high;
        hit = one.hit;
        count = one.count;
        from = next.n + 1;
    }
    Marks {
        mask,
        hit,
        ninth: false,
    }
}

// The sprites of a line, over its background, under the priority mask `prio`, and the layers that they own.
pub fn render_sprites_line(
    row: &mut [u8],
    layers: &mut [u8],
    vram: &[u8],
    colours: &[u32; 32],
    screen: Screen,
    reg: [u8; 11],
    line: usize,
    width: usize,
    prio: Bitmap,
) -> Line
    requires { Room vram.now row.old width }
    ensures { (row₀ layers₀ : List ℕ) (f : ℕ → Bool) (colour : ℕ → ℕ) → prio.bits ≡ bytes_of f → row.old ≡ painted row₀ 0 width (λ x. at colours.now (colour x)) → layers.old ≡ layers_in layers₀ width (λ x. 0) → Finished (at vram.now) (at reg) (stand_of screen (early (at reg))) line f row₀ colours.now width colour row.new result.hit result.ninth layers₀ layers.new }
{
    let none = Bitmap::new();
    let bytes = tile::bytes_of(colours);
    let marks = sprites_line(
        row, layers, vram, colours, &bytes, screen, reg, line, width, prio, none,
    );
    Line {
        hit: marks.hit,
        ninth: marks.ninth,
    }
}
