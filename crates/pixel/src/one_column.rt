// The colour number of one column of a row: the map's pixel there, and the sprites of the line in turn on that one column (R16.4). The row's engine is not called.
ghost use Rattle.std.specs.Prelude.{◌≡◌, ℕ, ◌+◌, ◌-◌, ◌%◌, ◌<◌, ◌≤◌, Bool, true, ◌&&◌, length, take};
ghost use Rattle.laws.specs.Bits.{number};
ghost use Rattle.laws.specs.Lists.{at};
ghost use Rattle.laws.specs.Sizes.{vram_size};
ghost use Rattle.picture.specs.Tile.{code_at, map_colour, map_front};
ghost use Rattle.picture.specs.View.{early};
ghost use Rattle.picture.specs.Picture.{Canvas, sprite_line, laid, table_at, listed, with_sprites, bare};
ghost use Rattle.background.specs.Background.{Room, back_front};
ghost use Rattle.stand.specs.Stand.{stand_of, Fits};
ghost use Rattle.pixel.specs.Column.{Set, Clear, line_at, front_at, Shifts, reach_of, marks_left, colour_with, Shows};

use picture::{GG_VISIBLE_AREA_START_X, HOME_LOCKED_X, Screen, Stand};

// ---- the background

// The map as a row shows it: where its entries start, the map's pixel (sx, y) that column 0 shows, the map's line that the columns from 192 on show,
// how far to the left the first tile marks, and the row's width. Only at home is `last` another line than y, and there the first tile marks its own places.
#[derive(Clone, Copy)]
pub struct Scene {
    pub names: usize,
    pub sx: usize,
    pub y: usize,
    pub last: usize,
    pub cut: usize,
    pub width: usize,
}

// A pixel of the map: its colour number, and whether it stands in front of sprites.
#[derive(Clone, Copy)]
struct Ground {
    colour: usize,
    front: bool,
}

fn map_pixel(vram: &[u8], names: usize, x: usize, y: usize) -> Ground
    requires { Room vram.now names x y }
    ensures { (result.colour ≡ map_colour (at vram.now) names x y) × (result.front ≡ map_front (at vram.now) names x y) }
{
    let e = names + 2 * (32 * (y / 8) + x / 8);
    let hi = vram[e + 1];
    let addr = background::line_at(vram[e], hi, y);
    let code = tile::pixel_code(vram, addr, small::is_set(hi, 1), x % 8);
    Ground {
        colour: small::weight(small::is_set(hi, 3), 16) + code,
        front: small::is_set(hi, 4) & (code != 0),
    }
}

// The map's line that column x shows.
fn line_of(b: Scene, x: usize) -> usize
    requires { (b.y < 224) × (b.last < 224) }
    ensures value { result ≡ line_at b x }
    ensures upper_bound { result < 224 }
{
    if HOME_LOCKED_X <= x { b.last } else { b.y }
}

// Whether column x of a row that shows the map's line y stands in front of sprites, where that is asked.
fn column_front(vram: &[u8], b: Scene, y: usize, asked: bool, x: usize) -> bool
    requires set { Set vram.now b }
    requires y_bound { (y < 224) × (x < 256) }
    ensures { result ≡ (asked && back_front vram.now b.names b.sx y x) }
{
    if !asked {
        return false;
    }
    let here = map_pixel(vram, b.names, (b.sx + x) % 256, y);
    here.front
}

// A place of the row's priority mask: the columns that mark it are one of the first tile, which stands `cut` to the right, and the one that stands there.
fn in_front(vram: &[u8], b: Scene, place: usize) -> bool
    requires set { Set vram.now b }
    requires place_bound { place < 256 }
    ensures { result ≡ front_at vram.now b place }
{
    let y = line_of(b, place);
    let first = 8 - b.cut;
    let x = (place + b.cut) % 256;
    if column_front(vram, b, y, x < first, x) {
        return true;
    }
    column_front(vram, b, y, (first <= place) & (place < b.width), place)
}

// ---- one sprite

// What the sprites so far leave of a column: its colour number, and their marks at the column's own place of the mask (bit 0) and at those to the
// left of it, where a sprite that the left edge cuts is tested.
#[derive(Clone, Copy)]
struct Column {
    colour: usize,
    taken: u8,
}

// Whether a sprite marks the place j to the left of the column's.
fn marks_left(
    vram: &[u8],
    b: Scene,
    s: Stand,
    addr: usize,
    col: usize,
    off: usize,
    j: usize,
) -> bool
    requires set { Set vram.now b }
    requires fits { Fits s }
    requires addr_in_bounds { (addr + 4 ≤ length vram.now) × (col < 256) × (off < 256) × (j < 8) }
    ensures { result ≡ marks_left vram.now b s addr col off j }
{
    let p = s.start + (col + off + 768 - j - s.mark) % 256;
    if s.end <= p {
        return false;
    }
    if tile::pixel_code(vram, addr, false, p) == 0 {
        return false;
    }
    if !s.seen {
        return true;
    }
    !in_front(vram, b, (col + 256 - j) % 256)
}

// The same of all places that the column needs.
fn marks_near(vram: &[u8], b: Scene, s: Stand, addr: usize, col: usize, off: usize) -> u8
    requires set { Set vram.now b }
    requires fits { Fits s }
    requires addr_in_bounds { (addr + 4 ≤ length vram.now) × (col < 256) × (off < 256) }
    ensures { result ≡ number (reach_of col) (marks_left vram.now b s addr col off) }
{
    let reach = 8 - col.min(7);
    let mut bits: u8 = 0;
    for j in 0..reach {
        bits = tile::mark(bits, j, marks_left(vram, b, s, addr, col, off, j));
    }
    bits
}

// The colour number of the column with a sprite whose marks are `bits`: its own where it is seen, has a pixel there that is marked, and no sprite
// before has marked that place, `back` to the left of the column's own.
fn colour_with(
    vram: &[u8],
    s: Stand,
    addr: usize,
    col: usize,
    back: usize,
    bits: u8,
    taken: u8,
    old: usize,
) -> usize
    requires fits { Fits s }
    requires addr_in_bounds { (addr + 4 ≤ length vram.now) × (col < 256) × (back ≤ s.start) }
    ensures { result ≡ colour_with vram.now s addr col back bits taken old }
{
    let x = s.x;
    if !s.seen | (col < x) {
        return old;
    }
    let p = s.start + (col - x);
    if s.end <= p {
        return old;
    }
    if !small::is_set(bits, back) | small::is_set(taken, back) {
        return old;
    }
    16 + tile::pixel_code(vram, addr, false, p)
}

// ---- the line

// How a screen's sprites that are seen stand to their columns: how far to the right of them their mark and their X byte are, and whether one that the
// left edge cuts is tested and marked to the left of its column's own place, by as much as is cut.
#[derive(Clone, Copy)]
struct Shift {
    off: usize,
    ahead: usize,
    back: bool,
}

fn shift_of(screen: Screen, e: u8) -> Shift
    requires { e ≤ 8 }
    ensures { Shifts screen e result }
{
    let early = usize::from(e);
    let edge = GG_VISIBLE_AREA_START_X + early;
    match screen {
        Screen::VisibleOnly => Shift {
            off: edge,
            ahead: edge,
            back: true,
        },
        Screen::EffectiveArea => Shift {
            off: early,
            ahead: early,
            back: true,
        },
        Screen::TrueEdges => Shift {
            off: 0,
            ahead: edge,
            back: false,
        },
        Screen::Home => Shift {
            off: 0,
            ahead: early,
            back: false,
        },
    }
}

// Whether none of the 16 Y bytes from k on is that of a sprite on the line, or ends the list: around a circle of 256 lines the line is below each
// sprite's last. There is no branch in the loop, as there is in `all`, so that the compiler takes them all at once.
fn none_of(vram: &[u8], k: usize, line: u8, lines: u8) -> bool
    requires { k + 16 ≤ length vram.now }
    ensures { result ≡ true → (i : ℕ) → i < 16 → Clear line lines (at vram.now (k + i)) }
{
    let mut none = true;
    for i in 0..16 {
        let y = vram[k + i];
        let below = line.wrapping_sub(y.wrapping_add(1));
        none = (y != 0xD0) & (lines <= below) & none;
    }
    none
}

// Where the search of the list may begin: behind the sixteens at its start that have no sprite on the line.
fn first_group(vram: &[u8], reg: [u8; 11], table: usize, line: usize) -> usize
    requires { (length vram.now ≡ vram_size) × (table ≡ table_at (at reg)) × (table ≤ 16128) × (line < 256) }
    ensures { (result ≤ 64) × (listed (at vram.now) (at reg) line 64 0 ≡ listed (at vram.now) (at reg) line (64 - result) result) }
{
    let lines = sprites::height(small::is_set(reg[1], 1)) as u8;
    let l = line as u8;
    for n in (0..64).step_by(16) {
        if !none_of(vram, table + n, l, lines) {
            return n;
        }
    }
    64
}

// The column with the sprite whose X byte stands at k, its tile behind it, and of which line d is shown. Where the column is so far past
// the X byte that no place which it needs is one of the sprite's eight, nothing more is asked.
fn sprite_at(
    vram: &[u8],
    screen: Screen,
    reg: [u8; 11],
    b: Scene,
    e: u8,
    shift: Shift,
    k: usize,
    d: usize,
    col: usize,
    under: Column,
) -> Column
    requires set { Set vram.now b }
    requires k_bound { (k + 2 ≤ vram_size) × (e ≤ 8) × (d < 16) × (col < 256) }
    requires shifts { Shifts screen e shift }
    ensures { (f : ℕ → Bool) (c : Canvas) → ((i : ℕ) → i < 256 → front_at vram.now b i ≡ f i) → Shows col shift.off c under → Shows col shift.off (laid (stand_of screen e (at vram.now k)) (code_at (at vram.now) (sprite_line (at reg) (at vram.now (k + 1)) d)) f c) result }
{
    let h = vram[k];
    let far = 15 - col.min(7);
    if far <= (col + shift.ahead + 256 - usize::from(h)) % 256 {
        return under;
    }
    let s = stand::settings(screen, e, h);
    let addr = sprites::line_at(reg, vram[k + 1], d);
    let bits = marks_near(vram, b, s, addr, col, shift.off);
    let back = small::weight(shift.back, s.start);
    Column {
        colour: colour_with(vram, s, addr, col, back, bits, under.taken, under.colour),
        taken: under.taken | bits,
    }
}

// The colour number of a column of a row: the map's, and over it the first eight sprites of the line in turn.
pub fn column_at(
    vram: &[u8],
    screen: Screen,
    reg: [u8; 11],
    b: Scene,
    line: usize,
    col: usize,
) -> usize
    requires set { Set vram.now b }
    requires col_bound { (col < 256) × (line < 256) }
    ensures { (f : ℕ → Bool) (colour : ℕ → ℕ) → ((i : ℕ) → i < 256 → front_at vram.now b i ≡ f i) → map_colour (at vram.now) b.names ((b.sx + col) % 256) (line_at b col) ≡ colour col → result ≡ (with_sprites (at vram.now) (at reg) (stand_of screen (early (at reg))) line f (take 8 (listed (at vram.now) (at reg) line 64 0)) (bare colour)).colour col }
{
    let table = sprites::table_at(reg);
    let e = sprites::early_of(reg);
    let shift = shift_of(screen, e);
    let under = map_pixel(vram, b.names, (b.sx + col) % 256, line_of(b, col));
    let mut column = Column {
        colour: under.colour,
        taken: 0,
    };
    let mut from = first_group(vram, reg, table, line);
    for _count in 0..8usize {
        let Some(next) = sprites::next_sprite(vram, reg, from, line) else {
            return column.colour;
        };
        column = sprite_at(
            vram,
            screen,
            reg,
            b,
            e,
            shift,
            table + 128 + 2 * next.n,
            next.d,
            col,
            column,
        );
        from = next.n + 1;
    }
    column.colour
}
