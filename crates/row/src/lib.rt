// One row of a screen, drawn into a lent row buffer by the picture of sections 5, 18 and 20, and the layers of its columns (section 15).
#![tactic(auto)]

ghost use Rattle.std.specs.Prelude.{◌≡◌, cond, ◌&&◌, ℕ, ◌+◌, ◌%◌, ◌<◌, ◌≤◌, length, ltb};
ghost use Rattle.laws.specs.Lists.{at};
ghost use Rattle.laws.specs.Paint.{painted};
ghost use Rattle.laws.specs.Sizes.{vram_size};
ghost use Rattle.bitmap.specs.Mask.{bytes_of, joined};
ghost use Rattle.picture.specs.declared.Screen.TheVariants.{VisibleOnly, EffectiveArea, Home};
ghost use Rattle.picture.specs.Screen.{columns, rows, row_size, picture_of};
ghost use Rattle.picture.specs.Layers.{layers_of, layers_in};
ghost use Rattle.background.specs.Background.{Room, back_colour, shade, prio_to};
ghost use Rattle.row.specs.Row.{Drawn, Backed};

pub mod machine;
pub mod points_run;

use bitmap::Bitmap;
use picture::{
    GG_VISIBLE_AREA_START_Y, GG_VISIBLE_MAP_X, GG_VISIBLE_PIXEL_WIDTH, HOME_LOCKED_X,
    SCROLL_PIXEL_HEIGHT, SCROLL_PIXEL_WIDTH, Screen,
};
use sprites::Line;

// R15.1: the layer of a column that the fill covers.
const LAYER_FILLED: u8 = 2;

// What the background of a row leaves: its priority mask, the row's columns, the line that its sprites go by, and whether the fill comes over all.
#[derive(Clone, Copy)]
struct Back {
    prio: Bitmap,
    width: usize,
    line: usize,
    fill: bool,
}

// The status bits that a line of sprites sets: 5 where two pixels met, 6 where there was a ninth.
fn status_bits(line: Line) -> u8
    ensures { result ≡ cond line.hit 32 0 + cond line.ninth 64 0 }
{
    32 * u8::from(line.hit) + 64 * u8::from(line.ninth)
}

// A row that is all background's, where its layers are asked for: a buffer with fewer bytes than the row has columns asks for none.
fn clear(layers: &mut [u8], width: usize)
    ensures { layers.new ≡ layers_in layers.old width (λ x. 0) }
{
    if layers.len() < width {
        return;
    }
    layers[..width].fill(0);
}

// The background of row `line` of a screen of the visible size: scrolled both ways, its sprites by the line that is 24 further down.
fn background_visible(
    row: &mut [u8],
    vram: &[u8],
    colours: &[u32; 32],
    screen: Screen,
    reg: [u8; 11],
    scroll: usize,
    line: usize,
) -> Back
    requires { (length vram.now ≡ vram_size) × (row_size VisibleOnly ≤ length row.old) × (scroll < 256) × (line < rows VisibleOnly) × (columns screen ≡ columns VisibleOnly) }
    ensures { Backed screen reg scroll vram.now colours.now line row.old row.new result }
{
    let sx = (GG_VISIBLE_MAP_X - usize::from(reg[8])) % SCROLL_PIXEL_WIDTH;
    let below = line + GG_VISIBLE_AREA_START_Y;
    let cut = background::cut_of(screen, (sx % 8) as u8);
    let prio = background::render_background_line(
        row,
        vram,
        colours,
        background::names_at(reg),
        sx,
        (below + scroll) % SCROLL_PIXEL_HEIGHT,
        GG_VISIBLE_PIXEL_WIDTH,
        cut,
    );
    Back {
        prio,
        width: GG_VISIBLE_PIXEL_WIDTH,
        line: below,
        fill: false,
    }
}

// That of the effective area: the map is the screen, whatever the scroll.
fn background_effective(
    row: &mut [u8],
    vram: &[u8],
    colours: &[u32; 32],
    reg: [u8; 11],
    line: usize,
) -> Back
    requires { (length vram.now ≡ vram_size) × (row_size EffectiveArea ≤ length row.old) × (line < rows EffectiveArea) }
    ensures { (scroll : ℕ) → Backed EffectiveArea reg scroll vram.now colours.now line row.old row.new result }
{
    let prio = background::render_background_line(
        row,
        vram,
        colours,
        background::names_at(reg),
        0,
        line,
        SCROLL_PIXEL_WIDTH,
        0,
    );
    Back {
        prio,
        width: SCROLL_PIXEL_WIDTH,
        line,
        fill: false,
    }
}

// The background of a home row whose column 0 shows the map's pixel (sx, y), in two runs: the columns from 192 on show the map's line `last`. Answers
// the priority mask.
fn home_background(
    row: &mut [u8],
    vram: &[u8],
    colours: &[u32; 32],
    names: usize,
    sx: usize,
    y: usize,
    last: usize,
) -> Bitmap
    requires room { Room vram.now names sx y }
    requires row_size_in_bounds { (row_size Home ≤ length row.old) × (last < 224) }
    ensures row_after { row.new ≡ painted (painted row.old 0 192 (shade colours.now (back_colour vram.now names sx y))) 192 64 (shade colours.now (back_colour vram.now names ((sx + 192) % 256) last)) }
    ensures bits_value { result.bits ≡ joined (bytes_of (prio_to vram.now names sx y 0 192)) (bytes_of (prio_to vram.now names ((sx + 192) % 256) last 0 64)) }
{
    let left = background::render_background_line(
        row,
        vram,
        colours,
        names,
        sx,
        y,
        HOME_LOCKED_X,
        0,
    );
    let from = HOME_LOCKED_X * 4;
    let to = SCROLL_PIXEL_WIDTH * 4;
    let right = background::render_background_line(
        &mut row[from..to],
        vram,
        colours,
        names,
        (sx + HOME_LOCKED_X) % SCROLL_PIXEL_WIDTH,
        last,
        SCROLL_PIXEL_WIDTH - HOME_LOCKED_X,
        0,
    );
    left.join(right)
}

// R20.6: the first eight pixels in one colour, where `on`.
fn fill(row: &mut [u8], on: bool, c: u32)
    requires { 32 ≤ length row.old }
    ensures { row.new ≡ cond on (painted row.old 0 8 (λ i. c)) row.old }
{
    if !on {
        return;
    }
    for x in 0..8 {
        tile::pixel_set_full(row, x, c);
    }
}

// R20.6: and their layers the fill's, where `on` and where the row's layers are asked for.
fn cover(layers: &mut [u8], on: bool)
    ensures { layers.new ≡ layers_in layers.old (columns Home) (λ x. cond (on && ltb x 8) 2 (at layers.old x)) }
{
    if !on {
        return;
    }
    if layers.len() < SCROLL_PIXEL_WIDTH {
        return;
    }
    layers[..8].fill(LAYER_FILLED);
}

// The fill over a finished row and its layers, where `on`.
fn fill_over(row: &mut [u8], layers: &mut [u8], colours: &[u32; 32], reg: [u8; 11], on: bool)
    requires { 32 ≤ length row.old }
    ensures row_after { row.new ≡ cond on (painted row.old 0 8 (λ i. at colours.now (16 + at reg 7 % 16))) row.old }
    ensures layers_after { layers.new ≡ layers_in layers.old (columns Home) (λ x. cond (on && ltb x 8) 2 (at layers.old x)) }
{
    fill(row, on, colours[16 + usize::from(reg[7]) % 16]);
    cover(layers, on);
}

// The background of row `line` of the home machine: scrolled both ways but where a lock holds, its sprites by its own line, and the fill over all.
fn background_home(
    row: &mut [u8],
    vram: &[u8],
    colours: &[u32; 32],
    reg: [u8; 11],
    scroll: usize,
    line: usize,
) -> Back
    requires { (length vram.now ≡ vram_size) × (row_size Home ≤ length row.old) × (scroll < 256) × (line < rows Home) }
    ensures { Backed Home reg scroll vram.now colours.now line row.old row.new result }
{
    let sx = background::home_column(reg, line);
    let y = (line + scroll) % SCROLL_PIXEL_HEIGHT;
    let last = background::home_line(reg, line, y);
    let prio = home_background(row, vram, colours, background::names_at(reg), sx, y, last);
    Back {
        prio,
        width: SCROLL_PIXEL_WIDTH,
        line,
        fill: small::is_set(reg[0], 5),
    }
}

// The same on each screen.
fn background_of(
    row: &mut [u8],
    vram: &[u8],
    colours: &[u32; 32],
    screen: Screen,
    reg: [u8; 11],
    scroll: usize,
    line: usize,
) -> Back
    requires { (length vram.now ≡ vram_size) × (row_size screen ≤ length row.old) × (scroll < 256) × (line < rows screen) }
    ensures { Backed screen reg scroll vram.now colours.now line row.old row.new result }
{
    match screen {
        Screen::VisibleOnly | Screen::TrueEdges => {
            background_visible(row, vram, colours, screen, reg, scroll, line)
        }
        Screen::EffectiveArea => background_effective(row, vram, colours, reg, line),
        Screen::Home => background_home(row, vram, colours, reg, scroll, line),
    }
}

// Row `line` of a screen, by the registers, the latched scroll, the cached colours and video memory; answers the status bits
// that it sets. Its layers go to the first bytes of `layers`, one a column; a buffer with fewer bytes asks for none.
pub fn render_line(
    row: &mut [u8],
    layers: &mut [u8],
    vram: &[u8],
    colours: &[u32; 32],
    screen: Screen,
    reg: [u8; 11],
    scroll: u8,
    line: u8,
) -> u8
    requires { (length vram.now ≡ vram_size) × (row_size screen ≤ length row.old) × (line < rows screen) }
    ensures drawn { Drawn screen colours.now (picture_of screen reg scroll vram.now line) row.old row.new result }
    ensures layers_after { layers.new ≡ layers_in layers.old (columns screen) (layers_of screen reg scroll vram.now line) }
{
    let back = background_of(
        row,
        vram,
        colours,
        screen,
        reg,
        usize::from(scroll),
        usize::from(line),
    );
    let prio = back.prio;
    clear(layers, back.width);
    let bits = status_bits(sprites::render_sprites_line(
        row, layers, vram, colours, screen, reg, back.line, back.width, prio,
    ));
    fill_over(row, layers, colours, reg, back.fill);
    bits
}
