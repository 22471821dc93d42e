// One pixel on its own (R16.1 to R16.4): the screen's column of its row (one_column.rt). No row is drawn.
#![tactic(auto)]

ghost use Rattle.std.specs.Prelude.{◌≡◌, ℕ, ◌<◌, length, Some, Ok};
ghost use Rattle.laws.specs.Sizes.{vram_size};
ghost use Rattle.picture.specs.declared.Screen.TheVariants.{VisibleOnly, EffectiveArea, Home};
ghost use Rattle.picture.specs.Screen.{columns, rows, picture_of};
ghost use Rattle.pixel.specs.Pixel.{on_screen, spot_of};

pub mod one_column;

use one_column::{Scene, column_at};
use picture::{
    GG_VISIBLE_AREA_START_Y, GG_VISIBLE_MAP_X, GG_VISIBLE_PIXEL_HEIGHT, GG_VISIBLE_PIXEL_WIDTH,
    HOME_PIXEL_HEIGHT, HOME_PIXEL_WIDTH, SCROLL_PIXEL_HEIGHT, SCROLL_PIXEL_WIDTH, Screen,
};
use refusal::Refusal;
use small::VRAM_SIZE;

// The colour number of a pixel of a screen of the visible size: the map is scrolled both ways, and the sprites are those of the line that is 24 further
// down.
fn visible_number(
    vram: &[u8],
    screen: Screen,
    reg: [u8; 11],
    scroll: usize,
    row: usize,
    col: usize,
) -> usize
    requires { (length vram.now ≡ vram_size) × (scroll < 256) × (row < rows VisibleOnly) × (col < columns VisibleOnly) × (columns screen ≡ columns VisibleOnly) }
    ensures { result ≡ (picture_of screen reg scroll vram.now row).colour col }
{
    let sx = (GG_VISIBLE_MAP_X - usize::from(reg[8])) % SCROLL_PIXEL_WIDTH;
    let y = (row + GG_VISIBLE_AREA_START_Y + scroll) % SCROLL_PIXEL_HEIGHT;
    let b = Scene {
        names: background::names_at(reg),
        sx,
        y,
        last: y,
        cut: usize::from(background::cut_of(screen, (sx % 8) as u8)),
        width: GG_VISIBLE_PIXEL_WIDTH,
    };
    column_at(vram, screen, reg, b, row + GG_VISIBLE_AREA_START_Y, col)
}

// The same of the effective area: the map is the screen, whatever the scroll.
fn effective_number(vram: &[u8], reg: [u8; 11], row: usize, col: usize) -> usize
    requires { (length vram.now ≡ vram_size) × (row < rows EffectiveArea) × (col < columns EffectiveArea) }
    ensures { (scroll : ℕ) → result ≡ (picture_of EffectiveArea reg scroll vram.now row).colour col }
{
    let b = Scene {
        names: background::names_at(reg),
        sx: 0,
        y: row,
        last: row,
        cut: 0,
        width: SCROLL_PIXEL_WIDTH,
    };
    column_at(vram, Screen::EffectiveArea, reg, b, row, col)
}

// The same of the home screen: scrolled both ways but where a lock holds, the sprites by the row's own line, and the fill over all.
fn home_number(vram: &[u8], reg: [u8; 11], scroll: usize, row: usize, col: usize) -> usize
    requires { (length vram.now ≡ vram_size) × (scroll < 256) × (row < rows Home) × (col < columns Home) }
    ensures { result ≡ (picture_of Home reg scroll vram.now row).colour col }
{
    if small::is_set(reg[0], 5) & (col < 8) {
        return 16 + usize::from(reg[7]) % 16;
    }
    let y = (row + scroll) % SCROLL_PIXEL_HEIGHT;
    let b = Scene {
        names: background::names_at(reg),
        sx: background::home_column(reg, row),
        y,
        last: background::home_line(reg, row, y),
        cut: 0,
        width: SCROLL_PIXEL_WIDTH,
    };
    column_at(vram, Screen::Home, reg, b, row, col)
}

// The same of each screen.
fn colour_number(
    vram: &[u8],
    screen: Screen,
    reg: [u8; 11],
    scroll: u8,
    row: usize,
    col: usize,
) -> usize
    requires { (length vram.now ≡ vram_size) × (row < rows screen) × (col < columns screen) }
    ensures { result ≡ (picture_of screen reg scroll vram.now row).colour col }
{
    let scroll = usize::from(scroll);
    match screen {
        Screen::VisibleOnly | Screen::TrueEdges => {
            visible_number(vram, screen, reg, scroll, row, col)
        }
        Screen::EffectiveArea => effective_number(vram, reg, row, col),
        Screen::Home => home_number(vram, reg, scroll, row, col),
    }
}

// Whether row and column lie on the screen.
fn on_screen(screen: Screen, row: usize, col: usize) -> bool
    ensures { result ≡ on_screen screen row col }
{
    match screen {
        Screen::VisibleOnly | Screen::TrueEdges => {
            row < GG_VISIBLE_PIXEL_HEIGHT && col < GG_VISIBLE_PIXEL_WIDTH
        }
        Screen::EffectiveArea => row < SCROLL_PIXEL_HEIGHT && col < SCROLL_PIXEL_WIDTH,
        Screen::Home => row < HOME_PIXEL_HEIGHT && col < HOME_PIXEL_WIDTH,
    }
}

// The colour number of the pixel at a row and a column of a screen, by the registers, the latched scroll and video memory; none outside it.
pub fn spot_at(
    vram: &[u8],
    screen: Screen,
    reg: [u8; 11],
    scroll: u8,
    row: u32,
    column: u32,
) -> Result<Option<usize>, Refusal>
    ensures value { result ≡ spot_of screen reg scroll vram.now row column }
    ensures colour_bound { (n : ℕ) → result ≡ Ok (Some n) → n < 32 }
{
    if vram.len() != VRAM_SIZE {
        return Err(Refusal::VramLength);
    }
    let y = row as usize;
    let x = column as usize;
    if !on_screen(screen, y, x) {
        return Ok(None);
    }
    Ok(Some(colour_number(vram, screen, reg, scroll, y, x)))
}
