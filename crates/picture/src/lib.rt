// The rules of the picture are in specs/. Here is what the code and the rules share.
#![tactic(auto)]

ghost use Rattle.std.specs.Prelude.{◌≡◌};
ghost use Rattle.picture.specs.Area.{area_from, screen_of};

// The last area that a number names; what lies above it is refused by 11.
pub const LAST_AREA: u8 = 2;

// The screens' columns and rows. Where code holds a byte to one of these numbers (an X byte, the line counter), it makes a byte of the number that stands here.
pub const GG_VISIBLE_PIXEL_WIDTH: usize = 160;

pub const GG_VISIBLE_PIXEL_HEIGHT: usize = 144;

pub const SCROLL_PIXEL_WIDTH: usize = 256;

pub const SCROLL_PIXEL_HEIGHT: usize = 224;

pub const HOME_PIXEL_WIDTH: usize = 256;

pub const HOME_PIXEL_HEIGHT: usize = 192;

// Where the visible area begins and ends: by X bytes and by lines.
pub const GG_VISIBLE_AREA_START_X: usize = 48;

pub const GG_VISIBLE_AREA_START_Y: usize = 24;

pub const GG_VISIBLE_AREA_END_X: usize = GG_VISIBLE_AREA_START_X + GG_VISIBLE_PIXEL_WIDTH;

pub const GG_VISIBLE_AREA_END_Y: usize = GG_VISIBLE_AREA_START_Y + GG_VISIBLE_PIXEL_HEIGHT;

// The map's column that its column 0 shows where register 8 is 0, and one way around the map, so that register 8 can be taken off.
pub const GG_VISIBLE_MAP_X: usize = SCROLL_PIXEL_WIDTH + GG_VISIBLE_AREA_START_X;

// R20.5: the column from which register 0 bit 7 stops the home machine's vertical scroll.
pub const HOME_LOCKED_X: usize = 192;

// The bytes of a row, four a pixel, and of a frame.
pub const GG_VISIBLE_ROW_SIZE: usize = 4 * GG_VISIBLE_PIXEL_WIDTH;

pub const SCROLL_ROW_SIZE: usize = 4 * SCROLL_PIXEL_WIDTH;

pub const HOME_ROW_SIZE: usize = 4 * HOME_PIXEL_WIDTH;

pub const GG_VISIBLE_FRAME_SIZE: usize = GG_VISIBLE_PIXEL_HEIGHT * GG_VISIBLE_ROW_SIZE;

pub const SCROLL_FRAME_SIZE: usize = SCROLL_PIXEL_HEIGHT * SCROLL_ROW_SIZE;

pub const HOME_FRAME_SIZE: usize = HOME_PIXEL_HEIGHT * HOME_ROW_SIZE;

// What a step draws: the part that the screen shows, all that the chip makes, or the part that the screen shows with its edges by true columns.
#[derive(Clone, Copy, PartialEq, Eq)]
pub enum RenderArea {
    VisibleOnly,
    EffectiveArea,
    TrueEdges,
}

// A number that names no area.
#[derive(Clone, Copy)]
pub struct UnknownArea;

impl TryFrom<u8> for RenderArea {
    ghost use Rattle.picture.specs.Area.{Names};

    type Error = UnknownArea;

    ghost try_from_gives = { Names };

    fn try_from(n: u8) -> Result<Self, UnknownArea> {
        if LAST_AREA < n {
            return Err(UnknownArea);
        }
        Ok(area_from(n))
    }
}

impl From<RenderArea> for u8 {
    ghost use Rattle.std.specs.Prelude.{◌≡◌};
    ghost use Rattle.picture.specs.Area.{area_number};

    ghost from_gives = { λ area n. n ≡ area_number area };

    fn from(area: RenderArea) -> u8 {
        area as u8
    }
}

// The area of a number that is not above 2.
pub fn area_from(n: u8) -> RenderArea
    ensures { result ≡ area_from n }
{
    if n == 0 {
        RenderArea::VisibleOnly
    } else if n == 1 {
        RenderArea::EffectiveArea
    } else {
        RenderArea::TrueEdges
    }
}

// What a row is drawn for: the screens of the handheld's areas, and that of the home machine.
#[derive(Clone, Copy)]
pub enum Screen {
    VisibleOnly,
    EffectiveArea,
    TrueEdges,
    Home,
}

// The screen of an area.
pub fn screen_of(area: RenderArea) -> Screen
    ensures { result ≡ screen_of area }
{
    match area {
        RenderArea::VisibleOnly => Screen::VisibleOnly,
        RenderArea::EffectiveArea => Screen::EffectiveArea,
        RenderArea::TrueEdges => Screen::TrueEdges,
    }
}

// Where a sprite stands on a row: its column c shows tile pixel start + c, below end, at screen column x + c. Column c is tested for priority at
// bit prio + c of the priority mask, and marked at bit mark + c of the sprite mask, both around the circle. An unseen one draws nothing.
#[derive(Clone, Copy)]
pub struct Stand {
    pub seen: bool,
    pub x: usize,
    pub start: usize,
    pub end: usize,
    pub prio: usize,
    pub mark: usize,
}
