// Where a sprite stands on each screen (R5.9, R5.10, R18.2, R20.7): the columns of it that are shown, and where the masks have them.
#![tactic(auto)]

ghost use Rattle.std.specs.Prelude.{◌≡◌, ◌+◌, ◌-◌, ◌<◌, ◌≤◌, min};
ghost use Rattle.picture.specs.View.{visible_end, visible_stand, effective_stand, edge_stand};
ghost use Rattle.stand.specs.Stand.{stand_of, Fits};

use picture::{Screen, Stand};

// The visible area's edges and its width as bytes, as X is one; and the last X at which a sprite lies left of it.
const START_X: u8 = picture::GG_VISIBLE_AREA_START_X as u8;

const END_X: u8 = picture::GG_VISIBLE_AREA_END_X as u8;

const WIDTH: u8 = picture::GG_VISIBLE_PIXEL_WIDTH as u8;

const BEFORE_X: u8 = START_X - 8;

// The tile's pixel before which a sprite at column x of the visible area ends.
fn visible_end(x: u8) -> usize
    ensures value { result ≡ visible_end x }
    ensures upper_bound { result ≤ 8 }
{
    if WIDTH < x {
        return 8;
    }
    usize::from(WIDTH - x).min(8)
}

// Where a sprite with X byte h stands in the visible area, the early clock taking e off. One that is seen is marked at X, an unseen one at X + start.
fn sprite_line_settings_visible(e: u8, h: u8) -> Stand
    requires { e ≤ 8 }
    ensures value { result ≡ visible_stand e h }
    ensures fits { Fits result }
{
    let seen = (BEFORE_X < h) & (h < END_X);
    let x = h.saturating_sub(START_X).saturating_sub(e);
    let start = (START_X + e).saturating_sub(h);
    let first = usize::from(start);
    let mark = usize::from(h) + small::weight(!seen, first);
    Stand {
        seen: seen,
        x: usize::from(x),
        start: first,
        end: visible_end(x),
        prio: usize::from(x.wrapping_sub(start)),
        mark: mark,
    }
}

// The same in the effective area: X goes around the circle, and all are seen.
fn sprite_line_settings_effective(e: u8, h: u8) -> Stand
    requires { e ≤ 8 }
    ensures value { result ≡ effective_stand e h }
    ensures fits { Fits result }
{
    let x = usize::from(h.wrapping_sub(e));
    Stand {
        seen: true,
        x: x,
        start: 0,
        end: 8,
        prio: x,
        mark: usize::from(h),
    }
}

// The tile's pixel before which a sprite at column x of a row of `width` columns ends.
fn edge_end(width: usize, x: usize) -> usize
    ensures value { result ≡ min (width - x) 8 }
    ensures upper_bound { result ≤ 8 }
{
    width.saturating_sub(x).min(8)
}

// The same by true columns, on a row of `width` columns whose column 0 is at X byte `left`: what lies off the row neither draws nor marks.
fn sprite_line_settings_true(left: u8, width: usize, e: u8, h: u8) -> Stand
    requires { (left ≤ 48) × (e ≤ 8) }
    ensures value { result ≡ edge_stand left width e h }
    ensures fits { Fits result }
{
    let x = h.saturating_sub(left).saturating_sub(e);
    let start = (left + e).saturating_sub(h);
    let place = usize::from(x);
    Stand {
        seen: true,
        x: place,
        start: usize::from(start),
        end: edge_end(width, place),
        prio: place,
        mark: place,
    }
}

// The same on each screen.
pub fn settings(screen: Screen, e: u8, h: u8) -> Stand
    requires { e ≤ 8 }
    ensures value { result ≡ stand_of screen e h }
    ensures fits { Fits result }
{
    match screen {
        Screen::VisibleOnly => sprite_line_settings_visible(e, h),
        Screen::EffectiveArea => sprite_line_settings_effective(e, h),
        Screen::TrueEdges => {
            sprite_line_settings_true(START_X, picture::GG_VISIBLE_PIXEL_WIDTH, e, h)
        }
        Screen::Home => sprite_line_settings_true(0, picture::HOME_PIXEL_WIDTH, e, h),
    }
}
