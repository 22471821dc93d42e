// What an author or a debugger asks of a machine that is held as a record: a row of a frame, a step on a frame with its layers, the sheet of all tiles, and
// one pixel. Here of the handheld, in home_look.rt of the home machine. No program and no call for C goes by it.
#![tactic(auto)]

ghost use Rattle.std.specs.Prelude.{◌≡◌};
ghost use Rattle.picture.specs.Screen.{columns};
ghost use Rattle.picture.specs.Area.{screen_of};
ghost use Rattle.points.specs.Points.{reading};
ghost use Rattle.dump.specs.Sheet.{SheetLeaves};
ghost use Rattle.pixel.specs.Pixel.{pixel_of};
ghost use Rattle.step.specs.Step.{reading_of};
ghost use Rattle.look.specs.View.{screen_row, row_view};
ghost use Rattle.look.specs.Layers.{FrameLayerPointsLeave, FrameLayersLeave};

use picture::{RenderArea, Screen};
use points::{Points, Stepped};
use raster::Raster;
use refusal::Refusal;
use row::points_run;
use step::Handheld;
use vdp::VdpState;

pub mod home_look;
pub mod machine_look;

// ---- of any machine

// A row of a frame, as a part of the caller's own frame; the empty part where it does not fit.
#[tactic(auto, unfolding(crate::specs::View::screen_row))]
pub fn screen_row<'a>(frame: &'a [u8], screen: Screen, row: usize) -> &'a [u8]
    ensures { result.now ≡ screen_row frame.now screen row }
{
    let rows = points::row_count(screen);
    let size = points::row_size(screen);
    if row < rows && frame.len() == rows * size {
        let start = row * size;
        &frame[start..start + size]
    } else {
        &frame[..0]
    }
}

// Points 1 to 5 of a step on a frame, of a machine with these registers, raster, status and colours, with the row's layers.
pub fn layer_frame_points(
    reg: [u8; 11],
    raster: Raster,
    status: u8,
    colours: &[u32; 32],
    vram: &[u8],
    frame: &mut [u8],
    layers: &mut [u8],
    screen: Screen,
) -> Points
    ensures { FrameLayerPointsLeave screen vram.now (reading reg raster status colours.now) frame.old layers.old result frame.new layers.new }
{
    let plain = points::frame_due(reg, raster, vram, frame.len(), screen);
    let due = points::layer_due(plain, raster, layers.len(), screen);
    let bits = points_run::draw_in(due, reg, colours, vram, frame, layers, screen);
    points::finish(due, reg, status, bits)
}

// ---- of the handheld

// A step on a whole frame, with the row's layers, which go to the first bytes of `layers`.
pub fn layer_frame_step(
    vdp: VdpState,
    vram: &[u8],
    frame: &mut [u8],
    layers: &mut [u8],
    area: RenderArea,
) -> Stepped<VdpState>
    ensures { FrameLayersLeave (columns (screen_of area)) area vram.now vdp frame.old layers.old result frame.new layers.new }
{
    machine_look::layer_frame_step::<Handheld>(vdp, vram, frame, layers, picture::screen_of(area))
}

// A row of a frame, as a part of the caller's own frame; the empty part where it does not fit.
pub fn row_view<'a>(frame: &'a [u8], area: RenderArea, row: usize) -> &'a [u8]
    ensures { result.now ≡ row_view frame.now area row }
{
    screen_row(frame, picture::screen_of(area), row)
}

// All tiles, side by side. It draws with the cache as it stands, and leaves the device.
pub fn dump_tileset(vdp: VdpState, vram: &[u8], pixels: &mut [u8]) -> Result<(), Refusal>
    ensures { SheetLeaves vdp.reg vdp.color_cache vram.now pixels.old result pixels.new }
{
    dump::dump_tileset(vdp.reg, &vdp.color_cache, vram, pixels)
}

// The colour of one pixel of the row as it would be drawn now, whatever the counter reads; none outside the screen. No row is drawn, and the device is only
// read.
pub fn pixel_at(
    vdp: VdpState,
    vram: &[u8],
    area: RenderArea,
    row: u32,
    column: u32,
) -> Result<Option<u32>, Refusal>
    ensures { result ≡ pixel_of (screen_of area) vram.now (reading_of vdp) row column }
{
    let screen = picture::screen_of(area);
    let scroll = vdp.raster.vertical_scroll;
    let Some(n) = pixel::spot_at(vram, screen, vdp.reg, scroll, row, column)? else {
        return Ok(None);
    };
    Ok(Some(step::colours_of(vdp)[n]))
}
