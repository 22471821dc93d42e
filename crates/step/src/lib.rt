// The handheld's step into a row buffer or a frame: the generic step of crate `row` (machine.rt). Other calls on the record are in crate `look`.
#![tactic(auto)]

ghost use Rattle.std.specs.Prelude.{◌≡◌};
ghost use Rattle.picture.specs.Screen.{columns};
ghost use Rattle.picture.specs.Area.{screen_of};
ghost use Rattle.step.specs.Step.{colours_now, reading_of, joined};
ghost use Rattle.step.specs.Layers.{RowLayersLeave};
ghost use Rattle.step.specs.Frame.{RowStepLeaves, FrameStepLeaves};

use picture::RenderArea;
use points::{Points, Stepped};
use raster::Raster;
use row::machine;
use row::machine::Machine;
use vdp::VdpState;

// The colours that a row is drawn with (R4.2): made anew from the palette where they are dirty, else the cache as it stands.
pub fn colours_of(vdp: VdpState) -> [u32; 32]
    ensures { result ≡ colours_now vdp }
{
    if vdp.cram_dirty {
        colour::palette_recompute(vdp.cram)
    } else {
        vdp.color_cache
    }
}

// The handheld as a type that implements `Machine`: an impl of another crate's trait must name a type of this crate, and the record is defined in `vdp`.
pub struct Handheld;

impl Machine for Handheld {
    type Device = VdpState;

    ghost reading_of = { reading_of };

    ghost after = { λ vdp points. (joined vdp points).device };

    fn registers(vdp: &VdpState) -> [u8; 11] {
        vdp.reg
    }

    fn raster(vdp: &VdpState) -> Raster {
        vdp.raster
    }

    fn status(vdp: &VdpState) -> u8 {
        vdp.status
    }

    fn colours(vdp: &VdpState) -> [u32; 32] {
        colours_of(*vdp)
    }

    // If a row was drawn, the cache has its colours and is clean.
    fn after(mut vdp: VdpState, points: Points, colours: [u32; 32]) -> VdpState {
        if points.row.is_some() {
            vdp.cram_dirty = false;
            vdp.color_cache = colours;
        }
        vdp.status = points.status;
        vdp.raster = points.raster;
        vdp
    }
}

// The answer of the device's own step, from what its points answer and leave, and the colours that they drew with.
pub fn join(vdp: VdpState, points: Points, colours: [u32; 32]) -> Stepped<VdpState>
    requires { colours ≡ colours_now vdp }
    ensures { result ≡ joined vdp points }
{
    machine::join::<Handheld>(vdp, points, colours)
}

// A step, whose row goes to the first bytes of the row buffer.
pub fn row_step(vdp: VdpState, vram: &[u8], row: &mut [u8], area: RenderArea) -> Stepped<VdpState>
    ensures { RowStepLeaves area vram.now vdp row.old result row.new }
{
    machine::row_step::<Handheld>(vdp, vram, row, picture::screen_of(area))
}

// A step on a whole frame.
pub fn frame_step(
    vdp: VdpState,
    vram: &[u8],
    frame: &mut [u8],
    area: RenderArea,
) -> Stepped<VdpState>
    ensures { FrameStepLeaves area vram.now vdp frame.old result frame.new }
{
    machine::frame_step::<Handheld>(vdp, vram, frame, picture::screen_of(area))
}

// The row step with the row's layers, which go to the first bytes of `layers`.
pub fn layer_row_step(
    vdp: VdpState,
    vram: &[u8],
    row: &mut [u8],
    layers: &mut [u8],
    area: RenderArea,
) -> Stepped<VdpState>
    ensures { RowLayersLeave (columns (screen_of area)) area vram.now vdp row.old layers.old result row.new layers.new }
{
    machine::layer_row_step::<Handheld>(vdp, vram, row, layers, picture::screen_of(area))
}
