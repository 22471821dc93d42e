// A frame step with layers, for the record of any machine.
ghost use Rattle.row.specs.Machine.{StepLeaves};
ghost use Rattle.look.specs.Layers.{FrameLayerPointsLeave};

use picture::Screen;
use points::Stepped;
use row::machine;
use row::machine::Machine;

// A step on a whole frame, with the row's layers, which go to the first bytes of `layers`.
pub fn layer_frame_step<M: Machine>(
    device: M::Device,
    vram: &[u8],
    frame: &mut [u8],
    layers: &mut [u8],
    screen: Screen,
) -> Stepped<M::Device>
    ensures { StepLeaves M.after device (λ p. FrameLayerPointsLeave screen vram.now (M.reading_of device) frame.old layers.old p frame.new layers.new) result }
{
    let colours = M::colours(&device);
    let points = super::layer_frame_points(
        M::registers(&device),
        M::raster(&device),
        M::status(&device),
        &colours,
        vram,
        frame,
        layers,
        screen,
    );
    machine::join::<M>(device, points, colours)
}
