// A step of any machine: the five points run on what they read of its record, and the record after them. What either machine says for itself stands in the
// crates `step` and `home`.
ghost use Rattle.std.specs.Prelude.{◌≡◌};
ghost use Rattle.points.specs.declared.Points.{Points};
ghost use Rattle.points.specs.Points.{Reading};
ghost use Rattle.points.specs.Bytes.{RowPointsLeave, FramePointsLeave, RowLayerPointsLeave};
ghost use Rattle.row.specs.Machine.{joined_by, StepLeaves};

use super::points_run;
use picture::Screen;
use points::{Points, Stepped};
use raster::Raster;

// A machine, by its record of a device.
pub trait Machine {
    type Device: Copy;

    // What the points read of a device, and the device that they leave.
    ghost reading_of: { Self.Device → Reading };

    ghost after: { Self.Device → Points → Self.Device };

    fn registers(device: &Self::Device) -> [u8; 11]
        ensures { result ≡ (reading_of device.now).reg };

    fn raster(device: &Self::Device) -> Raster
        ensures { result ≡ (reading_of device.now).raster };

    fn status(device: &Self::Device) -> u8
        ensures { result ≡ (reading_of device.now).status };

    // The colours that a row is drawn with (R4.2): made anew where they are dirty.
    fn colours(device: &Self::Device) -> [u32; 32]
        ensures { result ≡ (reading_of device.now).colours };

    // The device after a step of these points, which drew with these colours.
    fn after(device: Self::Device, points: Points, colours: [u32; 32]) -> Self::Device
        requires { colours ≡ (reading_of device).colours }
        ensures { result ≡ after device points };
}

// The answer of the device's own step, from what its points answer and leave, and the colours that they drew with.
pub fn join<M: Machine>(device: M::Device, points: Points, colours: [u32; 32]) -> Stepped<M::Device>
    requires { colours ≡ (M.reading_of device).colours }
    ensures { result ≡ joined_by M.after device points }
{
    Stepped {
        outcome: points.outcome,
        interrupt: points.interrupt,
        report: points.report,
        row: points.row,
        device: M::after(device, points, colours),
    }
}

// A step, whose row goes to the first bytes of the row buffer.
pub fn row_step<M: Machine>(
    device: M::Device,
    vram: &[u8],
    row: &mut [u8],
    screen: Screen,
) -> Stepped<M::Device>
    ensures { StepLeaves M.after device (λ p. RowPointsLeave screen vram.now (M.reading_of device) row.old p row.new) result }
{
    let colours = M::colours(&device);
    let points = points_run::row_points(
        M::registers(&device),
        M::raster(&device),
        M::status(&device),
        &colours,
        vram,
        row,
        screen,
    );
    join::<M>(device, points, colours)
}

// A step on a whole frame.
pub fn frame_step<M: Machine>(
    device: M::Device,
    vram: &[u8],
    frame: &mut [u8],
    screen: Screen,
) -> Stepped<M::Device>
    ensures { StepLeaves M.after device (λ p. FramePointsLeave screen vram.now (M.reading_of device) frame.old p frame.new) result }
{
    let colours = M::colours(&device);
    let points = points_run::frame_points(
        M::registers(&device),
        M::raster(&device),
        M::status(&device),
        &colours,
        vram,
        frame,
        screen,
    );
    join::<M>(device, points, colours)
}

// The row step with the row's layers, which go to the first bytes of `layers`.
pub fn layer_row_step<M: Machine>(
    device: M::Device,
    vram: &[u8],
    row: &mut [u8],
    layers: &mut [u8],
    screen: Screen,
) -> Stepped<M::Device>
    ensures { StepLeaves M.after device (λ p. RowLayerPointsLeave screen vram.now (M.reading_of device) row.old layers.old p row.new layers.new) result }
{
    let colours = M::colours(&device);
    let points = points_run::layer_row_points(
        M::registers(&device),
        M::raster(&device),
        M::status(&device),
        &colours,
        vram,
        row,
        layers,
        screen,
    );
    join::<M>(device, points, colours)
}
