// Where a step writes its row, on either machine: to its place in a frame, or to the first bytes of a row buffer. Layers, if requested, are written to the
// first bytes of a layer buffer.
ghost use Rattle.std.specs.Prelude.{◌≡◌, length};
ghost use Rattle.points.specs.Points.{bits_of};
ghost use Rattle.points.specs.Bytes.{layers_by};
ghost use Rattle.points.specs.Due.{due_of, Fits, due_picture, due_layers};
ghost use Rattle.face.specs.Target.{target_lines, need, drawn};

use picture::Screen;
use points::Due;
use raster::Raster;
use row::points_run;

#[derive(Clone, Copy)]
pub enum Target {
    Frame,
    Row,
}

// Both are inlined into `stepped` of either machine, and with it into the calls, where the target is a constant.
impl Target {
    // The plan of the next step, for this many bytes of pixels and, if layers are requested, of the layer buffer.
    #[inline(always)]
    pub fn due(
        self,
        told: bool,
        reg: [u8; 11],
        raster: Raster,
        vram: &[u8],
        pixels: usize,
        layers: usize,
        screen: Screen,
    ) -> Due
        ensures { result ≡ due_of (target_lines self told vram.now pixels layers screen) screen reg raster }
    {
        let due = match self {
            Target::Frame => points::frame_due(reg, raster, vram, pixels, screen),
            Target::Row => points::row_due(reg, raster, vram, pixels, screen),
        };
        if told {
            points::layer_due(due, raster, layers, screen)
        } else {
            due
        }
    }

    // Draws the planned row there, with its layers; returns the status bits that it sets.
    #[inline(always)]
    pub fn draw(
        self,
        due: Due,
        reg: [u8; 11],
        colours: &[u32; 32],
        vram: &[u8],
        pixels: &mut [u8],
        layers: &mut [u8],
        screen: Screen,
    ) -> u8
        requires { Fits screen vram.now (need self screen) (length pixels.old) due.row }
        ensures value { result ≡ bits_of due.row (due_picture screen vram.now reg due) }
        ensures pixels_after { pixels.new ≡ drawn self due.row screen colours.now (due_picture screen vram.now reg due) pixels.old }
        ensures layers_after { layers.new ≡ layers_by due.row screen (due_layers screen vram.now reg due) layers.old }
    {
        match self {
            Target::Frame => points_run::draw_in(due, reg, colours, vram, pixels, layers, screen),
            Target::Row => points_run::draw(due, reg, colours, vram, pixels, layers, screen),
        }
    }
}
