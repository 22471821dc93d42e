// What is asked of the home machine's record: a row of a frame, and the sheet of all tiles.
ghost use Rattle.std.specs.Prelude.{◌≡◌};
ghost use Rattle.picture.specs.declared.Screen.TheVariants.{Home};
ghost use Rattle.dump.specs.Sheet.{SheetLeaves};
ghost use Rattle.look.specs.View.{screen_row};

use home::HomeState;
use picture::Screen;
use refusal::Refusal;

// A row of a frame, as a part of the caller's own frame; the empty part where it does not fit.
pub fn row_view<'a>(frame: &'a [u8], row: usize) -> &'a [u8]
    ensures { result.now ≡ screen_row frame.now Home row }
{
    super::screen_row(frame, Screen::Home, row)
}

// All tiles, side by side. It draws with the cache as it stands, and leaves the device.
pub fn dump_tileset(home: HomeState, vram: &[u8], pixels: &mut [u8]) -> Result<(), Refusal>
    ensures { SheetLeaves home.front.reg home.color_cache vram.now pixels.old result pixels.new }
{
    dump::dump_tileset(home.front.reg, &home.color_cache, vram, pixels)
}
