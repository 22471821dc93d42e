// What the programs that run a recording have in common: a fresh device, memory, and the recording as their input.
ghost use Rattle.std.specs.Prelude.{◌≤◌, ◌≡◌, length, replicate};

use crate::zeros;
use home::HomeState;
use picture::{GG_VISIBLE_FRAME_SIZE, HOME_FRAME_SIZE};
use raster::LineTable;
use trace_run::{Device, Shown};
use vdp::VdpState;

// The device that it runs on: one of the chart's line table, one of the line table with 261 steps, or a home device.
#[derive(Clone, Copy)]
pub enum Kind {
    Steps262,
    Steps261,
    Home,
}

// Such a device, fresh.
fn fresh(on: Kind) -> Device {
    match on {
        Kind::Steps262 => Device::handheld(VdpState::new()),
        Kind::Steps261 => Device::handheld(VdpState::with_table(LineTable::Steps261)),
        Kind::Home => Device::home(HomeState::new()),
    }
}

// How much of the largest is the frame of this one.
fn frame_size(on: Kind) -> usize
    ensures { result ≤ 196608 }
{
    match on {
        Kind::Steps262 | Kind::Steps261 => GG_VISIBLE_FRAME_SIZE,
        Kind::Home => HOME_FRAME_SIZE,
    }
}

// Writes the picture of what the frame shows. Its buffers are local to this function, since a function clears all its locals at its entry.
fn draw(
    rt: &HostRuntime,
    shown: Shown,
    on: Kind,
    name: &[u8],
    input: &[u8],
    vram: &mut [u8],
    row: &mut [u8],
) {
    let mut frame = zeros::<HOME_FRAME_SIZE>();
    let mut picture = zeros::<147_471>();
    let k = trace_run::output::snapshot(
        fresh(on),
        shown,
        input,
        vram,
        row,
        &mut frame[..frame_size(on)],
        &mut picture,
    );
    program::output(rt, name, &picture[..k]);
}

// Writes the text of the calls. Its buffer has room for the text of any recording.
fn print(rt: &HostRuntime, on: Kind, name: &[u8], input: &[u8], vram: &mut [u8], row: &mut [u8]) {
    let mut text = zeros::<327_700>();
    let k = trace_run::output::trace(fresh(on), input, vram, row, &mut text);
    program::output(rt, name, &text[..k]);
}

// One of these programs, on its device: the picture of what a frame shows, or, where it shows nothing, the text. Its video memory and its row buffer come first
// (R11.3), then its input, with room for the longest recording and one byte more.
pub fn run(rt: &HostRuntime, shown: Shown, on: Kind, name: &[u8], help: &[u8]) {
    let mut vram = [0u8; 16384];
    let mut row = [0u8; 1024];
    let mut input = zeros::<65_536>();
    let Some(n) = program::input(rt, name, help, &mut input) else {
        return;
    };
    match shown {
        Shown::Nothing => print(rt, on, name, &input[..n], &mut vram, &mut row),
        _ => draw(rt, shown, on, name, &input[..n], &mut vram, &mut row),
    }
}
