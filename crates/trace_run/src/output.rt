// A whole recording: the text that it prints, and the pictures that it draws.
ghost use Rattle.std.specs.Prelude.{◌≡◌, ◌+◌, ◌*◌, ◌≤◌, ◌&&◌, leb, eqb, length, take};
ghost use Rattle.laws.specs.Lists.{written};
ghost use Rattle.picture.specs.Screen.{frame_size};
ghost use Rattle.trace_text.specs.End.{picture_room};
ghost use Rattle.trace_run.specs.Output.{longest, screen_for, RunLeaves, TraceLeaves, PictureLeaves};
ghost use Rattle.trace_run.specs.Run.{frame_for, turn_for, start, ran};

use crate::{Device, Run, Shown, turn};
use picture::Screen;
use trace_record::{Machine, put_all};
use trace_text::put_answer;

// The longest recording that is run, and the room that its text may take.
const LONGEST: usize = 65535;

const TEXT_ROOM: usize = 327_700;

// R7.8: the text of a recording, run on this device, at the start of out, and how long it is. At most 65,535 bytes are taken; without room for what they may print nothing happens.
pub fn trace(device: Device, input: &[u8], vram: &mut [u8], row: &mut [u8], out: &mut [u8]) -> usize
    ensures trace_leaves { TraceLeaves device input.now vram.old row.old out.old result vram.new row.new out.new }
    ensures upper_bound { (result ≤ length out.new) × (result ≡ length (take result out.new)) }
{
    if out.len() < TEXT_ROOM {
        return 0;
    }
    if LONGEST < input.len() {
        return put_all(out, 0, b"long\n");
    }
    let mut run = Run {
        device,
        at: 0,
        count: 0,
    };
    let mut none = [0u8; 0];
    let mut len = 0;
    for _i in 0..input.len() {
        let turned = turn(run, Shown::Nothing, input, vram, row, &mut none);
        len = put_answer(out, len, turned.answer);
        run = turned.run;
    }
    trace_text::end::put_last(out, len, input, run.at, run.count)
}

// The screen whose frame a machine's picture is made of.
fn screen_for(machine: Machine) -> Screen
    ensures { result ≡ screen_for machine }
{
    match machine {
        Machine::Handheld => Screen::VisibleOnly,
        Machine::Home => Screen::Home,
    }
}

// Whether a frame of so many bytes is one of this screen, and so many are room for its picture.
fn has_room(screen: Screen, frame: usize, out: usize) -> bool
    ensures { result ≡ (leb (picture_room screen) out && eqb frame (frame_size screen)) }
{
    let count = trace_text::end::pixel_count(screen);
    15 + 3 * count <= out && frame == 4 * count
}

// A whole recording, record by record; answers where the run then stands.
fn run_all(
    device: Device,
    shown: Shown,
    input: &[u8],
    vram: &mut [u8],
    row: &mut [u8],
    frame: &mut [u8],
) -> usize
    requires { (length input.now ≤ longest) × (frame_for shown ≤ length frame.old) }
    ensures { RunLeaves (ran (turn_for shown) input.now (start device vram.old row.old frame.old)) result vram.new row.new frame.new }
{
    let mut run = Run {
        device,
        at: 0,
        count: 0,
    };
    for _i in 0..input.len() {
        run = turn(run, shown, input, vram, row, frame).run;
    }
    run.at
}

// R7.13, R15.5, R20.9: the picture of what a recording's visible steps show in the frame, and the home machine's, run on this device, at the start of out, and how
// long it is; of a bad or long recording, only the line that says so. Without room for a picture, or with a frame of another length, nothing happens.
pub fn snapshot(
    device: Device,
    shown: Shown,
    input: &[u8],
    vram: &mut [u8],
    row: &mut [u8],
    frame: &mut [u8],
    out: &mut [u8],
) -> usize
    ensures picture_leaves { PictureLeaves (turn_for shown) device input.now vram.old row.old frame.old out.old result vram.new row.new frame.new out.new }
    ensures upper_bound { (result ≤ length out.new) × (result ≡ length (take result out.new)) }
{
    let screen = screen_for(device.machine);
    if !has_room(screen, frame.len(), out.len()) {
        return 0;
    }
    if LONGEST < input.len() {
        return put_all(out, 0, b"long\n");
    }
    let at = run_all(device, shown, input, vram, row, frame);
    trace_text::end::put_picture(out, screen, input, at, frame)
}
