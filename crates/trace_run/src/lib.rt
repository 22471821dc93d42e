// A recording of port calls and steps, and what it does: a device of either machine, and each record's call on it.
#![tactic(auto)]

ghost use Rattle.refusal.specs.Refusals.{refusal_number, outcome_of, byte_given};
ghost use Rattle.std.specs.Prelude.{◌≡◌, List, [], ℕ, ◌-◌, ◌<◌, ◌≤◌, length, Some};
ghost use Rattle.laws.specs.Lists.{at};
ghost use Rattle.picture.specs.declared.RenderArea.TheVariants.{VisibleOnly};
ghost use Rattle.picture.specs.Area.{screen_of, columns, frame_size};
ghost use Rattle.points.specs.Points.{RowIn};
ghost use Rattle.trace_run.specs.declared.Device.{Device};
ghost use Rattle.trace_run.specs.Device.{handheld, home, with_vdp, with_home, device_write, device_read, went};
ghost use Rattle.trace_run.specs.Run.{held, on, row_turn, into_frame, layer_colour, layers_painted, layers_into, shown_of, frame_for, turn_for, turn_of, TurnLeaves};
ghost use Rattle.trace_run.specs.Run.{turned, write_turned, read_turned, step_turned};

pub mod output;

use front::{ReadBack, Written};
use home::HomeState;
use picture::{GG_VISIBLE_PIXEL_WIDTH, RenderArea};
use points::Stepped;
use refusal::refusal_number;
use step::layer_row_step;
use trace_record::{Machine, Record, record_on};
use trace_text::Answer;
use vdp::VdpState;

// Which machine it is, and a state of each: the calls go to its own, and the other stays as it is.
#[derive(Clone, Copy)]
pub struct Device {
    pub machine: Machine,
    pub vdp: VdpState,
    pub home: HomeState,
}

impl Device {
    // A device of each.
    pub fn handheld(state: VdpState) -> Self
        ensures { result ≡ handheld state }
    {
        Device {
            machine: Machine::Handheld,
            vdp: state,
            home: HomeState::new(),
        }
    }

    pub fn home(state: HomeState) -> Self
        ensures { result ≡ home state }
    {
        Device {
            machine: Machine::Home,
            vdp: VdpState::new(),
            home: state,
        }
    }
}

// A state of either machine, which a device holds.
trait State: Copy {
    ghost line_of: { Self → ℕ };

    ghost held_in: { Device → Self → Device };

    // The line that its counter reads.
    fn line(&self) -> u8
        ensures { result ≡ line_of self.now };

    // The same device with this state.
    fn held_in(self, device: Device) -> Device
        ensures { result ≡ held_in device self };
}

impl State for VdpState {
    ghost line_of = { λ state. state.raster.v_counter };

    ghost held_in = { with_vdp };

    fn line(&self) -> u8 {
        self.raster.v_counter
    }

    fn held_in(self, mut device: Device) -> Device {
        device.vdp = self;
        device
    }
}

impl State for HomeState {
    ghost line_of = { λ state. state.raster.v_counter };

    ghost held_in = { with_home };

    fn line(&self) -> u8 {
        self.raster.v_counter
    }

    fn held_in(self, mut device: Device) -> Device {
        device.home = self;
        device
    }
}

// The device, the place in the recording, and the records so far.
#[derive(Clone, Copy)]
pub struct Run {
    pub device: Device,
    pub at: usize,
    pub count: usize,
}

// What a frame shows of the steps of the visible size: nothing, since they go into the row buffer; the picture; or which layer owns each pixel.
#[derive(Clone, Copy)]
pub enum Shown {
    Nothing,
    Colours,
    Layers,
}

// What a record's call answers, if there is one, and the run after it.
#[derive(Clone, Copy)]
pub struct Turned {
    pub answer: Option<Answer>,
    pub run: Run,
}

// A call that is made: its answer, and the run one record and some bytes on, with the state that it leaves.
fn made<D: State>(mut run: Run, bytes: usize, answer: Answer, state: D) -> Turned
    requires { (run.at < 4294967296) × (run.count < 4294967296) × (bytes < 16) }
    ensures { result ≡ turned (Some answer) (on run bytes (D.held_in run.device state)) }
{
    run.device = state.held_in(run.device);
    run.at += bytes;
    run.count += 1;
    Turned {
        answer: Some(answer),
        run,
    }
}

// A call of either machine, once it is made: what it answers, and the run with the state that it leaves.
fn wrote<D: State>(run: Run, written: Written<D>) -> Turned
    requires { (run.at < 4294967296) × (run.count < 4294967296) }
    ensures { result ≡ turned (Some (Answer.Wrote (refusal_number written.outcome))) (on run 4 (D.held_in run.device written.device)) }
{
    let answer = Answer::Wrote(refusal_number(written.outcome));
    made(run, 4, answer, written.device)
}

// A refused read gives byte 0, as a line says it (R2.3).
fn gave<D: State>(run: Run, back: ReadBack<D>) -> Turned
    requires { (run.at < 4294967296) × (run.count < 4294967296) }
    ensures { result ≡ turned (Some (Answer.Gave (refusal_number (outcome_of back.byte)) (byte_given back.byte))) (on run 3 (D.held_in run.device back.device)) }
{
    let answer = match back.byte {
        Ok(byte) => Answer::Gave(0, byte),
        Err(refusal) => Answer::Gave(u8::from(refusal), 0),
    };
    made(run, 3, answer, back.device)
}

// A step tells the line that the counter then reads (R7.10).
fn stepped<D: State>(run: Run, stepped: Stepped<D>) -> Turned
    requires { (run.at < 4294967296) × (run.count < 4294967296) }
    ensures { result ≡ step_turned run (went stepped.outcome (D.line_of stepped.device) stepped.interrupt stepped.report (D.held_in run.device stepped.device) []) }
{
    let answer = Answer::Stepped(
        refusal_number(stepped.outcome),
        stepped.device.line(),
        stepped.interrupt,
        stepped.report,
    );
    made(run, 3, answer, stepped.device)
}

// The kinds of turn. None is inlined into `turn`, which would otherwise load the whole run for each byte of a recording, even where no call is made.

// A port write.
#[inline(never)]
fn write_turn(run: Run, vram: &mut [u8], port: u8, value: u8) -> Turned
    requires { (run.at < 4294967296) × (run.count < 4294967296) }
    ensures value { result ≡ write_turned run (device_write run.device vram.old port value) }
    ensures vram_after { vram.new ≡ (device_write run.device vram.old port value).vram }
{
    let port = u16::from(port);
    match run.device.machine {
        Machine::Handheld => wrote(run, run.device.vdp.out(vram, port, value)),
        Machine::Home => wrote(run, run.device.home.out(vram, port, value)),
    }
}

// A port read.
#[inline(never)]
fn read_turn(run: Run, vram: &[u8], port: u8) -> Turned
    requires { (run.at < 4294967296) × (run.count < 4294967296) }
    ensures { result ≡ read_turned run (device_read run.device vram.now port) }
{
    let port = u16::from(port);
    match run.device.machine {
        Machine::Handheld => gave(run, run.device.vdp.input(vram, port)),
        Machine::Home => gave(run, run.device.home.input(vram, port)),
    }
}

// A step into the row buffer.
#[inline(never)]
fn row_step_turn(run: Run, vram: &[u8], row: &mut [u8], area: RenderArea) -> Turned
    requires { (run.at < 4294967296) × (run.count < 4294967296) }
    ensures { (frame : List ℕ) → TurnLeaves (row_turn area (held run vram.now row.old frame)) result vram.now row.new frame }
{
    match run.device.machine {
        Machine::Handheld => stepped(run, step::row_step(run.device.vdp, vram, row, area)),
        Machine::Home => stepped(run, home::row_step(run.device.home, vram, row)),
    }
}

// A step into the frame.
#[inline(never)]
fn frame_step_turn(run: Run, vram: &[u8], frame: &mut [u8], area: RenderArea) -> Turned
    requires { (run.at < 4294967296) × (run.count < 4294967296) }
    ensures { (row : List ℕ) → TurnLeaves (into_frame area (held run vram.now row frame.old)) result vram.now row frame.new }
{
    match run.device.machine {
        Machine::Handheld => stepped(run, step::frame_step(run.device.vdp, vram, frame, area)),
        Machine::Home => stepped(run, home::frame_step(run.device.home, vram, frame)),
    }
}

// The colour of a layer: the first sprite's is layer 64.
#[tactic(auto, unfolding(crate::specs::Run::layer_colour))]
fn layer_colour(layer: u8) -> u32
    ensures { result ≡ layer_colour layer }
{
    match layer {
        0 => 0xFF202020,
        1 => 0xFFFF00FF,
        _ => {
            let red = u32::from(layer.saturating_sub(64)) * 4 % 256;
            red + (255 - red) * 256 + 0xFF800000
        }
    }
}

// The layers of a row as colours, into its place in the frame.
fn paint_layers(frame: &mut [u8], drawn: Option<u8>, layers: &[u8; GG_VISIBLE_PIXEL_WIDTH])
    requires { (frame_size VisibleOnly ≤ length frame.old) × RowIn (screen_of VisibleOnly) drawn }
    ensures { frame.new ≡ layers_painted drawn (λ y. at layers.now) frame.old }
{
    let Some(y) = drawn else {
        return;
    };
    let first = usize::from(y) * GG_VISIBLE_PIXEL_WIDTH;
    for x in 0..GG_VISIBLE_PIXEL_WIDTH {
        tile::pixel_set_full(frame, first + x, layer_colour(layers[x]));
    }
}

// A step of an area of the visible size, whose layers the frame shows; the home machine tells none.
#[inline(never)]
fn layer_turn(run: Run, vram: &[u8], row: &mut [u8], frame: &mut [u8], area: RenderArea) -> Turned
    requires { (run.at < 4294967296) × (run.count < 4294967296) × (frame_size VisibleOnly ≤ length frame.old) × (columns area ≡ columns VisibleOnly) }
    ensures { TurnLeaves (layers_into area (held run vram.now row.old frame.old)) result vram.now row.new frame.new }
{
    match run.device.machine {
        Machine::Handheld => {
            let mut layers = [0u8; GG_VISIBLE_PIXEL_WIDTH];
            let step = layer_row_step(run.device.vdp, vram, row, &mut layers, area);
            paint_layers(frame, step.row, &layers);
            stepped(run, step)
        }
        Machine::Home => row_step_turn(run, vram, row, area),
    }
}

// What the frame shows of a step of this area: nothing where the area has not the visible size.
fn shown_of(shown: Shown, area: RenderArea) -> Shown
    ensures { result ≡ shown_of shown area }
{
    if area == RenderArea::EffectiveArea {
        Shown::Nothing
    } else {
        shown
    }
}

// A step, and what the frame shows of it.
fn step_turn(
    run: Run,
    shown: Shown,
    vram: &[u8],
    row: &mut [u8],
    frame: &mut [u8],
    area: RenderArea,
) -> Turned
    requires { (run.at < 4294967296) × (run.count < 4294967296) × (frame_for shown ≤ length frame.old) }
    ensures { TurnLeaves (turn_for shown area (held run vram.now row.old frame.old)) result vram.now row.new frame.new }
{
    match shown_of(shown, area) {
        Shown::Nothing => row_step_turn(run, vram, row, area),
        Shown::Colours => frame_step_turn(run, vram, frame, area),
        Shown::Layers => layer_turn(run, vram, row, frame, area),
    }
}

// The record at the run's place; without a call the run stays there.
pub fn turn(
    run: Run,
    shown: Shown,
    input: &[u8],
    vram: &mut [u8],
    row: &mut [u8],
    frame: &mut [u8],
) -> Turned
    requires { (run.at < 4294967296) × (run.count < 4294967296) × (frame_for shown ≤ length frame.old) }
    ensures { TurnLeaves (turn_of (turn_for shown) input.now (held run vram.old row.old frame.old)) result vram.new row.new frame.new }
{
    match record_on(run.device.machine, input, run.at) {
        Record::Write(port, value) => write_turn(run, vram, port, value),
        Record::Read(port) => read_turn(run, vram, port),
        Record::Step(area) => step_turn(run, shown, vram, row, frame, area),
        Record::Bad | Record::End => Turned { answer: None, run },
    }
}
