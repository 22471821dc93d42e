// The five points of a step but for the drawing of its row: what the coming step is to do, its row or its refusal; the screen's end, the interrupt and the line count.
#![tactic(auto)]

ghost use Rattle.std.specs.Prelude.{◌≡◌, cond, ◌&&◌, List, ℕ, ◌-◌, ◌<◌, leb, ltb, None, Some, Err};
ghost use Rattle.picture.specs.Screen.{columns, rows, row_size};
ghost use Rattle.refusal.specs.Refusals.{Line};
ghost use Rattle.points.specs.Points.{row_on, ended_by, report_by, interrupt_by, row_lines, frame_lines};
ghost use Rattle.points.specs.Bytes.{also_layers};
ghost use Rattle.points.specs.Due.{refused_due, taken_due, layer_due, due_of, points_by};

use picture::Screen;
use raster::Raster;
use refusal::Refusal;
use small::VRAM_SIZE;

// The lines between which the screens' rows are drawn, as bytes, as the counter is one; and the line at which the screen ends.
const GG_VISIBLE_AREA_START_Y: u8 = picture::GG_VISIBLE_AREA_START_Y as u8;

const GG_VISIBLE_AREA_END_Y: u8 = picture::GG_VISIBLE_AREA_END_Y as u8;

const SCROLL_PIXEL_HEIGHT: u8 = picture::SCROLL_PIXEL_HEIGHT as u8;

const HOME_PIXEL_HEIGHT: u8 = picture::HOME_PIXEL_HEIGHT as u8;

const SCREEN_END: u8 = 0xC1;

// Whether a step asks the processor for an interrupt.
#[derive(Clone, Copy)]
pub enum VdpInt {
    NoInterrupt,
    InterruptGenerated,
}

// Whether a step ends the screen, and whether the screen is on.
#[derive(Clone, Copy)]
pub enum DisplayRefresh {
    NoDisplay,
    ScreenDone,
    ScreenDoneNoRefresh,
}

// The numbers of both (R7.7).
impl From<VdpInt> for u8 {
    ghost use Rattle.std.specs.Prelude.{◌≡◌, ◌<◌};
    ghost use Rattle.points.specs.Points.{interrupt_number};

    ghost from_gives = { λ interrupt n. (n ≡ interrupt_number interrupt) × (n < 2) };

    fn from(interrupt: VdpInt) -> u8 {
        interrupt as u8
    }
}

impl From<DisplayRefresh> for u8 {
    ghost use Rattle.std.specs.Prelude.{◌≡◌, ◌<◌};
    ghost use Rattle.points.specs.Points.{report_number};

    ghost from_gives = { λ report n. (n ≡ report_number report) × (n < 3) };

    fn from(report: DisplayRefresh) -> u8 {
        report as u8
    }
}

// What the five points of a step answer, the row that it draws, if it draws one, and what they leave of status and raster.
#[derive(Clone, Copy)]
pub struct Points {
    pub outcome: Result<(), Refusal>,
    pub interrupt: VdpInt,
    pub report: DisplayRefresh,
    pub row: Option<u8>,
    pub status: u8,
    pub raster: Raster,
}

// What a step answers, with the device that it leaves.
#[derive(Clone, Copy)]
pub struct Stepped<D> {
    pub outcome: Result<(), Refusal>,
    pub interrupt: VdpInt,
    pub report: DisplayRefresh,
    pub row: Option<u8>,
    pub device: D,
}

// R4.2: the row that a line draws, on a screen whose rows are on the lines from `first` up to `end`, and on each screen (R20.1).
fn row_between(line: u8, first: u8, end: u8) -> Option<u8>
    ensures { result ≡ cond (leb first line && ltb line end) (Some (line - first)) None }
{
    if first <= line && line < end {
        Some(line - first)
    } else {
        None
    }
}

#[tactic(auto, unfolding(crate::specs::Points::row_on))]
fn row_on(screen: Screen, line: u8) -> Option<u8>
    ensures { result ≡ row_on screen line }
{
    match screen {
        Screen::VisibleOnly | Screen::TrueEdges => {
            row_between(line, GG_VISIBLE_AREA_START_Y, GG_VISIBLE_AREA_END_Y)
        }
        Screen::EffectiveArea => row_between(line, 0, SCROLL_PIXEL_HEIGHT),
        Screen::Home => row_between(line, 0, HOME_PIXEL_HEIGHT),
    }
}

// R4.3: the screen ends at line C1.
#[tactic(auto, unfolding(crate::specs::Points::ended_by))]
fn ended(status: u8, line: u8) -> u8
    ensures { result ≡ ended_by line status }
{
    if line == SCREEN_END {
        status | 0x80
    } else {
        status
    }
}

#[tactic(auto, unfolding(crate::specs::Points::report_by))]
fn report_of(reg: [u8; 11], line: u8) -> DisplayRefresh
    ensures { result ≡ report_by reg line }
{
    if line != SCREEN_END {
        DisplayRefresh::NoDisplay
    } else if small::is_set(reg[1], 6) {
        DisplayRefresh::ScreenDone
    } else {
        DisplayRefresh::ScreenDoneNoRefresh
    }
}

// R4.4: the end of the screen or the line count asks for an interrupt.
#[tactic(auto, unfolding(crate::specs::Points::interrupt_by))]
fn interrupt_of(reg: [u8; 11], status: u8, raster: Raster) -> VdpInt
    ensures { result ≡ interrupt_by reg status raster }
{
    let screen_interrupt = small::is_set(reg[1], 5) && small::is_set(status, 7);
    if screen_interrupt || raster.line_interrupt_is_up(reg) {
        VdpInt::InterruptGenerated
    } else {
        VdpInt::NoInterrupt
    }
}

// How many rows a frame has, and the bytes of a row; of them each column has four.
pub fn row_count(screen: Screen) -> usize
    ensures { result ≡ rows screen }
{
    match screen {
        Screen::VisibleOnly | Screen::TrueEdges => picture::GG_VISIBLE_PIXEL_HEIGHT,
        Screen::EffectiveArea => picture::SCROLL_PIXEL_HEIGHT,
        Screen::Home => picture::HOME_PIXEL_HEIGHT,
    }
}

pub fn row_size(screen: Screen) -> usize
    ensures { result ≡ row_size screen }
{
    match screen {
        Screen::VisibleOnly | Screen::TrueEdges => picture::GG_VISIBLE_ROW_SIZE,
        Screen::EffectiveArea => picture::SCROLL_ROW_SIZE,
        Screen::Home => picture::HOME_ROW_SIZE,
    }
}

// What the coming step is to do on its buffers, known before any colour is asked for: whether it is taken, or by which refusal not; the row that it
// draws, if it draws one; and the raster with its counter up, which a refused step leaves as it was.
#[derive(Clone, Copy)]
pub struct Due {
    pub good: bool,
    pub outcome: Result<(), Refusal>,
    pub row: Option<u8>,
    pub up: Raster,
}

fn refused(refusal: Refusal, raster: Raster) -> Due
    ensures { result ≡ refused_due (Err refusal) raster }
{
    Due {
        good: false,
        outcome: Err(refusal),
        row: None,
        up: raster,
    }
}

fn taken(reg: [u8; 11], raster: Raster, screen: Screen) -> Due
    ensures { result ≡ taken_due screen reg raster }
{
    let up = raster.advance(reg);
    Due {
        good: true,
        outcome: Ok(()),
        row: row_on(screen, up.v_counter),
        up,
    }
}

// On a row buffer of `size` bytes.
pub fn row_due(reg: [u8; 11], raster: Raster, vram: &[u8], size: usize, screen: Screen) -> Due
    ensures { result ≡ due_of (row_lines screen vram.now size) screen reg raster }
{
    if vram.len() != VRAM_SIZE {
        refused(Refusal::VramLength, raster)
    } else if size < row_size(screen) {
        refused(Refusal::PixelLength, raster)
    } else {
        taken(reg, raster, screen)
    }
}

// On a frame of `size` bytes.
pub fn frame_due(reg: [u8; 11], raster: Raster, vram: &[u8], size: usize, screen: Screen) -> Due
    ensures { result ≡ due_of (frame_lines screen vram.now size) screen reg raster }
{
    let need = row_count(screen) * row_size(screen);
    if vram.len() != VRAM_SIZE {
        refused(Refusal::VramLength, raster)
    } else if size < need {
        refused(Refusal::PixelLength, raster)
    } else if need < size {
        refused(Refusal::FrameTooLong, raster)
    } else {
        taken(reg, raster, screen)
    }
}

// The same with a layer buffer of `size` bytes beside it.
pub fn layer_due(due: Due, raster: Raster, size: usize, screen: Screen) -> Due
    ensures value { result ≡ layer_due (columns screen) size raster due }
    ensures value_2 { (lines : List Line) (reg : List ℕ) → due ≡ due_of lines screen reg raster → result ≡ due_of (also_layers (columns screen) size lines) screen reg raster }
{
    if due.good && size < row_size(screen) / 4 {
        refused(Refusal::LayerLength, raster)
    } else {
        due
    }
}

// R4.3 to R4.5, once the row is drawn, which set these status bits; a refused step tells and changes nothing (R2.3).
#[tactic(auto, unfolding(crate::specs::Due::points_by))]
pub fn finish(due: Due, reg: [u8; 11], status: u8, bits: u8) -> Points
    ensures { result ≡ points_by reg status bits due }
{
    let Due {
        good,
        outcome,
        row,
        up,
    } = due;
    if good {
        let line = up.v_counter;
        let status = ended(status | bits, line);
        Points {
            outcome: Ok(()),
            interrupt: interrupt_of(reg, status, up),
            report: report_of(reg, line),
            row,
            status,
            raster: up.line_interrupt_update(reg),
        }
    } else {
        Points {
            outcome,
            interrupt: VdpInt::NoInterrupt,
            report: DisplayRefresh::NoDisplay,
            row: None,
            status,
            raster: up,
        }
    }
}
