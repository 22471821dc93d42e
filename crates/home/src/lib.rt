// The home machine (R20.8): a record of its own kind, the front of a device with a palette of 32 bytes. Its ports are the front's, but for the palette; its
// step is the five points for the home screen. Video memory is lent by the caller. (What else is asked of its record: crate `look`.)
#![tactic(auto)]

ghost use Rattle.std.specs.Prelude.{◌≡◌, ◌<◌};
ghost use Rattle.home.specs.Home.{palette_size, made, fresh};
ghost use Rattle.home.specs.Ports.{palette_write, WriteLeaves, port_read};
ghost use Rattle.home.specs.Step.{reading_of, joined, RowStepLeaves, FrameStepLeaves};

use front::{Front, ReadBack, Written};
use picture::Screen;
use points::{Points, Stepped};
use raster::{LineTable, Raster};
use row::machine;
use row::machine::Machine;

// The bytes of the palette.
pub const PALETTE_SIZE: u16 = 32;

// The device: what the ports work on, the raster, the palette and the cached colours.
#[derive(Clone, Copy)]
pub struct HomeState {
    pub front: Front,
    pub raster: Raster,
    pub cram: [u8; 32],
    pub cram_dirty: bool,
    pub color_cache: [u32; 32],
}

impl HomeState {
    // A fresh device, with no table named.
    pub fn new() -> Self
        ensures { result ≡ fresh }
    {
        HomeState::with_table(LineTable::Steps262)
    }

    // The same with this table.
    pub fn with_table(table: LineTable) -> Self
        ensures { result ≡ made table }
    {
        HomeState {
            front: Front::new(),
            raster: Raster::with_table(table),
            cram: [0; 32],
            cram_dirty: true,
            color_cache: [0; 32],
        }
    }

    // A byte for the palette (R20.3): it is stored at once.
    fn write_palette(mut self, val: u8) -> Written<HomeState>
        requires { self.front.addr < palette_size }
        ensures { result ≡ palette_write self val }
    {
        let addr = self.front.addr;
        let here = usize::from(addr);
        self.front.addr = (addr + 1) % PALETTE_SIZE;
        let was = self.cram[here];
        self.cram_dirty = self.cram_dirty | (was != val);
        self.cram[here] = val;
        Written {
            outcome: Ok(()),
            device: self,
        }
    }

    // A port write: the palette is the device's own, and all else is its front's.
    pub fn out(self, vram: &mut [u8], addr: u16, val: u8) -> Written<HomeState>
        ensures { WriteLeaves self vram.old addr val result vram.new }
    {
        let sent = self.front.write(vram, PALETTE_SIZE, addr, val);
        let device = HomeState {
            front: sent.front,
            ..self
        };
        if sent.palette {
            return device.write_palette(val);
        }
        Written {
            outcome: sent.outcome,
            device,
        }
    }

    // A port read, all of it the front's but for the line counter.
    pub fn input(self, vram: &[u8], addr: u16) -> ReadBack<HomeState>
        ensures { result ≡ port_read self vram.now addr }
    {
        let read = self.front.read(vram, addr, self.raster.v_counter);
        ReadBack {
            byte: read.byte,
            device: HomeState {
                front: read.device,
                ..self
            },
        }
    }
}

// The home machine as a type that implements `Machine`, as `step::Handheld` is. It is private, since no call on the record tells layers (R20.8).
struct HomeMachine;

impl Machine for HomeMachine {
    type Device = HomeState;

    ghost reading_of = { reading_of };

    ghost after = { λ home points. (joined home points).device };

    fn registers(home: &HomeState) -> [u8; 11] {
        home.front.reg
    }

    fn raster(home: &HomeState) -> Raster {
        home.raster
    }

    fn status(home: &HomeState) -> u8 {
        home.front.status
    }

    // Rebuilt from the palette if they are dirty, else the cache.
    fn colours(home: &HomeState) -> [u32; 32] {
        if home.cram_dirty {
            colour::home_palette_recompute(home.cram)
        } else {
            home.color_cache
        }
    }

    // If a row was drawn, the cache has its colours and is clean.
    fn after(mut home: HomeState, points: Points, colours: [u32; 32]) -> HomeState {
        if points.row.is_some() {
            home.cram_dirty = false;
            home.color_cache = colours;
        }
        home.front.status = points.status;
        home.raster = points.raster;
        home
    }
}

// A step, whose row goes to the first bytes of the row buffer.
pub fn row_step(home: HomeState, vram: &[u8], row: &mut [u8]) -> Stepped<HomeState>
    ensures { RowStepLeaves vram.now home row.old result row.new }
{
    machine::row_step::<HomeMachine>(home, vram, row, Screen::Home)
}

// A step on a whole frame.
pub fn frame_step(home: HomeState, vram: &[u8], frame: &mut [u8]) -> Stepped<HomeState>
    ensures { FrameStepLeaves vram.now home frame.old result frame.new }
{
    machine::frame_step::<HomeMachine>(home, vram, frame, Screen::Home)
}
