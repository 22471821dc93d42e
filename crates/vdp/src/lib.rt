// The handheld: its record (R3.1), and its port calls, the front's but for the palette. Video memory is lent by the caller.
#![tactic(auto)]

ghost use Rattle.std.specs.Prelude.{◌≡◌, ◌+◌, ◌-◌, ◌%◌, ◌<◌};
ghost use Rattle.laws.specs.Sizes.{cram_size};
ghost use Rattle.vdp.specs.Device.{made, fresh, front_of, with_front, with_palette_byte};
ghost use Rattle.vdp.specs.Ports.{palette_write, WriteLeaves, port_read};

use front::{Front, ReadBack, WriteDest, Written};
use raster::{LineTable, Raster};
use refusal::Refusal;

// The bytes of the palette.
pub const CRAM_SIZE: u16 = 0x40;

// The device: registers, palette, cached colours and the small fields.
#[derive(Clone, Copy)]
pub struct VdpState {
    pub status: u8,
    pub reg: [u8; 11],
    pub raster: Raster,
    pub addr: u16,
    pub vram_buffer: u8,
    pub dest: Option<WriteDest>,
    pub cram: [u8; 64],
    pub cmd_byte1: Option<u8>,
    pub cram_byte1: Option<u8>,
    pub cram_dirty: bool,
    pub color_cache: [u32; 32],
}

impl VdpState {
    // A fresh device, with no table named (R3.2).
    pub fn new() -> Self
        ensures { result ≡ fresh }
    {
        VdpState::with_table(LineTable::Steps262)
    }

    // The same with this table.
    pub fn with_table(table: LineTable) -> Self
        ensures { result ≡ made table }
    {
        let Front {
            status,
            reg,
            addr,
            vram_buffer,
            dest,
            cmd_byte1,
        } = Front::new();
        VdpState {
            status,
            reg,
            raster: Raster::with_table(table),
            addr,
            vram_buffer,
            dest,
            cram: [0; 64],
            cmd_byte1,
            cram_byte1: None,
            cram_dirty: true,
            color_cache: [0; 32],
        }
    }

    // The part of it that the ports work on.
    fn front(self) -> Front
        ensures { result ≡ front_of self }
    {
        let VdpState {
            status,
            reg,
            addr,
            vram_buffer,
            dest,
            cmd_byte1,
            ..
        } = self;
        Front {
            status,
            reg,
            addr,
            vram_buffer,
            dest,
            cmd_byte1,
        }
    }

    // The same device with another front.
    fn with_front(self, front: Front) -> Self
        ensures { result ≡ with_front self front }
    {
        let Front {
            status,
            reg,
            addr,
            vram_buffer,
            dest,
            cmd_byte1,
        } = front;
        VdpState {
            status,
            reg,
            addr,
            vram_buffer,
            dest,
            cmd_byte1,
            ..self
        }
    }

    // The same device with another palette latch.
    fn with_palette_byte(self, latch: Option<u8>) -> Self
        ensures { result ≡ with_palette_byte self latch }
    {
        VdpState {
            cram_byte1: latch,
            ..self
        }
    }

    // A byte for the palette (R3.7): the first of two is latched, the second stores both, and the first stays latched.
    fn write_palette(self, val: u8) -> Written<VdpState>
        requires { self.addr < cram_size }
        ensures { result ≡ palette_write self val }
    {
        let addr = self.addr;
        if addr % 2 == 0 {
            let mut first = self.with_palette_byte(Some(val));
            first.addr = (addr + 1) % CRAM_SIZE;
            return Written {
                outcome: Ok(()),
                device: first,
            };
        }
        let Some(low) = self.cram_byte1 else {
            return Written {
                outcome: Err(Refusal::NoPaletteByte),
                device: self,
            };
        };
        let high = val % 16;
        let here = usize::from(addr);
        let below = here - 1;
        let mut vdp = self.with_palette_byte(Some(low));
        vdp.cram_dirty |= (vdp.cram[below] != low) | (vdp.cram[here] != high);
        vdp.cram[below] = low;
        vdp.cram[here] = high;
        vdp.addr = (addr + 1) % CRAM_SIZE;
        Written {
            outcome: Ok(()),
            device: vdp,
        }
    }

    // A port write: the palette is the device's own, and all else is its front's.
    pub fn out(self, vram: &mut [u8], addr: u16, val: u8) -> Written<VdpState>
        ensures { WriteLeaves self vram.old addr val result vram.new }
    {
        let sent = self.front().write(vram, CRAM_SIZE, addr, val);
        let device = self.with_front(sent.front);
        if sent.palette {
            return device.write_palette(val);
        }
        Written {
            outcome: sent.outcome,
            device,
        }
    }

    // A port read, all of it the front's but for the line counter (R3.10).
    pub fn input(self, vram: &[u8], addr: u16) -> ReadBack<VdpState>
        ensures { result ≡ port_read self vram.now addr }
    {
        let read = self.front().read(vram, addr, self.raster.v_counter);
        ReadBack {
            byte: read.byte,
            device: self.with_front(read.device),
        }
    }
}
