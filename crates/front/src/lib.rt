// The front of a device: the part that the port calls work on, whatever its palette is (R3.3 to R3.6, R3.8 to R3.10). Video memory is lent by the caller.
#![tactic(auto)]

ghost use Rattle.std.specs.Prelude.{◌≡◌, ◌<◌, length, Some};
ghost use Rattle.laws.specs.Sizes.{vram_size};
ghost use Rattle.front.specs.Front.{fresh_front, with_command, choosing, sent, read, command_write, data_write, data_read, status_read};
ghost use Rattle.front.specs.Ports.{FrontLeaves, front_read};

use refusal::Refusal;
use small::{VRAM_ADDRESSES, VRAM_SIZE};

// The ports, known by their low byte (R3.3), and the bytes of video memory.
pub const VDP_CMD: u16 = 0xBF;

pub const VDP_DATA: u16 = 0xBE;

pub const VCOUNTER_READ: u16 = 0x7E;

pub const HCOUNTER_READ: u16 = 0x7F;

// The memory that the data port reads and writes.
#[derive(Clone, Copy)]
pub enum WriteDest {
    Vram,
    Cram,
}

// The part of a device that the ports work on, whatever its palette is: `dest` is the memory that is chosen, and `cmd_byte1` the first of two command bytes,
// which waits for the second.
#[derive(Clone, Copy)]
pub struct Front {
    pub status: u8,
    pub reg: [u8; 11],
    pub addr: u16,
    pub vram_buffer: u8,
    pub dest: Option<WriteDest>,
    pub cmd_byte1: Option<u8>,
}

// How a port write comes out, and the device that it leaves.
#[derive(Clone, Copy)]
pub struct Written<D> {
    pub outcome: Result<(), Refusal>,
    pub device: D,
}

// The byte that a port read gives, or why it gives none, and the device that it leaves.
#[derive(Clone, Copy)]
pub struct ReadBack<D> {
    pub byte: Result<u8, Refusal>,
    pub device: D,
}

// What a port write leaves of a front; `palette` where the byte is for the machine's own palette, which has still to take it.
#[derive(Clone, Copy)]
pub struct FrontWritten {
    pub outcome: Result<(), Refusal>,
    pub palette: bool,
    pub front: Front,
}

// A write that is done with, or refused.
fn sent(outcome: Result<(), Refusal>, front: Front) -> FrontWritten
    ensures { result ≡ sent outcome front }
{
    FrontWritten {
        outcome,
        palette: false,
        front,
    }
}

// A read, which gives a byte or is refused.
fn read(byte: Result<u8, Refusal>, device: Front) -> ReadBack<Front>
    ensures { result ≡ read byte device }
{
    ReadBack { byte, device }
}

impl Front {
    // That of a fresh device (R3.2).
    pub fn new() -> Self
        ensures { result ≡ fresh_front }
    {
        Front {
            status: 0,
            reg: [0, 0, 0xFF, 0xFF, 0xFF, 0xFF, 0xFF, 0, 0, 0, 1],
            addr: 0,
            vram_buffer: 0,
            dest: None,
            cmd_byte1: None,
        }
    }

    // The same front with another command latch.
    fn with_command(self, latch: Option<u8>) -> Self
        ensures { result ≡ with_command self latch }
    {
        Front {
            cmd_byte1: latch,
            ..self
        }
    }

    // The same front with a memory chosen, at this address.
    fn choosing(self, dest: WriteDest, addr: u16) -> Self
        ensures { result ≡ choosing self (Some dest) addr }
    {
        Front {
            dest: Some(dest),
            addr,
            ..self
        }
    }

    // A command byte: the first of two waits in the latch (R3.4), the second acts with it (R3.5).
    fn write_cmd(self, vram: &[u8], palette: u16, val: u8) -> FrontWritten
        requires vram_len { length vram.now ≡ vram_size }
        requires palette_nonzero { 0 < palette }
        ensures { result ≡ command_write palette self vram.now val }
    {
        let Some(data) = self.cmd_byte1 else {
            return sent(Ok(()), self.with_command(Some(val)));
        };
        let mut front = self.with_command(None);
        let addr = u16::from_le_bytes([data, val]) % VRAM_ADDRESSES;
        match val / 64 {
            0 => {
                let mut video = front.choosing(WriteDest::Vram, addr);
                video.vram_buffer = vram[usize::from(addr)];
                video.addr = (addr + 1) % VRAM_ADDRESSES;
                sent(Ok(()), video)
            }
            1 => sent(Ok(()), front.choosing(WriteDest::Vram, addr)),
            2 => {
                let reg = usize::from(val % 128);
                if 10 < reg {
                    return sent(Err(Refusal::HighRegister), front);
                }
                front.reg[reg] = data;
                sent(Ok(()), front)
            }
            _ => sent(
                Ok(()),
                front.choosing(WriteDest::Cram, u16::from(data) % palette),
            ),
        }
    }

    // A data byte, for the memory that is chosen (R3.6).
    fn write_ram(self, vram: &mut [u8], palette: u16, val: u8) -> FrontWritten
        requires { length vram.old ≡ vram_size }
        ensures value { result ≡ (data_write palette self vram.old val).answer }
        ensures vram_after { vram.new ≡ (data_write palette self vram.old val).vram }
    {
        let mut front = self.with_command(None);
        let addr = self.addr;
        match self.dest {
            None => sent(Err(Refusal::NothingChosen), front),
            Some(WriteDest::Vram) => {
                if VRAM_ADDRESSES <= addr {
                    return sent(Err(Refusal::OutsideMemory), front);
                }
                vram[usize::from(addr)] = val;
                front.vram_buffer = val;
                front.addr = (addr + 1) % VRAM_ADDRESSES;
                sent(Ok(()), front)
            }
            Some(WriteDest::Cram) => {
                if palette <= addr {
                    return sent(Err(Refusal::OutsideMemory), front);
                }
                FrontWritten {
                    outcome: Ok(()),
                    palette: true,
                    front,
                }
            }
        }
    }

    // The read buffer, and the next byte into it (R3.8).
    fn read_ram(self, vram: &[u8]) -> ReadBack<Front>
        requires { length vram.now ≡ vram_size }
        ensures { result ≡ data_read self vram.now }
    {
        let mut front = self.with_command(None);
        let addr = self.addr;
        match self.dest {
            None => read(Err(Refusal::NothingChosen), front),
            Some(WriteDest::Cram) => read(Err(Refusal::PaletteRead), front),
            Some(WriteDest::Vram) => {
                if VRAM_ADDRESSES <= addr {
                    return read(Err(Refusal::OutsideMemory), front);
                }
                front.vram_buffer = vram[usize::from(addr)];
                front.addr = (addr + 1) % VRAM_ADDRESSES;
                read(Ok(self.vram_buffer), front)
            }
        }
    }

    // The status, which the read clears (R3.9).
    fn read_status(self) -> ReadBack<Front>
        ensures { result ≡ status_read self }
    {
        let mut front = self.with_command(None);
        front.status = 0;
        read(Ok(self.status), front)
    }

    // A port write on a machine with this many bytes of palette, tested in the order of R2.4.
    #[tactic(auto, unfolding(crate::specs::Ports::front_write))]
    pub fn write(self, vram: &mut [u8], palette: u16, addr: u16, val: u8) -> FrontWritten
        requires { 0 < palette }
        ensures { FrontLeaves palette self vram.old addr val result vram.new }
    {
        if vram.len() != VRAM_SIZE {
            return sent(Err(Refusal::VramLength), self);
        }
        match addr % 256 {
            VDP_CMD => self.write_cmd(vram, palette, val),
            VDP_DATA => self.write_ram(vram, palette, val),
            _ => sent(Err(Refusal::UnknownPort), self),
        }
    }

    // A port read on a machine whose line counter stands at `counter`, tested in the order of R2.4.
    #[tactic(auto, unfolding(crate::specs::Ports::front_read))]
    pub fn read(self, vram: &[u8], addr: u16, counter: u8) -> ReadBack<Front>
        ensures { result ≡ front_read self vram.now addr counter }
    {
        if vram.len() != VRAM_SIZE {
            return read(Err(Refusal::VramLength), self);
        }
        match addr % 256 {
            VCOUNTER_READ => read(Ok(counter), self),
            HCOUNTER_READ => read(Err(Refusal::HorizontalCounter), self),
            VDP_CMD => self.read_status(),
            VDP_DATA => self.read_ram(vram),
            _ => read(Err(Refusal::UnknownPort), self),
        }
    }
}
