// The ports in place: the front of a device where it stands in a state block, bytes 2 to 13 and 17 to 22, which are the same in either machine's block (crate
// `fields`).
// A call reads and stores the bytes that it needs. Of the palette it knows the size; the byte for it is stored by the machine whose block it is.
#![tactic(auto)]

ghost use Rattle.std.specs.Prelude.{◌≡◌, ◌%◌, ◌<◌, length};
ghost use Rattle.laws.specs.Lists.{at};
ghost use Rattle.laws.specs.Sizes.{vram_size};
ghost use Rattle.front.specs.Front.{with_buffer, command_write, data_write, data_read, status_read};
ghost use Rattle.front.specs.Ports.{front_write, front_read};
ghost use Rattle.fields.specs.Stored.{front_in, front_stored, FrontFormed};
ghost use Rattle.inplace.specs.InPlace.{PaletteSize, answered, SentInPlace, GotInPlace};

use fields::{CHOSEN, COMMAND_BYTE, COMMAND_LATCHED, COUNTER, READ_BUFFER, REGISTERS, STATUS};
use front::{HCOUNTER_READ, VCOUNTER_READ, VDP_CMD, VDP_DATA};
use refusal::Refusal;
use small::VRAM_ADDRESSES;

// What a port write answers; `palette` where the byte is for the machine's own palette, which has still to take it.
#[derive(Clone, Copy)]
pub struct Sent {
    pub outcome: Result<(), Refusal>,
    pub palette: bool,
}

// A write's answer where the palette is not asked.
fn answered(outcome: Result<(), Refusal>) -> Sent
    ensures { result ≡ answered outcome }
{
    Sent {
        outcome,
        palette: false,
    }
}

// The memory that the data port reads and writes, by its number in a block (R11.11).
const NOTHING: u8 = 0;

const VIDEO: u8 = 1;

const PALETTE: u8 = 2;

// A byte in the read buffer, and the address one on from this one.
fn store_buffer(block: &mut [u8], byte: u8, address: u16)
    requires { (FrontFormed block.old) × (address < vram_size) }
    ensures { block.new ≡ front_stored (with_buffer (front_in block.old) byte address) block.old }
{
    fields::store_address(block, (address + 1) % VRAM_ADDRESSES);
    block[READ_BUFFER] = byte;
}

// The address that a command's first byte names in a palette of this many bytes. Not by `% palette`: where a processor has no division, a caller of the
// library would have to lend one.
fn palette_address(byte: u8, palette: u16) -> u16
    requires { PaletteSize palette }
    ensures { result ≡ byte % palette }
{
    if palette == 32 {
        return (byte % 32) as u16;
    }
    (byte % 64) as u16
}

// ---- the ports; what they need of the front is read and stored byte by byte, where it stands

// A command byte: the first of two waits in the latch (R3.4), the second empties it and acts (R3.5).
fn write_cmd(block: &mut [u8], vram: &[u8], palette: u16, val: u8) -> Result<(), Refusal>
    requires front_formed { FrontFormed block.old }
    requires vram_len { (length vram.now ≡ vram_size) × PaletteSize palette }
    ensures { SentInPlace block.old (command_write palette (front_in block.old) vram.now val) (answered result) block.new }
{
    if block[COMMAND_LATCHED] == 0 {
        block[COMMAND_LATCHED] = 1;
        block[COMMAND_BYTE] = val;
        return Ok(());
    }
    let first = block[COMMAND_BYTE];
    block[COMMAND_LATCHED] = 0;
    block[COMMAND_BYTE] = 0;
    let addr = u16::from_le_bytes([first, val]) % VRAM_ADDRESSES;
    match val / 64 {
        0 => {
            let at = addr as usize;
            store_buffer(block, vram[at], addr);
            block[CHOSEN] = VIDEO;
        }
        1 => {
            fields::store_address(block, addr);
            block[CHOSEN] = VIDEO;
        }
        2 => {
            let reg = (val % 128) as usize;
            if 10 < reg {
                return Err(Refusal::HighRegister);
            }
            block[REGISTERS + reg] = first;
        }
        _ => {
            fields::store_address(block, palette_address(first, palette));
            block[CHOSEN] = PALETTE;
        }
    }
    Ok(())
}

// A data byte, for the memory that is chosen (R3.6).
fn write_ram(block: &mut [u8], vram: &mut [u8], palette: u16, val: u8) -> Sent
    requires front_formed { FrontFormed block.old }
    requires vram_len { length vram.old ≡ vram_size }
    ensures sent_in_place { SentInPlace block.old (data_write palette (front_in block.old) vram.old val).answer result block.new }
    ensures vram_after { vram.new ≡ (data_write palette (front_in block.old) vram.old val).vram }
{
    let chosen = block[CHOSEN];
    let addr = fields::address_in(block);
    block[COMMAND_LATCHED] = 0;
    block[COMMAND_BYTE] = 0;
    match chosen {
        NOTHING => answered(Err(Refusal::NothingChosen)),
        VIDEO => {
            if VRAM_ADDRESSES <= addr {
                return answered(Err(Refusal::OutsideMemory));
            }
            let at = addr as usize;
            vram[at] = val;
            store_buffer(block, val, addr);
            answered(Ok(()))
        }
        _ => {
            if palette <= addr {
                return answered(Err(Refusal::OutsideMemory));
            }
            Sent {
                outcome: Ok(()),
                palette: true,
            }
        }
    }
}

// The read buffer, and the next byte into it (R3.8).
fn read_ram(block: &mut [u8], vram: &[u8]) -> Result<u8, Refusal>
    requires front_formed { FrontFormed block.old }
    requires vram_len { length vram.now ≡ vram_size }
    ensures { GotInPlace block.old (data_read (front_in block.old) vram.now) result block.new }
{
    let chosen = block[CHOSEN];
    block[COMMAND_LATCHED] = 0;
    block[COMMAND_BYTE] = 0;
    match chosen {
        NOTHING => return Err(Refusal::NothingChosen),
        VIDEO => {}
        _ => return Err(Refusal::PaletteRead),
    }
    let addr = fields::address_in(block);
    if VRAM_ADDRESSES <= addr {
        return Err(Refusal::OutsideMemory);
    }
    let at = addr as usize;
    let byte = block[READ_BUFFER];
    store_buffer(block, vram[at], addr);
    Ok(byte)
}

// The status, which the read clears (R3.9).
fn read_status(block: &mut [u8]) -> Result<u8, Refusal>
    requires { FrontFormed block.old }
    ensures { GotInPlace block.old (status_read (front_in block.old)) result block.new }
{
    let byte = block[STATUS];
    block[COMMAND_LATCHED] = 0;
    block[COMMAND_BYTE] = 0;
    block[STATUS] = 0;
    Ok(byte)
}

// A port write on a machine with this many bytes of palette, tested in the order of R2.4. (Inlined into
// `block_ports::out` and `home_block::out`: its answer is then not passed through memory.)
#[inline(always)]
pub fn write(block: &mut [u8], vram: &mut [u8], palette: u16, port: u16, val: u8) -> Sent
    requires front_formed { FrontFormed block.old }
    requires palette_size { PaletteSize palette }
    ensures sent_in_place { SentInPlace block.old (front_write palette (front_in block.old) vram.old port val).answer result block.new }
    ensures vram_after { vram.new ≡ (front_write palette (front_in block.old) vram.old port val).vram }
{
    if vram.len() != small::VRAM_SIZE {
        return answered(Err(Refusal::VramLength));
    }
    match port % 256 {
        VDP_CMD => answered(write_cmd(block, vram, palette, val)),
        VDP_DATA => write_ram(block, vram, palette, val),
        _ => answered(Err(Refusal::UnknownPort)),
    }
}

// A port read, tested in the order of R2.4; the line counter is byte 14 (R3.10).
pub fn read(block: &mut [u8], vram: &[u8], port: u16) -> Result<u8, Refusal>
    requires { FrontFormed block.old }
    ensures { GotInPlace block.old (front_read (front_in block.old) vram.now port (at block.old 14)) result block.new }
{
    if vram.len() != small::VRAM_SIZE {
        return Err(Refusal::VramLength);
    }
    match port % 256 {
        VCOUNTER_READ => Ok(block[COUNTER]),
        HCOUNTER_READ => Err(Refusal::HorizontalCounter),
        VDP_CMD => read_status(block),
        VDP_DATA => read_ram(block, vram),
        _ => Err(Refusal::UnknownPort),
    }
}
