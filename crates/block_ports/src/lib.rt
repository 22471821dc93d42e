// The handheld's ports on its state block, in place: the front's, which are those of either machine, and its own palette: 64 bytes from 27 on, the byte
// that waits at 23 and 24, the dirty flag at 26.
#![tactic(auto)]

ghost use Rattle.std.specs.Prelude.{◌≡◌, true, ℕ, ◌≤◌, ◌<◌, length};
ghost use Rattle.laws.specs.Sizes.{cram_size};
ghost use Rattle.vdp.specs.declared.VdpState.{VdpState};
ghost use Rattle.fields.specs.Stored.{address_in};
ghost use Rattle.block.specs.Block.{old_size, block_of, well_formed, Sized};
ghost use Rattle.block_ports.specs.InPlace.{PaletteInPlace, OutInPlace, InputInPlace};

use block::{DIRTY, PALETTE, PALETTE_LATCHED};
use refusal::Refusal;
use vdp::CRAM_SIZE;

// A byte for the palette (R3.7): the first of two is latched, the second stores both, and the first stays latched.
fn write_palette(block: &mut [u8], val: u8) -> Result<(), Refusal>
    requires { (old_size ≤ length block.old) × (address_in block.old < cram_size) }
    ensures { (n : ℕ) (s : VdpState) → Sized s → block.old ≡ block_of n s → PaletteInPlace n s val result block.new }
{
    let addr = fields::address_in(block);
    if addr % 2 == 0 {
        fields::store_latch(block, PALETTE_LATCHED, Some(val));
    } else {
        let low = fields::latch_in(block, PALETTE_LATCHED).ok_or(Refusal::NoPaletteByte)?;
        let here = usize::from(addr);
        fields::store_colour(block, PALETTE, DIRTY, here - 1, low);
        fields::store_colour(block, PALETTE, DIRTY, here, val % 16);
    }
    fields::store_address(block, (addr + 1) % CRAM_SIZE);
    Ok(())
}

// A port write on the device of a well-formed block. (As in `home_block`: a function for both would take the palette's size and the write to it, and each call
// of that would be as long as this.)
pub fn out(block: &mut [u8], vram: &mut [u8], port: u16, val: u8) -> Result<(), Refusal>
    requires { well_formed block.old ≡ true }
    ensures { OutInPlace block.old vram.old port val result block.new vram.new }
{
    let sent = inplace::write(block, vram, CRAM_SIZE, port, val);
    if sent.palette {
        write_palette(block, val)
    } else {
        sent.outcome
    }
}

// A port read, all of it the front's.
pub fn input(block: &mut [u8], vram: &[u8], port: u16) -> Result<u8, Refusal>
    requires { well_formed block.old ≡ true }
    ensures { InputInPlace block.old vram.now port result block.new }
{
    inplace::read(block, vram, port)
}
