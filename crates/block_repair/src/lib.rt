// Salvage (R17.1 to R17.5): a damaged state block, mended in the caller's buffer, and the offsets that changed.
#![tactic(auto)]

ghost use Rattle.std.specs.Prelude.{◌≡◌, Bool, ℕ, ◌+◌, ◌*◌, ◌≤◌, ◌<◌, length, take, Ok};
ghost use Rattle.laws.specs.Lists.{at};
ghost use Rattle.vdp.specs.Refusals.{size};
ghost use Rattle.fields.specs.Fields.{chosen_from};
ghost use Rattle.block.specs.Block.{old_size, block_size, mark_of};
ghost use Rattle.block_repair.specs.Repair.{within, held, choice, address, matching, dirty, mended_at, RepairLeaves};

use block::{BLOCK_SIZE, DIRTY, OLD_SIZE, PALETTE_BYTE, PALETTE_LATCHED, TABLE};
use fields::{
    ADDRESS, ADDRESS_HIGH, CHOSEN, COMMAND_BYTE, COMMAND_LATCHED, JUMPED, MARK, MARK_FIRST,
    MARK_SECOND,
};
use refusal::Refusal;
use small::VRAM_ADDRESSES;
use vdp::CRAM_SIZE;

// A byte that is at most `high`, else 0.
fn in_range(high: u8, x: u8) -> u8
    ensures { result ≡ within high x }
{
    if x <= high { x } else { 0 }
}

// The byte under a latch's flag: 0 where the latch is empty.
fn latched(flag: u8, byte: u8) -> u8
    ensures { result ≡ held flag byte }
{
    if flag == 0 { 0 } else { byte }
}

// The size of the memory of this number.
fn memory_size(chosen: u8) -> u16
    requires { chosen ≤ 2 }
    ensures value { result ≡ size (chosen_from chosen) }
    ensures result_nonzero { 0 < result }
{
    if chosen == 2 {
        CRAM_SIZE
    } else {
        VRAM_ADDRESSES
    }
}

// The address, reduced to its memory.
fn address_of(old: &[u8]) -> u16
    requires { old_size ≤ length old.now }
    ensures { result ≡ address old.now }
{
    u16::from_le_bytes([old[ADDRESS], old[ADDRESS_HIGH]]) % memory_size(in_range(2, old[CHOSEN]))
}

// Whether the cached colours are the palette's.
fn same_colours(old: &[u8]) -> bool
    requires { old_size ≤ length old.now }
    ensures { result ≡ matching old.now }
{
    block::cache_in(old) == colour::palette_recompute(block::palette_in(old))
}

// The dirty flag.
#[tactic(auto, unfolding(crate::specs::Repair::dirty))]
fn dirty_of(old: &[u8]) -> u8
    requires { old_size ≤ length old.now }
    ensures { result ≡ dirty old.now }
{
    let flag = in_range(1, old[DIRTY]);
    if flag != 0 {
        return flag;
    }
    if same_colours(old) { flag } else { 1 }
}

// The mended byte at offset k.
#[tactic(auto, unfolding(crate::specs::Repair::mended_at))]
fn mended_byte(old: &[u8], k: usize) -> u8
    requires { (old_size ≤ length old.now) × (length old.now ≤ block_size) × (k < length old.now) }
    ensures { result ≡ mended_at old.now k }
{
    match k {
        MARK => MARK_FIRST,
        MARK_SECOND => block::mark_of(old.len()),
        JUMPED => in_range(1, old[JUMPED]),
        ADDRESS => (address_of(old) % 256) as u8,
        ADDRESS_HIGH => (address_of(old) / 256) as u8,
        CHOSEN => in_range(2, old[CHOSEN]),
        COMMAND_LATCHED => in_range(1, old[COMMAND_LATCHED]),
        COMMAND_BYTE => latched(in_range(1, old[COMMAND_LATCHED]), old[COMMAND_BYTE]),
        PALETTE_LATCHED => in_range(1, old[PALETTE_LATCHED]),
        PALETTE_BYTE => latched(in_range(1, old[PALETTE_LATCHED]), old[PALETTE_BYTE]),
        DIRTY => dirty_of(old),
        TABLE => in_range(1, old[TABLE]),
        _ => old[k],
    }
}

// A block's bytes in an array of their own.
fn copied(block: &[u8]) -> [u8; 220]
    requires { length block.now ≤ block_size }
    ensures { take (length block.now) result ≡ block.now }
{
    let mut old = [0u8; 220];
    old[..block.len()].copy_from_slice(block);
    old
}

// Repairs the block and writes the changed offsets to the start of the list; returns how many there are.
pub fn repair(block: &mut [u8], list: &mut [u8]) -> Result<usize, Refusal>
    ensures repair_leaves { RepairLeaves block.old list.old result block.new list.new }
    ensures count_le_block_size { (count : ℕ) → result ≡ Ok count → count ≤ block_size }
{
    if block.len() < OLD_SIZE || BLOCK_SIZE < block.len() {
        return Err(Refusal::BlockMalformed);
    }
    if list.len() < BLOCK_SIZE {
        return Err(Refusal::ListLength);
    }
    let n = block.len();
    let whole = copied(block);
    let mut count = 0;
    for k in 0..n {
        let byte = mended_byte(&whole[..n], k);
        if byte != whole[k] {
            list[count] = k as u8;
            count += 1;
        }
        block[k] = byte;
    }
    Ok(count)
}
