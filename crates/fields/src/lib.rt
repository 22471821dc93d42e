// The small fields of a device where they stand in a state block: read, and stored; the places are the same in either machine's block. A slip in a store is
// refused here, where little has to be proved again.
#![tactic(auto)]

ghost use Rattle.std.specs.Prelude.{◌≡◌, ◌+◌, ◌≤◌, ◌<◌, length, set};
ghost use Rattle.laws.specs.Lists.{at};
ghost use Rattle.fields.specs.Fields.{flag_of, latch_from};
ghost use Rattle.fields.specs.Stored.{front_end, address_in, latch_stored, address_stored, colour_stored};

// The places that are the same in either machine's block, by the names that include/vdp.h has for them; of two bytes the second has one of its own.
pub const MARK: usize = 0;

pub const MARK_SECOND: usize = 1;

pub const STATUS: usize = 2;

pub const REGISTERS: usize = 3;

pub const COUNTER: usize = 14;

pub const JUMPED: usize = 15;

pub const LINE_COUNT: usize = 16;

pub const ADDRESS: usize = 17;

pub const ADDRESS_HIGH: usize = 18;

pub const READ_BUFFER: usize = 19;

pub const CHOSEN: usize = 20;

pub const COMMAND_LATCHED: usize = 21;

pub const COMMAND_BYTE: usize = 22;

// The first byte of either machine's mark.
pub const MARK_FIRST: u8 = 0x56;

// ---- the small fields as bytes, and back

pub fn flag_of(b: bool) -> u8
    ensures { result ≡ flag_of b }
{
    u8::from(b)
}

// ---- what stands in a block, read

// The latch whose flag stands at this place, and its byte behind it.
pub fn latch_in(block: &[u8], place: usize) -> Option<u8>
    requires { place + 2 ≤ length block.now }
    ensures { result ≡ latch_from (at block.now place) (at block.now (place + 1)) }
{
    if block[place] == 0 {
        None
    } else {
        Some(block[place + 1])
    }
}

// The address.
pub fn address_in(block: &[u8]) -> u16
    requires { front_end ≤ length block.now }
    ensures { result ≡ address_in block.now }
{
    u16::from_le_bytes([block[ADDRESS], block[ADDRESS_HIGH]])
}

// ---- and stored

// Two bytes, one behind the other.
fn store_two(block: &mut [u8], place: usize, first: u8, second: u8)
    requires { place + 2 ≤ length block.old }
    ensures { block.new ≡ set (set block.old place first) (place + 1) second }
{
    block[place] = first;
    block[place + 1] = second;
}

// A latch, its flag at this place.
pub fn store_latch(block: &mut [u8], place: usize, latch: Option<u8>)
    requires { place + 2 ≤ length block.old }
    ensures { block.new ≡ latch_stored place latch block.old }
{
    match latch {
        None => store_two(block, place, 0, 0),
        Some(byte) => store_two(block, place, 1, byte),
    }
}

// An address, low byte first.
pub fn store_address(block: &mut [u8], address: u16)
    requires { front_end ≤ length block.old }
    ensures { block.new ≡ address_stored address block.old }
{
    let [low, high] = address.to_le_bytes();
    store_two(block, ADDRESS, low, high);
}

// Byte n of a palette that begins at `palette`; the flag at `dirty` is up afterwards where it was, or where the byte is another than before.
pub fn store_colour(block: &mut [u8], palette: usize, dirty: usize, n: usize, val: u8)
    requires { (palette + n < length block.old) × (dirty < length block.old) }
    ensures { block.new ≡ colour_stored palette dirty n val block.old }
{
    let here = palette + n;
    let behind = block[dirty] == 1 || block[here] != val;
    block[dirty] = flag_of(behind);
    block[here] = val;
}
