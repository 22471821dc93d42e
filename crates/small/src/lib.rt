// Numbers, sizes and tests that every layer uses.
#![tactic(auto)]

ghost use Rattle.std.specs.Prelude.{◌≡◌, ◌+◌, ◌*◌, ◌<◌, ◌≤◌, length};
ghost use Rattle.laws.specs.Bits.{bit, digit};
ghost use Rattle.laws.specs.Paint.{four_at};

// The bytes of video memory: as a length, and as the number of its addresses.
pub const VRAM_SIZE: usize = 0x4000;

pub const VRAM_ADDRESSES: u16 = 0x4000;

// The four bytes from byte k on as one number, the lowest first: a colour, the four bytes of a tile's line, an answer word.
pub fn four_at(bytes: &[u8], k: usize) -> u32
    requires { k + 4 ≤ length bytes.now }
    ensures { result ≡ four_at bytes.now k }
{
    u32::from_le_bytes([bytes[k], bytes[k + 1], bytes[k + 2], bytes[k + 3]])
}

// `weight` where `on`, else 0.
pub fn weight(on: bool, weight: usize) -> usize
    ensures value { result ≡ weight * digit on }
    ensures upper_bound { result ≤ weight }
{
    if on { weight } else { 0 }
}

// Bit i of a byte.
pub fn is_set(bits: u8, i: usize) -> bool
    requires { i < 8 }
    ensures { result ≡ bit bits i }
{
    (bits >> i) % 2 == 1
}
