// Colours: one from two palette bytes, and the 32 of the whole palette; and those of the home machine, one from each palette byte.
#![tactic(auto)]

ghost use Rattle.std.specs.Prelude.{◌≡◌, ◌*◌, ◌/◌, ◌%◌};
ghost use Rattle.colour.specs.Colour.{colour, colours_of};
ghost use Rattle.colour.specs.Home.{shade, home_colour, home_colours_of};

// The low four bits of a palette byte, spread over a byte.
fn spread_low(x: u8) -> u8
    ensures { result ≡ 17 * (x % 16) }
{
    (x & 0xF) | ((x << 4) & 0xF0)
}

// Its high four bits, spread over a byte.
fn spread_high(x: u8) -> u8
    ensures { result ≡ 17 * (x / 16) }
{
    ((x >> 4) & 0xF) | (x & 0xF0)
}

// R4.6: the colour of the palette bytes `rg` and `b`, red in its lowest byte.
pub fn rgb(rg: u8, b: u8) -> u32
    ensures { result ≡ colour rg b }
{
    u32::from(spread_low(rg))
        + 256 * u32::from(spread_high(rg))
        + 65536 * u32::from(spread_low(b))
        + 16777216 * 255
}

// R4.7: the 32 colours of a palette, which the cache holds once it is made anew.
pub fn palette_recompute(cram: [u8; 64]) -> [u32; 32]
    ensures { result ≡ colours_of cram }
{
    std::array::from_fn(|color| rgb(cram[2 * color], cram[2 * color + 1]))
}

// The low two bits of a palette byte, spread over a byte.
fn spread_two(x: u8) -> u8
    ensures { result ≡ shade x }
{
    85 * (x % 4)
}

// R20.2: the colour of a byte of the home machine's palette, red in its lowest byte.
pub fn home_rgb(byte: u8) -> u32
    ensures { result ≡ home_colour byte }
{
    u32::from(spread_two(byte))
        + 256 * u32::from(spread_two(byte / 4))
        + 65536 * u32::from(spread_two(byte / 16))
        + 16777216 * 255
}

// The 32 colours of that palette.
pub fn home_palette_recompute(cram: [u8; 32]) -> [u32; 32]
    ensures { result ≡ home_colours_of cram }
{
    std::array::from_fn(|color| home_rgb(cram[color]))
}
