// The answer word of the C face (R7.7): which bits say what.
#![tactic(auto)]

ghost use Rattle.std.specs.Prelude.{◌≡◌, ◌+◌, ◌≤◌, ◌<◌, cond, Err};
ghost use Rattle.refusal.specs.Refusals.{refusal_number, first, outcome_of, byte_given};
ghost use Rattle.word.specs.Word.{row_bits, points_word, pixel_bits, byte_word};
ghost use Rattle.word.specs.Called.{asked_lines};

use picture::RenderArea;
use points::Points;
use refusal::Refusal;

// The parts of an answer, as parts of a word: refusal, interrupt, report, and the row with the drawn bit.
pub fn number(r: Result<(), Refusal>) -> u32
    ensures { (result ≡ refusal_number r) × (result < 256) }
{
    u32::from(refusal::refusal_number(r))
}

// A line of a table of refusals: its number where it holds, and else what the rest of the table comes to.
fn line(holds: bool, refusal: Refusal, rest: u32) -> u32
    ensures { result ≡ cond holds (refusal_number (Err refusal)) rest }
{
    if holds { number(Err(refusal)) } else { rest }
}

// The number by which a call that asks for an area is refused before its own tests; 0 where it is not.
pub fn asked(well_formed: bool, area: u8) -> u32
    ensures { result ≡ refusal_number (first (asked_lines well_formed area)) }
{
    let later = line(RenderArea::try_from(area).is_err(), Refusal::UnknownArea, 0);
    line(!well_formed, Refusal::BlockMalformed, later)
}

// The word of a port read: the byte that it gives, in bits 8 to 15, or the number of its refusal.
pub fn byte_word(read: Result<u8, Refusal>) -> u32
    ensures { result ≡ byte_word (outcome_of read) (byte_given read) }
{
    match read {
        Ok(byte) => 256 * u32::from(byte),
        Err(refusal) => number(Err(refusal)),
    }
}

fn row_bits(r: Option<u8>) -> u32
    ensures { (result ≡ row_bits r) × (result < 33554432) }
{
    match r {
        None => 0,
        Some(y) => 65536 * u32::from(y) + 16777216,
    }
}

// The word of a step, by its points.
#[tactic(auto, unfolding(crate::specs::Word::answer_word))]
pub fn word_of(points: Points) -> u32
    ensures { result ≡ points_word points }
{
    number(points.outcome)
        + 256 * u32::from(u8::from(points.interrupt))
        + 512 * u32::from(u8::from(points.report))
        + row_bits(points.row)
}

// A pixel's part of its word: that it is there, and its colour.
fn pixel_bits(there: bool, colour: u32) -> u64
    ensures value { result ≡ pixel_bits there colour }
    ensures upper_bound { result ≤ 18446744069431361536 }
{
    let bytes = 4294967296 * u64::from(colour);
    if there { 16777216 + bytes } else { bytes }
}

// The word of one pixel (R16.6).
pub fn pixel_word(outcome: Result<(), Refusal>, there: bool, colour: u32) -> u64
    ensures { result ≡ refusal_number outcome + pixel_bits there colour }
{
    u64::from(number(outcome)) + pixel_bits(there, colour)
}
