// The refusals (R2.1): why a call is refused, and the number of each.
#![tactic(auto)]

ghost use Rattle.std.specs.Prelude.{◌≡◌, ◌<◌};
ghost use Rattle.refusal.specs.Refusals.{refusal_number};

// Why a call is refused (R2.1); the numbers go up from 1.
#[derive(Clone, Copy, PartialEq, Eq)]
pub enum Refusal {
    UnknownPort = 1,
    HorizontalCounter,
    HighRegister,
    NothingChosen,
    PaletteRead,
    NoPaletteByte,
    OutsideMemory,
    VramLength,
    PixelLength,
    BlockMalformed,
    UnknownArea,
    FrameTooLong,
    UnknownTile,
    CodesLength,
    HighCode,
    LayerLength,
    ListLength,
    RecordRoom,
}

// The number of a refusal (R2.1).
impl From<Refusal> for u8 {
    ghost use Rattle.std.specs.Prelude.{◌≡◌, Err};
    ghost use Rattle.refusal.specs.Refusals.{refusal_number};

    ghost from_gives = { λ refusal n. n ≡ refusal_number (Err refusal) };

    fn from(refusal: Refusal) -> u8 {
        refusal as u8
    }
}

// The number of how a call comes out (R2.1): of its refusal, and 0 where it is accepted. (No From: neither a Result nor u8 is a type of this crate.)
pub fn refusal_number(outcome: Result<(), Refusal>) -> u8
    ensures value { result ≡ refusal_number outcome }
    ensures upper_bound { result < 256 }
{
    match outcome {
        Ok(()) => 0,
        Err(refusal) => u8::from(refusal),
    }
}
