// What becomes of a sprite's columns (R5.11, R15.1): marked, drawn, held back by priority; and which layer owns a column then.
#![tactic(auto)]

ghost use Rattle.std.specs.Prelude.{◌≡◌, ◌-◌, ◌<◌};
ghost use Rattle.std.specs.Int.Bits.{bit_and};
ghost use Rattle.picture.specs.Layers.{owner};

// What became of a sprite's eight columns, a bit for each: marked, drawn, and held back by priority.
#[derive(Clone, Copy)]
pub struct Columns {
    pub marks: u8,
    pub drawn: u8,
    pub held: u8,
}

// What becomes of the columns `all` whose code is not 0: `held` are held back, `taken` are marked already, and `room` are in the row.
pub fn fates(all: u8, held: u8, taken: u8, room: u8) -> Columns
    ensures { (result.marks ≡ bit_and all (255 - held)) × (result.drawn ≡ bit_and (bit_and (bit_and all (255 - held)) (255 - taken)) room) × (result.held ≡ bit_and all held) }
{
    let marks = all & !held;
    let drawn = marks & !taken & room;
    Columns {
        marks,
        drawn,
        held: all & held,
    }
}

// The layer of a column that was `own`, where sprite n's pixel is drawn, or is held back, or neither.
pub fn owner_of(n: usize, drawn: bool, held: bool, own: u8) -> u8
    requires { n < 64 }
    ensures { result ≡ owner n drawn held own }
{
    if drawn {
        return (64 + n) as u8;
    }
    if held && own == 0 {
        return 1;
    }
    own
}
