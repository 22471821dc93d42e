// The raster: the line counter with its jump, the latched scroll, and the count of lines to the next line interrupt.
#![tactic(auto)]

ghost use Rattle.std.specs.Prelude.{◌≡◌};
ghost use Rattle.laws.specs.Lists.{at};
ghost use Rattle.raster.specs.declared.LineTable.TheVariants.{Steps262};
ghost use Rattle.raster.specs.Raster.{fresh_raster, jump_line, line_table_number, line_table_from, advanced, line_count, line_interrupt, counted};

// The table that the counter goes by: how many steps a pass has.
#[derive(Clone, Copy)]
pub enum LineTable {
    Steps261,
    Steps262,
}

#[derive(Clone, Copy)]
pub struct Raster {
    pub v_counter: u8,
    pub v_counter_jumped: bool,
    pub line_interrupt_counter: u8,
    pub vertical_scroll: u8,
    pub table: LineTable,
}

// The number of a table.
impl From<LineTable> for u8 {
    ghost use Rattle.std.specs.Prelude.{◌≡◌};
    ghost use Rattle.raster.specs.Raster.{line_table_number};

    ghost from_gives = { λ table n. n ≡ line_table_number table };

    fn from(table: LineTable) -> u8 {
        table as u8
    }
}

// The table of a number. (No From and no TryFrom: `line_table_from` takes every number above 0 for table 1.)
pub fn table_from(n: u8) -> LineTable
    ensures { result ≡ line_table_from n }
{
    if n == 0 {
        LineTable::Steps261
    } else {
        LineTable::Steps262
    }
}

// The number of the table that a device goes by where none is named: the chart's.
pub fn unnamed_table() -> u8
    ensures { result ≡ line_table_number Steps262 }
{
    u8::from(LineTable::Steps262)
}

// The value at which the counter jumps instead of being read.
fn jump_line(table: LineTable) -> u8
    ensures { result ≡ jump_line table }
{
    match table {
        LineTable::Steps261 => 0xDA,
        LineTable::Steps262 => 0xDB,
    }
}

// The line count that line 0 starts with: register 10 less 1, and 0 stays 0.
fn line_interrupt_load_start(r10: u8) -> u8
    ensures { result ≡ line_count r10 }
{
    r10.saturating_sub(1)
}

impl Raster {
    // That of a fresh device that goes by this table (R3.2).
    pub fn with_table(table: LineTable) -> Raster
        ensures { result ≡ fresh_raster table }
    {
        Raster {
            v_counter: 0,
            v_counter_jumped: false,
            line_interrupt_counter: 0,
            vertical_scroll: 0,
            table,
        }
    }

    // R4.1: the counter goes up, and line 0 and the jump line do what they do.
    #[tactic(auto, unfolding(crate::specs::Raster::advanced, crate::specs::Raster::jumps, crate::specs::Raster::starts))]
    pub fn advance(self, reg: [u8; 11]) -> Raster
        ensures { result ≡ advanced (at reg) self }
    {
        let v_counter = self.v_counter.wrapping_add(1);
        if v_counter == 0 {
            Raster {
                v_counter,
                v_counter_jumped: false,
                line_interrupt_counter: line_interrupt_load_start(reg[10]),
                vertical_scroll: reg[9],
                ..self
            }
        } else if v_counter == jump_line(self.table) && !self.v_counter_jumped {
            Raster {
                v_counter: 0xD5,
                v_counter_jumped: true,
                ..self
            }
        } else {
            Raster { v_counter, ..self }
        }
    }

    // R4.4, its line part: line interrupts are on and the count is 0.
    #[tactic(auto, unfolding(crate::specs::Raster::line_interrupt))]
    pub fn line_interrupt_is_up(self, reg: [u8; 11]) -> bool
        ensures { result ≡ line_interrupt (at reg) self }
    {
        small::is_set(reg[0], 4) && self.line_interrupt_counter == 0
    }

    // R4.5: the count starts again below the picture and at 0, and else goes down by one.
    #[tactic(auto, unfolding(crate::specs::Raster::counted))]
    pub fn line_interrupt_update(self, reg: [u8; 11]) -> Raster
        ensures { result ≡ counted (at reg) self }
    {
        let line_interrupt_counter = if 192 < self.v_counter || self.line_interrupt_counter == 0 {
            reg[10]
        } else {
            self.line_interrupt_counter - 1
        };
        Raster {
            line_interrupt_counter,
            ..self
        }
    }
}
