// The records of a recording (R7.9): what stands at an offset, and a record put behind those that are there. (A reader of them: crate `trace_reader`.)
#![tactic(auto)]

ghost use Rattle.std.specs.Prelude.{◌≡◌, ℕ, ◌+◌, ◌≤◌, length, take, leb, Ok};
ghost use Rattle.laws.specs.Lists.{written};
ghost use Rattle.trace_record.specs.Record.{record_at, marked};
ghost use Rattle.trace_record.specs.Machine.{has_area, record_on};
ghost use Rattle.trace_record.specs.Writer.{area_number, record_bytes, size, RecordLeaves};

use picture::RenderArea;
use refusal::Refusal;

// The record at an offset of a recording. `Bad` and `End` are cases, not Err or None: `size_of` and `put_record` accept all five.
#[derive(Clone, Copy)]
pub enum Record {
    Write(u8, u8),
    Read(u8),
    Step(RenderArea),
    Bad,
    End,
}

// The record with this mark at this offset, where so many bytes are left.
#[tactic(auto, unfolding(crate::specs::Record::marked))]
fn record_marked(s: &[u8], at: usize, left: usize, mark: u16) -> Record
    requires { (at + left ≡ length s.now) × (3 ≤ left) }
    ensures { result ≡ marked s.now at left mark }
{
    let x = s[at + 2];
    match mark {
        0x5057 => {
            if left < 4 {
                return Record::Bad;
            }
            Record::Write(x, s[at + 3])
        }
        0x5052 => Record::Read(x),
        0x4C53 => match RenderArea::try_from(x) {
            Ok(area) => Record::Step(area),
            Err(_) => Record::Bad,
        },
        _ => Record::Bad,
    }
}

// The record at this offset. Its mark is two bytes, the first one the higher.
#[tactic(auto, unfolding(crate::specs::Record::record_at))]
pub fn record_at(s: &[u8], at: usize) -> Record
    ensures { result ≡ record_at s.now at }
{
    if s.len() <= at {
        return Record::End;
    }
    let left = s.len() - at;
    if left < 3 {
        return Record::Bad;
    }
    let mark = u16::from_be_bytes([s[at], s[at + 1]]);
    record_marked(s, at, left, mark)
}

// ---- a record as a machine takes it

// The machines that a recording can be for: the handheld, and the home machine that the dock shows.
#[derive(Clone, Copy, PartialEq, Eq)]
pub enum Machine {
    Handheld,
    Home,
}

// Whether a machine has steps of this area.
fn has_area(machine: Machine, area: RenderArea) -> bool
    ensures { result ≡ has_area machine area }
{
    machine == Machine::Handheld || area == RenderArea::VisibleOnly
}

// R20.9: the record at this offset; a step of an area that the machine has not is bad.
pub fn record_on(machine: Machine, s: &[u8], at: usize) -> Record
    ensures { result ≡ record_on machine s.now at }
{
    match record_at(s, at) {
        Record::Step(area) if !has_area(machine, area) => Record::Bad,
        record => record,
    }
}

// ---- a record behind the others

// The number of an area.
pub fn area_number(area: RenderArea) -> u8
    ensures { result ≡ area_number area }
{
    u8::from(area)
}

// How many bytes a record has; a bad one and the end have none.
pub fn size_of(call: Record) -> u8
    ensures value { result ≡ size call }
    ensures upper_bound { result ≤ 4 }
{
    match call {
        Record::Write(_, _) => 4,
        Record::Read(_) | Record::Step(_) => 3,
        Record::Bad | Record::End => 0,
    }
}

// Its bytes, with zeros behind them up to four.
fn bytes_of(call: Record) -> [u8; 4]
    ensures { take (size call) result ≡ record_bytes call }
{
    match call {
        Record::Write(port, value) => [b'P', b'W', port, value],
        Record::Read(port) => [b'P', b'R', port, 0],
        Record::Step(area) => [b'L', b'S', u8::from(area), 0],
        Record::Bad | Record::End => [0; 4],
    }
}

// The bytes of src into out at `at`, and the place behind them.
pub fn put_all(out: &mut [u8], at: usize, src: &[u8]) -> usize
    requires { at + length src.now ≤ length out.old }
    ensures value { result ≡ at + length src.now }
    ensures out_after { out.new ≡ written out.old at src.now }
{
    let end = at + src.len();
    out[at..end].copy_from_slice(src);
    end
}

// Whether so many bytes have room from offset `used` on in a recording of this length.
fn has_room(length: usize, used: usize, count: usize) -> bool
    ensures { result ≡ leb (used + count) length }
{
    used <= length && count <= length - used
}

// Writes a record at offset `used` and returns its size in bytes; without room for it, nothing is written.
pub fn put_record(recording: &mut [u8], used: usize, call: Record) -> Result<u8, Refusal>
    ensures record_leaves { RecordLeaves recording.old used call result recording.new }
    ensures count_bound { (count : ℕ) → result ≡ Ok count → count ≤ 4 }
{
    let count = size_of(call);
    let size = usize::from(count);
    if !has_room(recording.len(), used, size) {
        return Err(Refusal::RecordRoom);
    }
    let bytes = bytes_of(call);
    put_all(recording, used, &bytes[..size]);
    Ok(count)
}
