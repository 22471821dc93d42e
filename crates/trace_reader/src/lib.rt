// A reader of a recording (R19.3), which goes from one record to the next: what an author's own program goes by. The programs here go by offsets.
#![tactic(auto)]

ghost use Rattle.std.specs.Prelude.{◌≡◌, length, leb};
ghost use Rattle.trace_record.specs.Record.{record_at};
ghost use Rattle.trace_record.specs.Reader.{past};

use trace_record::Record;

// The offset behind the record at this offset; of a bad record and of the end, the offset itself.
pub fn past_record(s: &[u8], at: usize) -> usize
    ensures { result ≡ past s.now at }
{
    let call = trace_record::record_at(s, at);
    at + usize::from(trace_record::size_of(call))
}

// Whether this offset is at the end, or past it.
pub fn at_end(s: &[u8], at: usize) -> bool
    ensures { result ≡ leb (length s.now) at }
{
    s.len() <= at
}

// R19.3: a recording and a place in it.
#[derive(Clone, Copy)]
pub struct Reader<'a> {
    pub recording: &'a [u8],
    pub at: usize,
}

impl<'a> Reader<'a> {
    // At the first byte.
    pub fn new(recording: &'a [u8]) -> Reader<'a>
        ensures { (result.recording ≡ recording.entry) × (result.at ≡ 0) }
    {
        Reader { recording, at: 0 }
    }

    // The record that it hands out next, which is the one that it stands at.
    pub fn next_record(self) -> Record
        ensures { result ≡ record_at self.entry.recording.now self.entry.at }
    {
        trace_record::record_at(self.recording, self.at)
    }

    // The reader behind that record, where it is a call; else the same reader.
    pub fn past(self) -> Reader<'a>
        ensures { (result.recording ≡ self.entry.recording) × (result.at ≡ past self.entry.recording.now self.entry.at) }
    {
        Reader {
            recording: self.recording,
            at: past_record(self.recording, self.at),
        }
    }

    // Whether it has come to the end.
    pub fn ended(self) -> bool
        ensures { result ≡ leb (length self.entry.recording.now) self.entry.at }
    {
        at_end(self.recording, self.at)
    }

    // The offset that it stands at.
    pub fn place(self) -> usize
        ensures { result ≡ self.entry.at }
    {
        self.at
    }
}
