// How a recording ends: the last line of its text, and its picture as a file.
ghost use Rattle.std.specs.Prelude.{◌≡◌, ◌+◌, ◌*◌, ◌≤◌, length};
ghost use Rattle.laws.specs.Lists.{written};
ghost use Rattle.trace_text.specs.End.{pixel_count, picture_room, last_line, header, ppm, drawn};

use crate::put_numbered;
use picture::Screen;
use trace_record::put_all;

// The last line of a trace that stopped at an offset of its input: the count of records, or where the recording is bad.
pub fn put_last(out: &mut [u8], at: usize, input: &[u8], stopped: usize, count: usize) -> usize
    requires { at + 10 ≤ length out.old }
    ensures value { result ≡ at + length (last_line input.now stopped count) }
    ensures out_after { out.new ≡ written out.old at (last_line input.now stopped count) }
{
    if input.len() <= stopped {
        return put_numbered(out, at, b"end ", count);
    }
    put_numbered(out, at, b"bad ", stopped)
}

// The pixels of a screen, of which its frame has four bytes each and its picture three.
#[tactic(auto, unfolding(crate::specs::End::pixel_count))]
pub fn pixel_count(screen: Screen) -> usize
    ensures { (result ≡ pixel_count screen) × (result ≤ 57344) }
{
    match screen {
        Screen::VisibleOnly | Screen::TrueEdges => 23040,
        Screen::EffectiveArea => 57344,
        Screen::Home => 49152,
    }
}

// The header of a binary PPM.
#[tactic(auto, unfolding(crate::specs::End::header, crate::specs::Text::decimal))]
fn header_of(screen: Screen) -> [u8; 15]
    ensures { result ≡ header screen }
{
    match screen {
        Screen::VisibleOnly | Screen::TrueEdges => *b"P6\n160 144\n255\n",
        Screen::EffectiveArea => *b"P6\n256 224\n255\n",
        Screen::Home => *b"P6\n256 192\n255\n",
    }
}

// The picture of a frame: red, green and blue of each pixel, behind the header.
fn put_ppm(out: &mut [u8], screen: Screen, frame: &[u8]) -> usize
    requires { (picture_room screen ≤ length out.old) × (4 * pixel_count screen ≤ length frame.now) }
    ensures value { result ≡ length (ppm screen frame.now) }
    ensures out_after { out.new ≡ written out.old 0 (ppm screen frame.now) }
{
    let count = pixel_count(screen);
    let header = header_of(screen);
    let mut at = put_all(out, 0, &header);
    for i in 0..count {
        let k = 4 * i;
        let end = k + 3;
        at = put_all(out, at, &frame[k..end]);
    }
    at
}

// What is written of a run that stopped at an offset of its input: its picture, or where the recording is bad.
pub fn put_picture(
    out: &mut [u8],
    screen: Screen,
    input: &[u8],
    stopped: usize,
    frame: &[u8],
) -> usize
    requires { (picture_room screen ≤ length out.old) × (4 * pixel_count screen ≤ length frame.now) }
    ensures value { result ≡ length (drawn screen input.now stopped frame.now) }
    ensures out_after { out.new ≡ written out.old 0 (drawn screen input.now stopped frame.now) }
{
    if input.len() <= stopped {
        return put_ppm(out, screen, frame);
    }
    put_numbered(out, 0, b"bad ", stopped)
}
