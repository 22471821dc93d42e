// Numbers and lines as text (R7.10, R7.11).
// Each function writes at an offset of a buffer and returns the offset after it. (Not `Cursor` or `Write`: std's contracts do not say what the slice holds then.)
#![tactic(auto)]

ghost use Rattle.std.specs.Prelude.{◌≡◌, [], ◌∷◌, ◌+◌, ◌/◌, ◌≤◌, ◌<◌, length, Some};
ghost use Rattle.laws.specs.Lists.{written};
ghost use Rattle.trace_text.specs.Text.{digit_of, decimal, hex_digit, numbered, told, line_of};

pub mod end;

use points::{DisplayRefresh, VdpInt};
use trace_record::put_all;

// What a call answers, and its line says: first the number of its refusal. (A number, not a `Refusal`: `put_answer` accepts any number.)
#[derive(Clone, Copy)]
pub enum Answer {
    Wrote(u8),
    Gave(u8, u8),
    Stepped(u8, u8, VdpInt, DisplayRefresh),
}

// A digit, in capitals.
fn hex_digit(d: u8) -> u8
    requires { d < 16 }
    ensures { result ≡ hex_digit d }
{
    if d < 10 { 48 + d } else { 55 + d }
}

// The last digit of a number.
fn digit(n: usize) -> u8
    ensures { result ≡ digit_of n }
{
    48 + (n % 10) as u8
}

// The last five digits of a number.
fn five_digits(n: usize) -> [u8; 5]
    ensures { result ≡ digit_of (n / 10000) ∷ digit_of (n / 1000) ∷ digit_of (n / 100) ∷ digit_of (n / 10) ∷ digit_of n ∷ [] }
{
    [
        digit(n / 10000),
        digit(n / 1000),
        digit(n / 100),
        digit(n / 10),
        digit(n),
    ]
}

// How many of the five are not printed: the zeros in front.
#[tactic(auto, unfolding(crate::specs::Text::decimal))]
fn unprinted(n: usize) -> usize
    ensures { length (decimal n) + result ≡ 5 }
{
    match n {
        0..=9 => 4,
        10..=99 => 3,
        100..=999 => 2,
        1000..=9999 => 1,
        _ => 0,
    }
}

// A number of at most five digits.
fn put_decimal(out: &mut [u8], at: usize, n: usize) -> usize
    requires { at + 5 ≤ length out.old }
    ensures value { (result ≡ at + length (decimal n)) × (length (decimal n) ≤ 5) }
    ensures out_after { out.new ≡ written out.old at (decimal n) }
{
    let digits = five_digits(n);
    let from = unprinted(n);
    put_all(out, at, &digits[from..])
}

// A word with a space after it, a number, and the end of the line.
pub fn put_numbered(out: &mut [u8], at: usize, word: &[u8], n: usize) -> usize
    requires { at + length word.now + 6 ≤ length out.old }
    ensures value { result ≡ at + length (numbered word.now n) }
    ensures out_after { out.new ≡ written out.old at (numbered word.now n) }
{
    let a = put_all(out, at, word);
    let b = put_decimal(out, a, n);
    put_all(out, b, b"\n")
}

// The line of an answer: a letter, the number of the refusal, and the rest.
fn put_line(out: &mut [u8], at: usize, letter: u8, refusal: u8, rest: &[u8]) -> usize
    requires { at + 7 + length rest.now ≤ length out.old }
    ensures value { result ≡ at + length (told letter refusal rest.now) }
    ensures out_after { out.new ≡ written out.old at (told letter refusal rest.now) }
{
    let a = put_all(out, at, &[letter, b' ']);
    let b = put_decimal(out, a, usize::from(refusal));
    put_all(out, b, rest)
}

// That of a read.
fn put_read(out: &mut [u8], at: usize, refusal: u8, byte: u8) -> usize
    requires { at + 15 ≤ length out.old }
    ensures value { result ≡ at + length (line_of (Some (Answer.Gave refusal byte))) }
    ensures out_after { out.new ≡ written out.old at (line_of (Some (Answer.Gave refusal byte))) }
{
    let high = hex_digit(byte / 16);
    let low = hex_digit(byte % 16);
    put_line(out, at, b'r', refusal, &[b' ', high, low, b'\n'])
}

// That of a step; the numbers of an interrupt and of a display report have one digit.
fn put_step(
    out: &mut [u8],
    at: usize,
    refusal: u8,
    counter: u8,
    interrupt: VdpInt,
    report: DisplayRefresh,
) -> usize
    requires { at + 15 ≤ length out.old }
    ensures value { result ≡ at + length (line_of (Some (Answer.Stepped refusal counter interrupt report))) }
    ensures out_after { out.new ≡ written out.old at (line_of (Some (Answer.Stepped refusal counter interrupt report))) }
{
    let high = hex_digit(counter / 16);
    let low = hex_digit(counter % 16);
    let i = b'0' + u8::from(interrupt);
    let d = b'0' + u8::from(report);
    put_line(
        out,
        at,
        b's',
        refusal,
        &[b' ', high, low, b' ', i, b' ', d, b'\n'],
    )
}

// The line of an answer; nothing without one.
pub fn put_answer(out: &mut [u8], at: usize, answer: Option<Answer>) -> usize
    requires { at + 15 ≤ length out.old }
    ensures value { result ≡ at + length (line_of answer) }
    ensures out_after { out.new ≡ written out.old at (line_of answer) }
{
    let Some(answer) = answer else {
        return at;
    };
    match answer {
        Answer::Wrote(refusal) => put_line(out, at, b'w', refusal, b"\n"),
        Answer::Gave(refusal, byte) => put_read(out, at, refusal, byte),
        Answer::Stepped(refusal, counter, interrupt, report) => put_step(
            out, at, refusal, counter, interrupt, report,
        ),
    }
}
