// What a program does around its work: it takes its input from a file or from standard input, writes its output, and tells on standard error what failed.
// No contract can say which bytes are read or written. Each function is safe and ends, and the count that `input` answers lies within the buffer.
#![tactic(auto)]

ghost use Rattle.std.specs.Prelude.{◌≡◌, ◌≤◌, length, IfOk, IfSome};
ghost use Rattle.std.specs.Result.{result_ok};
ghost use Rattle.program.specs.Counts.{IsPrefixLen};

use std::env::FillError;
use std::fs::File;
use std::io::{Cursor, Error, Read, Write};
use std::rt::Env;
use std::{io, str};

// The system's numbers for a name that is too long, and for one that is not text, on every machine that there is code for.
const TOO_LONG: i32 = 36;

const NO_TEXT: i32 = 84;

// Writes these bytes to standard error, and answers whether it could.
fn say(rt: &HostRuntime, bytes: &[u8]) -> bool {
    rt.stderr().write_all(bytes).is_ok()
}

// How many of these bytes, an error of the system as std tells it, are the system's words: its number follows, in brackets.
fn words(text: &[u8]) -> usize
    ensures { result ≤ length text.now }
{
    match text.iter().rposition(|b| *b == b'(') {
        Some(at) => at.saturating_sub(1),
        None => text.len(),
    }
}

// Tells what failed, and why. The program's name comes first.
fn tell(rt: &HostRuntime, name: &[u8], what: &[u8], error: &Error) {
    let mut text = Cursor::new([0u8; 256]);
    let _ = write!(text, "{error}");
    let end = text.position().min(256) as usize;
    let why = &text.get_ref()[..end];
    say(rt, name);
    say(rt, b": ");
    say(rt, what);
    say(rt, b": ");
    say(rt, &why[..words(why)]);
    say(rt, b"\n");
}

// The value, or None after the error is reported.
fn told<T>(rt: &HostRuntime, name: &[u8], what: &[u8], came: io::Result<T>) -> Option<T>
    ensures { result ≡ result_ok came }
{
    match came {
        Ok(got) => Some(got),
        Err(error) => {
            tell(rt, name, what, &error);
            None
        }
    }
}

// Reads until buf is full or the input ends, and answers how many bytes it has put at the start of buf.
fn read_from(reader: &mut impl Read, buf: &mut [u8]) -> io::Result<usize>
    ensures { IfOk result (λ n. IsPrefixLen n buf.new) }
{
    let mut done = 0;
    while done < buf.len() {
        match reader.read(&mut buf[done..])? {
            0 => break,
            more => done += more,
        }
    }
    Ok(done)
}

// Writes all of the output to standard output, and answers whether it could.
pub fn output(rt: &HostRuntime, name: &[u8], bytes: &[u8]) -> bool {
    told(rt, name, b"standard output", rt.write_all(bytes)).is_some()
}

// Opens the file of this name. Only a name that is text can be opened.
fn open(rt: &HostRuntime, path: &[u8]) -> io::Result<File> {
    match str::from_utf8(path) {
        Ok(path) => File::open(rt, path),
        Err(_) => Err(Error::from_raw_os_error(NO_TEXT)),
    }
}

// From the file of this name.
fn file(rt: &HostRuntime, path: &[u8], buf: &mut [u8]) -> io::Result<usize>
    ensures { IfOk result (λ n. IsPrefixLen n buf.new) }
{
    read_from(&mut open(rt, path)?, buf)
}

// Whether the command line has a word i.
fn has_word(rt: &HostRuntime, i: usize) -> bool {
    !matches!(rt.arg(i, &mut []), Err(FillError::NotPresent))
}

// Where the input comes from: standard input, or the file that the argument names.
#[derive(Clone, Copy)]
enum Source {
    Standard,
    Named,
}

// By the arguments, of which `word` is the first, as `got` tells. A word too many, or one that cannot be had, is told here, and `--help` answered: there is then no input.
fn choose(
    rt: &HostRuntime,
    name: &[u8],
    help: &[u8],
    got: Result<usize, FillError>,
    word: &[u8],
) -> Option<Source> {
    if has_word(rt, 2) {
        say(rt, name);
        say(rt, b": one file at most; --help tells more\n");
        return None;
    }
    match got {
        Err(FillError::NotPresent) => Some(Source::Standard),
        Err(FillError::TooLong) => told(
            rt,
            name,
            b"its argument",
            Err(Error::from_raw_os_error(TOO_LONG)),
        ),
        Ok(_) => match word {
            b"--help" => {
                output(rt, name, help);
                None
            }
            b"-" => Some(Source::Standard),
            _ => Some(Source::Named),
        },
    }
}

// Fills buf from the file that the first argument names; with no argument, or one that is `-`, from standard input. It answers how many bytes it has put at the
// start of buf, where there is an input to work on. `--help` is answered here, with the help text.
pub fn input(rt: &HostRuntime, name: &[u8], help: &[u8], buf: &mut [u8]) -> Option<usize>
    ensures { IfSome result (λ n. IsPrefixLen n buf.new) }
{
    let mut word = [0u8; 4096];
    let got = rt.arg(1, &mut word);
    let path = &word[..got.unwrap_or(0)];
    match choose(rt, name, help, got, path)? {
        Source::Standard => told(rt, name, b"standard input", read_from(&mut rt.stdin(), buf)),
        Source::Named => told(rt, name, path, file(rt, path, buf)),
    }
}
