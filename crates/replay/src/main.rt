// Replays the published Rust's answers on standard input, record by record: each call is made on a device of ours, and what it gives is held to what the
// Rust gave. oracle/VECTORS.md has the form of the list.
#![tactic(auto)]

ghost use Rattle.std.specs.Prelude.{◌≡◌, ◌+◌, ◌*◌, ◌≤◌, ◌<◌, length, take};
ghost use Rattle.replay.specs.Replay.{sum_of, row_sum, agreed, world, turn, turned, replayed};

use std::io::Read;

// What byte i adds to a checksum.
fn part(i: usize, byte: u8) -> u32
    requires { i < 1024 }
    ensures { (result ≡ (i + 1) * byte) × (result ≤ 261120) }
{
    (i + 1) as u32 * u32::from(byte)
}

// The checksum of the first n bytes.
fn sum_of(bytes: &[u8], n: usize) -> u32
    requires { (n ≤ 1024) × (n ≤ length bytes.now) }
    ensures { result ≡ sum_of n bytes.now }
{
    let mut sum = 0;
    for i in 0..n {
        sum += part(i, bytes[i]);
    }
    sum
}

// The checksum of the row that a step drew, 0 where it drew none.
fn row_sum(word: u32, area: u8, row: &[u8]) -> u32
    requires { length row.now ≡ 1024 }
    ensures { result ≡ row_sum word area row.now }
{
    if word / 16777216 % 2 != 1 {
        return 0;
    }
    if area == 1 {
        return sum_of(row, 1024);
    }
    sum_of(row, 640)
}

// Whether the record at `at` has this answer, this block and this row.
#[tactic(auto, unfolding(crate::specs::Replay::agreed))]
fn agrees(list: &[u8], at: usize, word: u32, state: &[u8], sum: u32) -> bool
    requires { (at + 16 ≤ length list.now) × (length state.now ≡ 219) }
    ensures { result ≡ agreed list.now at word state.now sum }
{
    let answer = small::four_at(list, at + 4);
    let block = small::four_at(list, at + 8);
    let drawn = small::four_at(list, at + 12);
    word == answer && sum_of(state, 219) == block && sum == drawn
}

// The call of the record at `at`, and whether it gave what the Rust gave.
fn call(list: &[u8], at: usize, state: &mut [u8], vram: &mut [u8], row: &mut [u8]) -> bool
    requires { (at + 16 ≤ length list.now) × (length state.old ≡ 219) × (length row.old ≡ 1024) }
    ensures { turn result (world state.new vram.new row.new) ≡ turned list.now at (world state.old vram.old row.old) }
{
    let mark = list[at];
    let which = list[at + 1];
    let value = list[at + 2];
    match mark {
        0x57 => {
            let word = face::vdp_out(state, vram, u16::from(which), value);
            agrees(list, at, word, state, 0)
        }
        0x52 => {
            let word = face::vdp_input(state, vram, u16::from(which));
            agrees(list, at, word, state, 0)
        }
        0x53 => {
            let word = face::vdp_row_step(state, vram, row, which);
            let sum = row_sum(word, which, row);
            agrees(list, at, word, state, sum)
        }
        _ => false,
    }
}

// All records in order, from a fresh device of table 0 in a block of the first version on: how many there are, or, as the error, the number of the first that
// differs. A record that is cut differs.
fn replay(list: &[u8], state: &mut [u8], vram: &mut [u8], row: &mut [u8]) -> Result<usize, usize>
    requires { (length state.old ≡ 219) × (length row.old ≡ 1024) }
    ensures { result ≡ replayed list.now vram.old row.old }
{
    face::vdp_new_table(state, 0);
    let n = list.len() / 16;
    for i in 0..n {
        if !call(list, 16 * i, state, vram, row) {
            return Err(i);
        }
    }
    if list.len() % 16 == 0 { Ok(n) } else { Err(n) }
}

// Room for two million bytes of list. The contract gives only the length: so long an array then costs its caller's check nothing.
fn room() -> [u8; 2_097_152]
    ensures { 2097152 ≡ length result }
{
    [0; 2_097_152]
}

// Reads until buf is full, the input ends or a read fails, and answers how many bytes it has put at the start of buf.
fn read_full(reader: &mut impl Read, buf: &mut [u8]) -> usize
    ensures { (result ≤ length buf.new) × (result ≡ length (take result buf.new)) }
{
    let mut done = 0;
    while done < buf.len() {
        match reader.read(&mut buf[done..]) {
            Ok(0) | Err(_) => break,
            Ok(more) => done += more,
        }
    }
    done
}

fn main(rt: HostRuntime) {
    let mut state = [0u8; 219];
    let mut vram = [0u8; 16384];
    let mut row = [0u8; 1024];
    let mut list = room();
    let n = read_full(&mut rt.stdin(), &mut list);
    let _ = match replay(&list[..n], &mut state, &mut vram, &mut row) {
        Ok(count) => println!(rt; "{count} answers, 0 differ"),
        Err(record) => println!(rt; "record {record} differs"),
    };
}
