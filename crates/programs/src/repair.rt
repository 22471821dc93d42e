// The program that mends a damaged state block, or says `bad`; each byte that changes is told on standard error.
ghost use Rattle.std.specs.Prelude.{◌≡◌, length};

// What stands at an offset that a repair may change.
fn field_name(at: usize) -> &'static str {
    match at {
        0 | 1 => "mark",
        15 => "jump flag",
        17 => "address (low byte)",
        18 => "address (high byte)",
        20 => "chosen memory",
        21 => "command latch (flag)",
        22 => "command latch (byte)",
        23 => "palette latch (flag)",
        24 => "palette latch (byte)",
        26 => "dirty flag",
        219 => "table",
        _ => "other",
    }
}

// Each offset at which the two differ, in rising order: those of a repair's list. Each on a line: its offset in decimal, then what stands there, and the byte
// before and after in hexadecimal. A line that cannot be written is left out.
fn tell_changes(rt: &HostRuntime, old: &[u8], new: &[u8])
    requires { length old.now ≡ length new.now }
{
    for (at, (was, is)) in old.iter().zip(new).enumerate() {
        if was != is {
            let name = field_name(at);
            let _ = eprintln!(rt; "repair: byte {at}, {name}: {was:02X} -> {is:02X}");
        }
    }
}

// Whether it is a block; it is then mended.
fn mended(block: &mut [u8]) -> bool {
    let mut list = [0u8; 220];
    block_repair::repair(block, &mut list).is_ok()
}

// The program at work: it writes the block mended, and tells what has changed; where it cannot be written, that alone is told.
fn run(rt: &HostRuntime, name: &[u8], help: &[u8]) {
    // Room for the longest block and one byte more: where that is filled, there is too much, and nothing that follows could change it.
    let mut block = [0u8; 221];
    let Some(n) = program::input(rt, name, help, &mut block) else {
        return;
    };
    let old = block;
    if !mended(&mut block[..n]) {
        program::output(rt, name, b"bad\n");
        return;
    }
    if program::output(rt, name, &block[..n]) {
        tell_changes(rt, &old[..n], &block[..n]);
    }
}

pub fn repair(rt: &HostRuntime, called: &[u8]) {
    run(
        rt,
        called,
        b"usage: repair [FILE]\n\
            Reads a state block of 219 or 220 bytes from FILE, or from standard input (no FILE, or -), and writes it mended (docs/SAVES.md).\n\
            Each byte that has changed is told on standard error, in a line; of a block with nothing wrong, nothing is.\n\
            For an input of any other length it writes the line 'bad' and nothing more.\n\
            The exit status is 0 where nothing was wrong, and 1 where something is told, for 'bad', and where it cannot be read or written.\n",
    );
}
