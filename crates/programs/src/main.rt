// The programs, all in one crate, since the check of a program reads all that it links. Its name says which of them it is: one that is compiled in
// (tools/program.c). By any other name it is `trace`.
#![tactic(auto)]

mod recording;
mod repair;
mod sheet;
mod snapshot;
mod trace;

ghost use Rattle.std.specs.Prelude.{◌≡◌, length, replicate};

use std::rt::Env;

// What runs by each name.
fn run(rt: &HostRuntime, called: &[u8]) {
    match called {
        b"trace-261" => trace::trace_261(rt, called),
        b"home-trace" => trace::home_trace(rt, called),
        b"snapshot" => snapshot::snapshot(rt, called),
        b"snapshot-261" => snapshot::snapshot_261(rt, called),
        b"home-snapshot" => snapshot::home_snapshot(rt, called),
        b"layers" => snapshot::layers(rt, called),
        b"sheet" => sheet::sheet(rt, called),
        b"repair" => repair::repair(rt, called),
        _ => trace::trace(rt, b"trace"),
    }
}

// Room for N bytes, zeroed. The contract gives their length, which the caller's check then need not compute.
fn zeros<const N: usize>() -> [u8; N]
    ensures zeros { result ≡ replicate N 0 }
    ensures size { N ≡ length result }
{
    [0; N]
}

fn main(rt: HostRuntime) {
    // Word 0 of the command line; where there is none, or a longer one, there is no name.
    let mut word = [0u8; 4096];
    let n = rt.arg(0, &mut word).unwrap_or(0);
    run(&rt, &word[..n]);
}
