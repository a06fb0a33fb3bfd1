// Runs the check on every file of a container, each behind its two-byte length, and prints a line for each: `accepted`, or
// `refused` and the number. tests/make_boundary.py makes the container and the lines. Rests on crates cases and rulefile.
#![tactic(auto)]

use cases::{Answer, each_file};
use std::io;

// Checks one file and prints its line.
fn check_file(rt: &impl Print, file: &[u8]) -> io::Result<()> {
    rt.println(Answer(rulefile::check(file).map(|()| "accepted")))
}

fn main(rt: HostRuntime) -> io::Result<()> {
    each_file(&mut rt.stdin(), |_, file| check_file(&rt, file))
}
