// The program `reachlist`: reads a rule file from standard input and prints its text. Its buffers are those that `program_text` takes.
#![tactic(auto)]

use cases::read_bytes;
use report::program_text;
use reporting::INPUT;
use std::io;

// (A twin of `main` of namelist: one function for both would take `program_text` as a parameter, ask by a clause that its text lies in the slice, and
// leave each program a `main` beside it: more lines than these five.)
fn main(rt: HostRuntime) -> io::Result<()> {
    let mut file = reporting::input();
    let mut text = reporting::page();
    let got = read_bytes(&mut rt.stdin(), &mut file, INPUT);
    let size = program_text(&file, got, &mut text);
    rt.write_all(&text[..size])
}
