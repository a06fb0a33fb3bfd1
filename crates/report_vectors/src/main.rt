// Prints what `reachlist` prints and then what `namelist` prints for every rule file of a container, each behind its three-byte length, and a line `end` behind
// each text. Of a longer file the first 16,385 bytes are handed on, as those programs do. tests/make_reachlist.py makes the container and the texts. Rests on
// crates cases, reporting, report and namereport.
#![tactic(auto)]

use cases::{BYTES, bytes, each_case, print, read_bytes, read_number};
use namereport::program_names;
use report::program_text;
use reporting::{INPUT, input, page};
use std::io::{self, Read};

// Prints a text, and the line behind it.
fn print_text(rt: &impl Print, text: &[u8]) -> io::Result<()> {
    print(rt, text)?;
    rt.print("end\n")
}

// Prints the texts of the rule file whose n bytes come next.
fn print_texts<R: Read>(rt: &impl Print, from: &mut R, n: usize) -> io::Result<()> {
    let mut file = input();
    let mut text = page();
    let size = read_bytes(from, &mut file, n.min(INPUT));
    let report = program_text(&file, size, &mut text);
    print_text(rt, &text[..report])?;
    let names = program_names(&file, size, &mut text);
    print_text(rt, &text[..names])
}

// Passes over so many bytes.
fn pass<R: Read>(from: &mut R, n: usize) {
    let mut rest = bytes(0);
    read_bytes(from, &mut rest, n.min(BYTES));
}

// Prints the texts of one rule file of n bytes.
fn run_case<R: Read>(rt: &impl Print, from: &mut R, n: usize) -> io::Result<()> {
    print_texts(rt, from, n)?;
    if INPUT < n {
        pass(from, n - INPUT);
    }
    Ok(())
}

fn main(rt: HostRuntime) -> io::Result<()> {
    each_case(
        &mut rt.stdin(),
        |from| read_number(from),
        |from, n| run_case(&rt, from, n),
    )
}
