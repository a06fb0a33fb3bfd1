// Prints the text of every list of a container. A case begins with a byte. Behind 0, or 1 where it was cut short, stands a list by itself; behind 2, or 3 where
// the search ended in 12, a rule file and a list that is handed in with it, and the three-byte length of a text slice. Files and lists stand behind their
// two-byte lengths. Of a list that is handed in the answers of both calls are printed, and the whole slice, which held dots. tests/make_texts.py makes the
// container and what is printed. Rests on crates cases, printing and printout.
#![tactic(auto)]

ghost use Rattle.std.specs.Prelude.{◌≤◌, length};

use cases::{Answer, BYTES, PART, bytes, each_case, print, read_byte, read_part, read_within};
use printout::{text_length, write_text};
use std::io::{self, Read};

// What a case has, and whether the search ended in 12: a list by itself, or one that is handed in with a rule file.
enum Kind {
    Alone(bool),
    Handed(bool),
}

impl From<u8> for Kind {
    fn from(byte: u8) -> Kind {
        let full = byte % 2 == 1;
        match byte {
            0 | 1 => Kind::Alone(full),
            _ => Kind::Handed(full),
        }
    }
}

// Prints the text of a list of at most 65,536 bytes.
fn print_list(rt: &impl Print, list: &[u8], full: bool) -> io::Result<()>
    requires { length list.now ≤ 65536 }
{
    let mut text = bytes(0);
    let n = printing::list_text(list, full, &mut text);
    print(rt, &text[..n])
}

// Prints what both calls answer for a list that is handed in, and the text slice.
fn print_handed<'a>(
    rt: &impl Print,
    file: &'a [u8],
    list: &'a [u8],
    full: bool,
    text: &mut [u8],
) -> io::Result<()> {
    println!(rt; "length {}", Answer(text_length(file, list, full)))?;
    println!(rt; "text {}", Answer(write_text(file, list, full, text)))?;
    print(rt, text)?;
    rt.print("\n")
}

// The rest of a case whose list stands by itself. Where the container has ended the whole buffer counts, and so below.
fn run_list<R: Read>(rt: &impl Print, input: &mut R, full: bool) -> io::Result<()> {
    let mut list = [0u8; PART];
    let n = read_part(input, &mut list).unwrap_or(PART);
    print_list(rt, &list[..n], full)
}

// The rest of a case whose list is handed in with its rule file, behind that file.
fn run_handed<R: Read>(rt: &impl Print, input: &mut R, file: &[u8], full: bool) -> io::Result<()> {
    let mut list = [0u8; PART];
    let mut text = bytes(46);
    let n = read_part(input, &mut list).unwrap_or(PART);
    let room = read_within(input, BYTES);
    print_handed(rt, file, &list[..n], full, &mut text[..room])
}

// The rest of a case that has a rule file. (Like `run_list`, which reads a part too: the two lines that they share are a call.)
fn run_file<R: Read>(rt: &impl Print, input: &mut R, full: bool) -> io::Result<()> {
    let mut file = [0u8; PART];
    let n = read_part(input, &mut file).unwrap_or(PART);
    run_handed(rt, input, &file[..n], full)
}

// A case behind its first byte.
fn run_case<R: Read>(rt: &impl Print, input: &mut R, kind: Kind) -> io::Result<()> {
    match kind {
        Kind::Alone(full) => run_list(rt, input, full),
        Kind::Handed(full) => run_file(rt, input, full),
    }
}

fn main(rt: HostRuntime) -> io::Result<()> {
    each_case(
        &mut rt.stdin(),
        |input| read_byte(input),
        |input, byte| run_case(&rt, input, Kind::from(byte)),
    )
}
