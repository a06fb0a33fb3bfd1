// Runs the search on every case of a container and prints two lines for each: the answer, then the bytes of the list with what became
// of the rest of the lent slices. tests/make_searches.py makes the container and the lines, and says what stands in them. Rests on crates cases and search.
#![tactic(auto)]

use cases::{
    Answer, BYTES, Refused, WORDS, bytes, each_file, kept, low_first, print_bytes, read_within,
    words,
};
use reach::{Refusal, Verdict};
use results::Listed;
use std::fmt;
use std::io::{self, Read};

// What stands in every word of the work slice and in every byte of the list slice before the call.
const WORD: u32 = 0xA5A5A5A5;

const BYTE: u8 = 0xA5;

// A list as the first line shows it: the verdict, or refusal 12, and the length.
#[derive(Drop)]
struct Line(Listed);

impl fmt::Display for Line {
    fn fmt<W: fmt::Write>(&self, f: &mut fmt::Formatter<W>) -> fmt::Result {
        match self.0 {
            Listed::Complete(n, Verdict::Found) => write!(f, "found {n}"),
            Listed::Complete(n, Verdict::Undecided) => write!(f, "undecided {n}"),
            Listed::Complete(n, Verdict::None) => write!(f, "none {n}"),
            Listed::Full(n) => write!(f, "{} {n}", Refused(Refusal::ListFull)),
        }
    }
}

// How many words a search may change: none with a refusal, else those that its step limit asks for, the last two bytes of the rule file.
fn words_in(answer: Result<Listed, Refusal>, file: &[u8]) -> usize {
    match (answer, file) {
        (Ok(_), [.., low, high]) => 64 * low_first(*low, *high) + 1024,
        _ => 0,
    }
}

// Searches one rule file and prints its two lines. The second has the bytes of the list, and whether the rest of the list slice, and the words that the search
// may not change, are as before. (Both bounds by `min`, so that nothing is to be proved of the search here.)
fn search_case<'a>(
    rt: &impl Print,
    file: &'a [u8],
    work: &mut [u32],
    list: &mut [u8],
) -> io::Result<()> {
    let answer = search::search(file, work, list);
    rt.println(Answer(answer.map(|listed| Line(listed))))?;
    let count = answer.map_or(0, |listed| listed.length());
    let (listed, rest) = list.split_at(count.min(list.len()));
    let spare = &work[words_in(answer, file).min(work.len())..];
    print_bytes(rt, listed)?;
    println!(rt; "{} {}", kept(rest, BYTE), kept(spare, WORD))
}

// Reads the lengths of the slices for a rule file, and searches it in them.
fn run_file<R: Read>(rt: &impl Print, input: &mut R, file: &[u8]) -> io::Result<()> {
    let mut work = words(WORD);
    let mut list = bytes(BYTE);
    let w = read_within(input, WORDS);
    let l = read_within(input, BYTES);
    search_case(rt, file, &mut work[..w], &mut list[..l])
}

fn main(rt: HostRuntime) -> io::Result<()> {
    each_file(&mut rt.stdin(), |input, file| run_file(&rt, input, file))
}
