// Runs the closed run on every case of a container and prints a line for each: how it ended, after how many steps, and how deep the input is, or
// `refused` and the number. tests/make_runs.py makes the container and the lines. Rests on crates cases and closed.
#![tactic(auto)]

ghost use Rattle.std.specs.Prelude.{◌≤◌, ◌<◌, length};

use cases::{
    Answer, BYTES, PART, WORDS, bytes, each_file, read_byte, read_part, read_within, words,
};
use reach::Outcome;
use results::Ran;
use std::fmt;
use std::io::{self, Read};

// A run as its line shows it: how it ended, after how many steps, and how deep the input is.
#[derive(Drop)]
struct Line(Ran);

impl fmt::Display for Line {
    fn fmt<W: fmt::Write>(&self, f: &mut fmt::Formatter<W>) -> fmt::Result {
        let Ran { outcome, depth } = self.0;
        match outcome {
            Outcome::Reached(n) => write!(f, "reached {n} {depth}"),
            Outcome::Ended(n) => write!(f, "ended {n} {depth}"),
            Outcome::Unfinished(n) => write!(f, "unfinished {n} {depth}"),
            Outcome::Missing(n) => write!(f, "missing {n} {depth}"),
        }
    }
}

// Reads a number of four bytes, of which the last does not count; `most` where it is larger.
fn read_count<R: Read>(input: &mut R, most: usize) -> usize
    ensures { result ≤ most }
{
    let n = read_within(input, most);
    read_byte(input);
    n
}

// Lays a part down at a place of the input, as far as the input goes. The place behind.
fn lay(input: &mut [u8], at: usize, part: &[u8]) -> usize
    requires { at ≤ length input.old }
    ensures upper_bound { result ≤ length input.old }
    ensures onward { 0 < length part.now → at < length input.old → at < result }
{
    let n = part.len().min(input.len() - at);
    input[at..at + n].copy_from_slice(&part[..n]);
    at + n
}

// Lays it down so often, one behind the other, from the front on. (A `while`: each turn lays down again all that stands there, so that there are few.)
fn lay_often(input: &mut [u8], part: &[u8], times: usize) -> usize
    ensures { result ≤ length input.old }
{
    let size = part.len().saturating_mul(times).min(input.len());
    let mut at = lay(&mut input[..size], 0, part);
    while 0 < at && at < size {
        let (laid, open) = input[..size].split_at_mut(at);
        at += lay(open, 0, laid);
    }
    at
}

// Reads an input: a pattern, how often it stands, and what is behind. How many bytes it has. Where the container has ended the whole buffer counts.
fn read_input<R: Read>(from: &mut R, input: &mut [u8]) -> usize
    ensures { result ≤ length input.old }
{
    let mut part = [0u8; PART];
    let n = read_part(from, &mut part).unwrap_or(PART);
    let times = read_count(from, BYTES);
    let at = lay_often(input, &part[..n], times);
    let rest = read_part(from, &mut part).unwrap_or(PART);
    lay(input, at, &part[..rest])
}

// Reads the input for a rule file and the length of its work slice, runs it, and prints what it answered.
fn run_file<R: Read>(rt: &impl Print, from: &mut R, file: &[u8]) -> io::Result<()> {
    let mut input = bytes(0);
    let mut work = words(0);
    let i = read_input(from, &mut input);
    let w = read_count(from, WORDS);
    let answer = closed::run(file, &input[..i], &mut work[..w]);
    rt.println(Answer(answer.map(|ran| Line(ran))))
}

fn main(rt: HostRuntime) -> io::Result<()> {
    each_file(&mut rt.stdin(), |from, file| run_file(&rt, from, file))
}
