// What the programs share, above all those that run stored cases: the parts and the numbers of a case are read from an input, and what became of it is printed.
// A container is cases, one behind the other. A read that fails ends the input, and a write that fails is handed back. Rests on crates reach and refusals.
#![tactic(auto)]

ghost use Rattle.std.specs.Prelude.{◌≡◌, ◌≤◌, length, take, drop, IfSome};

use reach::Refusal;
use std::fmt;
use std::io::{self, Read};

// How many cases a program runs at most.
pub const CASES: usize = 1000000;

// The words and the bytes of the longest slices that a case may ask for.
pub const WORDS: usize = 300000;

pub const BYTES: usize = 1048576;

// The bytes of a buffer for a part, which hold every length.
pub const PART: usize = 65536;

// As many words, each of them `word`.
pub fn words(word: u32) -> [u32; WORDS] {
    [word; WORDS]
}

// As many bytes, each of them `byte`.
pub fn bytes(byte: u8) -> [u8; BYTES] {
    [byte; BYTES]
}

// A number of two bytes, low byte first.
pub fn low_first(a: u8, b: u8) -> usize
    ensures { result ≤ 65535 }
{
    usize::from(u16::from_le_bytes([a, b]))
}

// Reads once. How many bytes there were at the front of the buffer: none where the input has ended, or a read failed.
fn read_some<R: Read>(input: &mut R, part: &mut [u8]) -> usize
    ensures upper_bound { result ≤ length part.new }
    ensures front { result ≡ length (take result part.new) }
{
    input.read(part).unwrap_or(0)
}

// Reads until a buffer is full or the input has ended. How many bytes there were.
fn read_full<R: Read>(input: &mut R, part: &mut [u8]) -> usize
    ensures upper_bound { result ≤ length part.new }
    ensures front { result ≡ length (take result part.new) }
{
    let mut done = 0;
    // (A `while`: a read says how far it came.)
    while done < part.len() {
        let n = read_some(input, &mut part[done..]);
        if n == 0 {
            break;
        }
        done += n;
    }
    done
}

// Reads so many bytes, if there are as many.
fn read_array<R: Read, const N: usize>(input: &mut R) -> Option<[u8; N]> {
    let mut bytes = [0u8; N];
    if read_full(input, &mut bytes) < N {
        return None;
    }
    Some(bytes)
}

// Reads a byte; none where the container has ended, and so below.
pub fn read_byte<R: Read>(input: &mut R) -> Option<u8> {
    let [byte]: [u8; 1] = read_array(input)?;
    Some(byte)
}

// Reads a length of two bytes, low byte first.
fn read_length<R: Read>(input: &mut R) -> Option<usize>
    ensures { IfSome result (λ n. n ≤ 65535) }
{
    let [low, high]: [u8; 2] = read_array(input)?;
    Some(low_first(low, high))
}

// Reads a number of three bytes, low byte first. (By hand: no type of numbers has three bytes.)
pub fn read_number<R: Read>(input: &mut R) -> Option<usize>
    ensures { IfSome result (λ n. n ≤ 16777215) }
{
    let [low, middle, high]: [u8; 3] = read_array(input)?;
    Some(low_first(low, middle) + 65536 * usize::from(high))
}

// Reads such a number; `most` where it is larger, or where the container has ended.
pub fn read_within<R: Read>(input: &mut R, most: usize) -> usize
    ensures { result ≤ most }
{
    read_number(input).unwrap_or(most).min(most)
}

// Reads as many bytes to the front of a slice, which has them. How many there were. Which they are, nothing can tell; those behind are as before.
pub fn read_bytes<R: Read>(input: &mut R, part: &mut [u8], n: usize) -> usize
    requires { n ≤ length part.old }
    ensures upper_bound { result ≤ n }
    ensures kept { drop n part.new ≡ drop n part.old }
{
    read_full(input, &mut part[..n]).min(n)
}

// Reads a part behind its two-byte length to the front of a buffer, which has room for every length, and gives the length.
pub fn read_part<R: Read>(input: &mut R, part: &mut [u8]) -> Option<usize>
    requires { 65536 ≤ length part.old }
    ensures upper_bound { IfSome result (λ n. n ≤ length part.new) }
    ensures front { IfSome result (λ n. n ≡ length (take n part.new)) }
{
    let n = read_length(input)?;
    Some(read_bytes(input, part, n))
}

// Runs case after case until the container has ended, each from where the one before has read to: `read` reads what a case begins with, `run_case` the rest.
pub fn each_case<R: Read, T, P: Fn(&mut R) -> Option<T>, F: Fn(&mut R, T) -> io::Result<()>>(
    input: &mut R,
    read: P,
    run_case: F,
) -> io::Result<()>
    requires read { P.IsAlwaysCallable read }
    requires run { F.IsAlwaysCallable run_case }
{
    for _ in 0..CASES {
        let Some(first) = read(input) else {
            break;
        };
        run_case(input, first)?;
    }
    Ok(())
}

// The same of cases that begin with a rule file, which is a part and is lent to each. (Not by `each_case`: the one buffer is read into and lent on in turn.)
pub fn each_file<R: Read, F: Fn(&mut R, &[u8]) -> io::Result<()>>(
    input: &mut R,
    run_case: F,
) -> io::Result<()>
    requires { F.IsAlwaysCallable run_case }
{
    let mut file = [0u8; PART];
    for _ in 0..CASES {
        let Some(n) = read_part(input, &mut file) else {
            break;
        };
        run_case(input, &file[..n])?;
    }
    Ok(())
}

// Prints bytes as they are.
pub fn print(rt: &impl Print, text: &[u8]) -> io::Result<()> {
    rt.write_all(text)
}

// A refusal as a line shows it: `refused` and the number.
#[derive(Drop)]
pub struct Refused(pub Refusal);

impl fmt::Display for Refused {
    fn fmt<W: fmt::Write>(&self, f: &mut fmt::Formatter<W>) -> fmt::Result {
        write!(f, "refused {}", refusals::number(self.0))
    }
}

// An answer as a line shows it: the refusal, or what is shown of an answer that is none.
#[derive(Drop)]
pub struct Answer<T>(pub Result<T, Refusal>);

impl<T: fmt::Display> fmt::Display for Answer<T> {
    fn fmt<W: fmt::Write>(&self, f: &mut fmt::Formatter<W>) -> fmt::Result {
        match &self.0 {
            Ok(answer) => write!(f, "{answer}"),
            Err(why) => write!(f, "{}", Refused(*why)),
        }
    }
}

// Prints each byte of a slice in decimal, and a space behind it.
pub fn print_bytes(rt: &impl Print, list: &[u8]) -> io::Result<()> {
    for x in list {
        print!(rt; "{x} ")?;
    }
    Ok(())
}

// The word for whether every item is still `value`.
pub fn kept<T: Copy + PartialEq>(items: &[T], value: T) -> &'static str {
    if items.iter().all(|x| *x == value) {
        "kept"
    } else {
        "changed"
    }
}
