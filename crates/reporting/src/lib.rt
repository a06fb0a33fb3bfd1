// What the reports of a rule file have in common: what is promised of a text that is written of a search, and of a program that prints one. Rests on crates
// search, writing and printing.
#![tactic(auto)]

ghost use Rattle.std.specs.Prelude.{ℕ, ◌≤◌, List, length};
ghost use Rattle.reporting.specs.Answers.{program_page, Prints, FirstBytes, AllReport};

// The buffers of a program: the words of its work slice, the bytes of its list slice, those of its text slice, which holds every text of such a list, and
// those that it reads, one more than a rule file may have.
pub const WORDS: usize = 16384;

pub const LIST: usize = 32768;

pub const PAGE: usize = 4 * LIST + 64;

pub const INPUT: usize = 16385;

// Room for what a program reads, and for its text.
pub fn input() -> [u8; INPUT] {
    [0; INPUT]
}

pub fn page() -> [u8; PAGE] {
    [0; PAGE]
}

// How many bytes count of those that were read: the first `size`, or all where there are fewer.
pub fn counted(input: &[u8], size: usize) -> usize
    ensures { FirstBytes input.now size result }
{
    size.min(input.len())
}

// What a program prints for the first `size` bytes that it read, with its buffers: 16,384 words and 32,768 bytes for the list. `report` searches a rule file
// in lent words and a lent list, writes a text of the search to a slice, and answers with its length. (A size beside its buffer, here and in both functions
// that hand them on: `Prints` and the theorem `prints_whole` speak of both, and `program_text` promises its text for every size.)
pub fn printed<F: Fn(&[u8], &mut [u32], &mut [u8], &mut [u8]) -> usize>(
    report: F,
    input: &[u8],
    size: usize,
    text: &mut [u8],
) -> usize
    requires called { F.IsAlwaysCallable report }
    requires page { program_page ≤ length text.old }
    ensures { (text_for : List ℕ → ℕ → ℕ → List ℕ) → AllReport (F.post report) text_for → Prints text_for input.now size text.old text.new result }
{
    let mut work = [0u32; WORDS];
    let mut list = [0u8; LIST];
    let n = counted(input, size);
    report(&input[..n], &mut work, &mut list, text)
}
