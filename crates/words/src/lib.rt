// The words of a printed line, each written to a page: a byte of the prefix form, a kind, the verdict that counts give; and the unfinished share.
// Rests on crate writing.
#![tactic(auto)]

ghost use Rattle.std.specs.Prelude.{◌≡◌, ◌∷◌, ◌≤◌, ◌<◌};
ghost use Rattle.reach.specs.Search.{verdict_by};
ghost use Rattle.reach.specs.Words.{verdict_word};
ghost use Rattle.lists.specs.Share.{nearest, share};
ghost use Rattle.lists.specs.Text.{space, kind_word, part_word};
ghost use Rattle.writing.specs.Writing.{Puts};

use reach::{Counts, Kind, OPEN};
use std::cmp::Ordering;
use writing::Page;

// Puts a space and a byte of the prefix form.
pub fn put_part(page: &mut Page, b: u8)
    requires { page.old.at < 2305843009213693952 }
    ensures { Puts page.old (space ∷ part_word b) page.new }
{
    match b {
        OPEN => page.bytes(b" _"),
        _ => page.number(u64::from(b)),
    }
}

// Puts the word for a kind.
pub fn put_kind(page: &mut Page, kind: Kind)
    requires { page.old.at < 4611686018427387904 }
    ensures { Puts page.old (kind_word kind) page.new }
{
    let word: &[u8] = match kind {
        Kind::RE => b"reach",
        Kind::UN => b"unfinished",
        Kind::MI => b"missing",
    };
    page.bytes(word);
}

// The whole number nearest to a quotient, an exact half to the even one.
fn nearest_to(over: u64, under: u64) -> u64
    requires { (over < 4611686018427387904) × (under < 4611686018427387904) × (0 < under) }
    ensures { result ≡ nearest over under }
{
    let whole = over / under;
    let twice = 2 * (over % under);
    match twice.cmp(&under) {
        Ordering::Less => whole,
        Ordering::Equal => whole + whole % 2,
        Ordering::Greater => whole + 1,
    }
}

// The unfinished share of both counts in whole per cent.
pub fn share_of(reach: u64, unfinished: u64) -> u64
    requires { (reach < 4294967296) × (unfinished < 4294967296) }
    ensures value { result ≡ share reach unfinished }
    ensures small { result ≤ 100 }
{
    match reach + unfinished {
        0 => 0,
        both => nearest_to(100 * unfinished, both),
    }
}

// Puts a space and the verdict that the counts give.
pub fn put_verdict(page: &mut Page, counts: Counts)
    requires { page.old.at < 4611686018427387904 }
    ensures { Puts page.old (space ∷ verdict_word (verdict_by counts)) page.new }
{
    let word: &[u8] = match (counts.reach, counts.unfinished) {
        (0, 0) => b" none",
        (0, _) => b" undecided",
        _ => b" found",
    };
    page.bytes(word);
}
