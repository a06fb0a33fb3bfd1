// An entry at a place of a list: its kind by its mark, its two numbers, and how many bytes it fills. Rests on crates reach and marks.
#![tactic(auto)]

ghost use Rattle.std.specs.Prelude.{◌≡◌, ◌+◌, ◌≤◌, ◌<◌, length};
ghost use Rattle.reach.specs.Places.{word_at};
ghost use Rattle.reach.specs.Lists.{kind_of, known_mark, kind_at, entry_size};
ghost use Rattle.sizes.specs.Sizes.{found_of};

use marks::is_mark;
use reach::Kind;

// The kind whose mark two bytes are, if they are one.
fn kind_of(a: u8, b: u8) -> Option<Kind>
    ensures { found_of result ≡ kind_of a b }
{
    // (`is_mark` and no `match`: docs/REVIEW.md names it for the comparison of marks.)
    if is_mark(a, b, b"RE") {
        return Some(Kind::RE);
    }
    if is_mark(a, b, b"UN") {
        return Some(Kind::UN);
    }
    if is_mark(a, b, b"MI") {
        return Some(Kind::MI);
    }
    None
}

// Two bytes are the mark of an entry.
fn known_mark(a: u8, b: u8) -> bool
    ensures { result ≡ known_mark a b }
{
    kind_of(a, b).is_some()
}

// The kind of the entry at a place. (Where no mark stands, no entry does, and the answer says nothing.)
pub fn kind_at(list: &[u8], at: usize) -> Kind
    requires { at + 1 < length list.now }
    ensures { result ≡ kind_at list.now at }
{
    kind_of(list[at], list[at + 1]).unwrap_or(Kind::UN)
}

// The two-byte number at a place.
pub fn word_at(s: &[u8], at: usize) -> usize
    requires { at + 1 < length s.now }
    ensures { result ≡ word_at s.now at }
{
    usize::from(u16::from_le_bytes([s[at], s[at + 1]]))
}

// How many bytes the entry at a place of a list fills, if one stands there.
pub fn size_at(list: &[u8], at: usize) -> Option<usize>
    requires { at ≤ length list.now }
    ensures { found_of result ≡ entry_size list.now at }
{
    if list.len() - at < 6 {
        return None;
    }
    if !known_mark(list[at], list[at + 1]) {
        return None;
    }
    let n = word_at(list, at + 4);
    if list.len() - at - 6 < n {
        return None;
    }
    Some(6 + n)
}
