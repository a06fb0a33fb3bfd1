// The line of a name, written to a page: its Latin-1 bytes, then its UTF-8 bytes, in decimal. The name stands in prefix form in a list, and what is
// open in it is filled with constructor 0. Rests on crates reach, writing and utf8.
#![tactic(auto)]

ghost use Rattle.std.specs.Prelude.{◌≡◌, ℕ, ◌≤◌, ◌<◌, List, length, drop, get_or};
ghost use mathlib.Core.List.{map, flat_map};
ghost use Rattle.lists.specs.Text.{spaced, decimal};
ghost use Rattle.names.specs.NameList.{utf8, name_line};
ghost use Rattle.writing.specs.Writing.{Puts};
ghost use Rattle.naming.specs.Letters.{half, letters, Spelt};
ghost use Rattle.naming.specs.Encodings.{latin1, Short};
ghost use Rattle.naming.specs.Short.{latin1_short, utf8_short};

use reach::OPEN;
use utf8::encoding;
use writing::Page;

// A half of a letter, filled.
fn half_of(b: u8) -> u8
    ensures { result ≡ half b }
{
    match b {
        OPEN => 0,
        _ => b,
    }
}

// The letters of the name that stands at the front of these bytes, filled, one after the other.
#[derive(Clone, Copy)]
struct EachLetter<'a> {
    bytes: &'a [u8],
    ghost few: { length bytes.now ≤ 16777216 },
    ghost spelt: { (i : ℕ) → get_or (letters bytes.now) i 0 < 256 },
}

impl<'a> Iterator for EachLetter<'a> {
    ghost use Rattle.std.specs.Iterator.{YieldsFirst, at_most};
    ghost use Rattle.naming.specs.Left.{letters_left};

    type Item = u8;

    ghost next_gives = { YieldsFirst letters_left };

    ghost remaining = { λ each. at_most (length each.bytes.now) };

    fn next(&mut self) -> Option<u8> {
        let [1, high, low, rest @ ..] = self.bytes else {
            return None;
        };
        self.bytes = rest;
        Some(16 * half_of(*high) + half_of(*low))
    }
}

// How a letter is written: as which bytes, each behind a space.
trait Encoding {
    ghost bytes: { ℕ → List ℕ };

    fn put(page: &mut Page, letter: u8)
        requires { page.old.at < 2305843009213693952 }
        ensures { Puts page.old (spaced (map decimal (bytes letter))) page.new };

    // At most eight bytes of text.
    ghost short: { Short bytes };
}

// As its Latin-1 byte.
struct Latin1;

impl Encoding for Latin1 {
    ghost bytes = { latin1 };

    ghost short = { latin1_short };

    fn put(page: &mut Page, letter: u8) {
        page.number(u64::from(letter));
    }
}

// As its UTF-8 bytes.
struct Utf8;

impl Encoding for Utf8 {
    ghost bytes = { utf8 };

    ghost short = { utf8_short };

    fn put(page: &mut Page, letter: u8) {
        let (first, second) = encoding(letter);
        page.number(u64::from(first));
        if let Some(second) = second {
            page.number(u64::from(second));
        }
    }
}

// Writes these letters, each in this encoding.
fn put_letters<E: Encoding>(page: &mut Page, name: EachLetter)
    requires { page.old.at < 1152921504606846976 }
    ensures { Puts page.old (spaced (map decimal (flat_map E.bytes (letters name.entry.bytes.now)))) page.new }
{
    for letter in name {
        E::put(page, letter);
    }
}

// Writes the line of the name at a place.
pub fn put_name(page: &mut Page, list: &[u8], at: usize)
    requires { (length list.now ≤ 16777216) × (at ≤ length list.now) × (page.old.at < 576460752303423488) × Spelt list.now at }
    ensures { Puts page.old (name_line (letters (drop at list.now))) page.new }
{
    let name = EachLetter { bytes: &list[at..] };
    let mut others = name;
    if let Some(first) = others.next() {
        page.decimal(u64::from(first));
        put_letters::<Latin1>(page, others);
        put_letters::<Utf8>(page, name);
    }
    page.byte(b'\n');
}
