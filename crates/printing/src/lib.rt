// The printed text of a list, written into a lent slice: the lines of its entries, and its last line. Rests on crates entries, sizes, lines and
// writing.
#![tactic(auto)]

ghost use Rattle.std.specs.Prelude.{◌≡◌, ◌≤◌, length};
ghost use Rattle.reach.specs.Search.{one_more};
ghost use Rattle.reach.specs.Lists.{decoded_from};
ghost use Rattle.lists.specs.Text.{refusal_line, text_of, list_text};
ghost use Rattle.lines.specs.Counting.{Few};
ghost use Rattle.writing.specs.Writing.{Fronts, Puts};

use entries::{each_entry, room};
use lines::{put_last, put_line, put_refusal};
use reach::{Counts, Kind, Refusal};
use sizes::kind_at;
use writing::Page;

// Counts one more of a kind.
fn count(counts: &mut Counts, kind: Kind)
    requires { Few counts.old 16777216 }
    ensures { counts.new ≡ one_more kind counts.old }
{
    match kind {
        Kind::RE => counts.reach += 1,
        Kind::UN => counts.unfinished += 1,
        Kind::MI => counts.missing += 1,
    }
}

// Writes the text of a list of at most 16,777,216 bytes to an empty page: the line of each entry, and the last line.
fn put_list(page: &mut Page, full: bool, list: &[u8])
    requires { (page.old.at ≡ 0) × (length list.now ≤ 16777216) }
    ensures { Puts page.old (text_of full (decoded_from (length list.now) list.now 0)) page.new }
{
    let mut counts = Counts {
        reach: 0,
        unfinished: 0,
        missing: 0,
    };
    for entry in each_entry(list) {
        put_line(page, &list[entry.at..entry.at + entry.size]);
        count(&mut counts, kind_at(list, entry.at));
    }
    put_last(page, full, counts);
}

// Writes the text of a list to the front of a slice, and answers with the text's length: the lines of its entries, and the total line, or
// refusal 12 for a list that was cut short. A slice that is too short has as many bytes of the text as it holds.
pub fn list_text(list: &[u8], full: bool, text: &mut [u8]) -> usize
    ensures { Fronts text.old (list_text full list.now) text.new result }
{
    let mut page = Page { text, at: 0 };
    put_list(&mut page, full, &list[..room(list.len())]);
    page.at
}

// The length of the text of a list: what is written to a slice without a byte.
pub fn list_length(list: &[u8], full: bool) -> usize
    ensures { result ≡ length (list_text full list.now) }
{
    list_text(list, full, &mut [])
}

// Writes the line of a refusal to the front of a slice, and answers with its length.
pub fn refusal_text(why: Refusal, text: &mut [u8]) -> usize
    ensures { Fronts text.old (refusal_line why) text.new result }
{
    let mut page = Page { text, at: 0 };
    put_refusal(&mut page, why);
    page.at
}
