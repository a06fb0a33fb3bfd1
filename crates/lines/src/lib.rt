// The lines of a printed text, each written to a page: the line of an entry, the total line, the line of a refusal. Rests on crates sizes,
// words, refusals and writing.
#![tactic(auto)]

ghost use Rattle.std.specs.Prelude.{map, ◌+◌, ◌*◌, ◌≤◌, ◌<◌, length, drop};
ghost use Rattle.reach.specs.Lists.{decoded};
ghost use Rattle.lists.specs.Text.{spaced, part_word, line_saying, total_line, refusal_line, last_line};
ghost use Rattle.lines.specs.Counting.{Few};
ghost use Rattle.writing.specs.Writing.{Puts};

use reach::{Counts, Refusal};
use refusals::number;
use sizes::{kind_at, word_at};
use words::{put_kind, put_part, put_verdict, share_of};
use writing::Page;

// Writes the parameters of an entry, each byte behind a space.
fn put_parts(page: &mut Page, parameters: &[u8])
    requires { (length parameters.now ≤ 16777216) × (page.old.at < 1152921504606846976) }
    ensures put { Puts page.old (spaced (map part_word parameters.now)) page.new }
    ensures near { page.new.at ≤ page.old.at + 257 * length parameters.now }
{
    for &b in parameters {
        put_part(page, b);
    }
}

// Writes the line of an entry.
pub fn put_line(page: &mut Page, entry: &[u8])
    requires { (6 ≤ length entry.now) × (length entry.now ≤ 16777216) × (page.old.at < 576460752303423488) }
    ensures put { Puts page.old (line_saying (decoded entry.now)) page.new }
    ensures near { page.new.at ≤ page.old.at + 70000 * length entry.now }
{
    put_kind(page, kind_at(entry, 0));
    page.number(word_at(entry, 2) as u64);
    put_parts(page, &entry[6..]);
    page.byte(b'\n');
}

// Writes the total line.
fn put_total(page: &mut Page, counts: Counts)
    requires { (page.old.at < 1152921504606846976) × Few counts 16777216 }
    ensures { Puts page.old (total_line counts) page.new }
{
    page.bytes(b"total");
    page.number(counts.reach);
    page.number(counts.unfinished);
    page.number(counts.missing);
    page.number(share_of(counts.reach, counts.unfinished));
    put_verdict(page, counts);
    page.byte(b'\n');
}

// Writes the line of a refusal.
pub fn put_refusal(page: &mut Page, why: Refusal)
    requires { page.old.at < 1152921504606846976 }
    ensures { Puts page.old (refusal_line why) page.new }
{
    page.bytes(b"refused");
    page.number(number(why));
    page.byte(b'\n');
}

// Writes the last line of a list's text: refusal 12 where the list was cut short, else the total line.
pub fn put_last(page: &mut Page, full: bool, counts: Counts)
    requires { (page.old.at < 1152921504606846976) × Few counts 16777216 }
    ensures { Puts page.old (last_line full counts) page.new }
{
    if full {
        put_refusal(page, Refusal::ListFull)
    } else {
        put_total(page, counts)
    }
}
