// Where the values of a closed input stand, noted in the open cells: the low half of the place in word 4, the high half in word 1,
// which a bound cell needs for its first field and an open one does not. Rests on crates marks, lookups, machine, rows and partials,
// the proofs also on cells.
#![tactic(auto)]

ghost use Rattle.std.specs.Prelude.{◌≡◌, ◌+◌, ◌*◌, ◌≤◌, ◌<◌, length};
ghost use Rattle.reach.specs.Places.{bytes_at};
ghost use Rattle.values.specs.Notes.{Noted, noted_place, note_place, behind_value};

use lookups::{FieldTypes, Rules};
use machine::cell_word;
use marks::byte_or_zero;
use partials::value;
use rows::Values;

// The place that is noted in an open cell.
pub fn noted(work: &[u32], cell: usize) -> usize
    requires { cell ≤ 1000000 }
    ensures { result ≡ noted_place work.now cell }
{
    cell_word(work, cell, 4) + 4294967296 * cell_word(work, cell, 1)
}

// Notes a place in an open cell. (`as u32`: both halves fit, which the check shows, so a conversion that can fail would be no plainer.)
fn note(work: &mut [u32], cell: usize, place: usize)
    requires { 5 * cell + 5 ≤ length work.old }
    ensures { work.new ≡ note_place work.old cell place }
{
    work[5 * cell + 1] = (place / 4294967296) as u32;
    work[5 * cell + 4] = (place % 4294967296) as u32;
}

// Notes in the cells from `first` on, one for each of these fields, where their values stand, one behind the other from a place of the input on.
pub fn note_values(
    rules: &Rules,
    input: &[u8],
    work: &mut [u32],
    first: usize,
    fields: FieldTypes,
    at: usize,
)
    requires { 5 * (first + fields.count) ≤ length work.old }
    ensures { let r = rules.now in Noted r.file.now r.types.now input.now work.old work.new first (bytes_at r.file.now fields.at fields.count) at }
{
    let mut place = at;
    for i in 0..fields.count {
        note(work, first + i, place);
        let t = byte_or_zero(rules.file, fields.at + i);
        place = next_place(rules, input, place, t, fields.count - i);
    }
}

// The place behind the closed value of type t that stands at a place, or that place where there is none. Nothing may be open.
fn behind_value<'a>(rules: &Rules<'a>, input: &'a [u8], at: usize, t: usize) -> usize
    ensures { result ≡ behind_value rules.now.file.now rules.now.types.now input.now at t }
{
    let values = Values {
        rules: *rules,
        least: None,
        list: input,
    };
    value(&values, at, t, 64).map_or(at, |one| one.next)
}

// The place behind that value where more than one is left; the last one is not passed over.
fn next_place(rules: &Rules, input: &[u8], at: usize, t: usize, left: usize) -> usize
    ensures { 1 < left → result ≡ behind_value rules.now.file.now rules.now.types.now input.now at t }
{
    if left <= 1 {
        at
    } else {
        behind_value(rules, input, at, t)
    }
}
