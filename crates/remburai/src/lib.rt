// The calls for C and Rust: the check of a rule file, its search, a closed run, where an entry of a list stands, the printed text of a list, the share in its
// total line, and the names in it. Each answers with one number, that of crate packing for what the call inside hands back, and promises what
// specs/Answering.antt says; the share answers with itself, and the names with the length of their text, of which they promise what crate reporting says.
// include/remburai.h has the numbers for C. Rests on crates rulefile, search, closed, entries, printout, words, namereport and packing.
#![tactic(auto)]

ghost use Rattle.std.specs.Prelude.{◌≡◌};
ghost use Rattle.lists.specs.Share.{share};
ghost use Rattle.names.specs.NameList.{names_text};
ghost use Rattle.reporting.specs.Answers.{Reports};
ghost use Rattle.remburai.specs.Answering.{Checks, Searches, Runs, Finds, Measures, Writes};

use closed::run;
use entries::{room, span_of};
use namereport::names;
use packing::{check_number, part_number, run_number, search_number, text_number};
use printout::{text_length, write_text};
use rulefile::check;
use search::search;
use words::share_of;

// The check of a rule file: 0, or the number of its refusal.
#[unsafe(no_mangle)]
pub extern "C" fn remburai_check(file: &[u8]) -> u64
    ensures { Checks file.now result }
{
    check_number(check(file))
}

// The search of a rule file, in the lent words, its list written to the lent list slice.
#[unsafe(no_mangle)]
pub extern "C" fn remburai_search<'a>(file: &'a [u8], work: &mut [u32], list: &mut [u8]) -> u64
    ensures { Searches file.now work.old work.new list.old list.new result }
{
    search_number(search(file, work, list))
}

// The closed run of a rule file on an input, in the lent words.
#[unsafe(no_mangle)]
pub extern "C" fn remburai_run<'a>(file: &'a [u8], input: &'a [u8], work: &mut [u32]) -> u64
    ensures { Runs file.now input.now work.old work.new result }
{
    run_number(run(file, input, work))
}

// Where the entry of a given number stands in a list, counted from 0, and how many bytes it fills; else the list's end and none.
#[unsafe(no_mangle)]
pub extern "C" fn remburai_entry(list: &[u8], number: usize) -> u64
    ensures { Finds list.now number result }
{
    let end = room(list.len());
    part_number(span_of(&list[..end], number), end)
}

// The length of the printed text of a list, which is handed in with its rule file. `full` says that the search ended in 12.
#[unsafe(no_mangle)]
pub extern "C" fn remburai_text_length<'a>(file: &'a [u8], list: &'a [u8], full: bool) -> u64
    ensures { Measures file.now list.now full result }
{
    text_number(text_length(file, list, full))
}

// Writes that text to the front of a slice.
#[unsafe(no_mangle)]
pub extern "C" fn remburai_write_text<'a>(
    file: &'a [u8],
    list: &'a [u8],
    full: bool,
    text: &mut [u8],
) -> u64
    ensures { Writes file.now list.now full text.old text.new result }
{
    text_number(write_text(file, list, full, text))
}

// The unfinished share of a list's total line, from two of its counts, in whole per cent.
#[unsafe(no_mangle)]
pub extern "C" fn remburai_share(reach: u32, unfinished: u32) -> u64
    ensures { result ≡ share reach unfinished }
{
    share_of(reach as u64, unfinished as u64)
}

// The search of a rule file in the lent words and list, and the names of the entries that were listed, written to the front of a slice: the length of that
// text.
#[unsafe(no_mangle)]
pub extern "C" fn remburai_names<'a>(
    file: &'a [u8],
    work: &mut [u32],
    list: &mut [u8],
    text: &mut [u8],
) -> u64
    ensures { Reports names_text file.now work.old work.new list.old list.new text.old text.new result }
{
    names(file, work, list, text) as u64
}
