// The text that the program `namelist` prints for a rule file: the search in lent slices, and the names of the entries that it listed; and the same with the
// buffers of that program, which are those of `reachlist`. Rests on crates results, search, printing, namelines and reporting.
#![tactic(auto)]

ghost use Rattle.names.specs.NameList.{names_text};
ghost use Rattle.reporting.specs.Answers.{Reports, Prints};

use namelines::list_names;
use printing::refusal_text;
use reporting::{INPUT, PAGE, printed};

// Searches a rule file in the lent words and list, writes the names of the entries that were listed to the front of a slice, with the line of a refusal behind
// them if there is one, and answers with the text's length. A slice that is too short has as many bytes of the text as it holds: `text_bound` of the list
// slice's bytes, four times as many and 64 more, hold it all. (A twin of `report`, for the reason that stands there.)
pub fn names<'a>(file: &'a [u8], work: &mut [u32], list: &mut [u8], text: &mut [u8]) -> usize
    ensures { Reports names_text file.now work.old work.new list.old list.new text.old text.new result }
{
    match search::search(file, work, list) {
        Err(why) => refusal_text(why, text),
        Ok(listed) => list_names(file, &list[..listed.length()], listed.is_full(), text),
    }
}

// What the program `namelist` prints for the first `size` bytes that it read, of slices of the sizes that it has. (A size beside its buffer, for the reason
// that stands at `printed`; like `program_text` but for the call and the sizes, which are all that is in it.)
pub fn program_names<'a>(input: &'a [u8; INPUT], size: usize, text: &mut [u8; PAGE]) -> usize
    ensures { Prints names_text input.now size text.old text.new result }
{
    printed(
        |file, work, list, page| names(file, work, list, page),
        input,
        size,
        text,
    )
}
