// The text that the program `reachlist` prints for a rule file: the search in lent slices, and the text of its answer; and the same with the buffers of
// that program. Rests on crates search, printing and reporting.
#![tactic(auto)]

ghost use Rattle.reporting.specs.Answers.{Reports, Prints};
ghost use Rattle.report.specs.Answers.{report_text};

use printing::{list_text, refusal_text};
use reporting::{INPUT, PAGE, printed};

// Searches a rule file in the lent words and list, writes the text of the search's answer to the front of a slice, and answers with the text's length.
// A slice that is too short has as many bytes of the text as it holds: `text_bound` of the list slice's bytes, four times as many and 64 more, hold it all.
// (A twin of `names` in namereport: one function for both would take what writes the list, with clauses on it, since `list_names` asks that the list fits the
// file and `list_text` asks nothing; they would be longer than both bodies.)
pub fn report<'a>(file: &'a [u8], work: &mut [u32], list: &mut [u8], text: &mut [u8]) -> usize
    ensures { Reports report_text file.now work.old work.new list.old list.new text.old text.new result }
{
    match search::search(file, work, list) {
        Err(why) => refusal_text(why, text),
        Ok(listed) => list_text(&list[..listed.length()], listed.is_full(), text),
    }
}

// What the program `reachlist` prints for the first `size` bytes that it read, of slices of the sizes that it has: one byte more is read than a rule file may
// have, so that a file that is too long is refused, and the text of the longest list fits. (A size beside its buffer, for the reason that stands at `printed`.)
pub fn program_text<'a>(input: &'a [u8; INPUT], size: usize, text: &mut [u8; PAGE]) -> usize
    ensures { Prints report_text input.now size text.old text.new result }
{
    printed(
        |file, work, list, page| report(file, work, list, page),
        input,
        size,
        text,
    )
}
