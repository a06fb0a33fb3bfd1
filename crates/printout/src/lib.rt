// The printed text of a list that is handed in with its rule file: its length, and the text itself, written into a lent slice. Both calls test the rule file
// first, then the list (refusal 14), and the writer then its slice (13), before it writes. Rests on crates rulefile, handed, printing and results.
#![tactic(auto)]

ghost use Rattle.printout.specs.Answering.{Judges, LengthPromise, WritePromise};

use handed::list_fits;
use outline::table::Tables;
use printing::{list_length, list_text};
use reach::Refusal;
use rulefile::load;

// Whether the file is accepted and the list fits it; else the refusal of the file, or 14.
fn judge<'a>(file: &'a [u8], list: &'a [u8]) -> Result<(), Refusal>
    ensures { Judges file.now list.now result }
{
    let mut tables = Tables::new();
    let loaded = load(file, &mut tables)?;
    if list_fits(&loaded.rules, loaded.least, loaded.goal, list) {
        Ok(())
    } else {
        Err(Refusal::BadList)
    }
}

// The exact length of the text of a list, which is handed in with its rule file. `full` says that the search ended in 12.
pub fn text_length<'a>(file: &'a [u8], list: &'a [u8], full: bool) -> Result<usize, Refusal>
    ensures { LengthPromise file.now list.now full result }
{
    judge(file, list)?;
    Ok(list_length(list, full))
}

// Writes that text to the front of a slice, and answers with its length.
pub fn write_text<'a>(
    file: &'a [u8],
    list: &'a [u8],
    full: bool,
    text: &mut [u8],
) -> Result<usize, Refusal>
    ensures { WritePromise file.now list.now full text.old text.new result }
{
    let n = text_length(file, list, full)?;
    if text.len() < n {
        return Err(Refusal::TextTooShort);
    }
    Ok(list_text(list, full, text))
}
