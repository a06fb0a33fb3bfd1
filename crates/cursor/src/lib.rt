// The cursor over the lent file: it carries the file and how far it has been read. Its methods are thin: each takes the struct
// apart and calls a function on the slice and the place. `mark_at` and `mark_behind`, which take a plain slice, are what the first
// pass calls. Rests on crate marks.
#![tactic(auto)]

ghost use Rattle.std.specs.Prelude.{◌≡◌};
ghost use Rattle.reach.specs.RuleFile.{mark};
ghost use Rattle.marks.specs.Found.{marked_of};

use marks::{Mark, take_mark};
use reach::Refusal;

#[derive(Clone, Copy)]
pub struct Reader<'a> {
    pub file: &'a [u8],
    pub at: usize,
}

impl<'a> Reader<'a> {
    // A reader at a place of a file.
    fn new(file: &'a [u8], at: usize) -> Self
        ensures { (result.file ≡ file.entry) × (result.at ≡ at) }
    {
        Reader { file, at }
    }

    // The reader, moved on to another place of its file.
    fn moved(self, at: usize) -> Self
        ensures { (result.file ≡ self.entry.file) × (result.at ≡ at) }
    {
        Reader { at, ..self }
    }

    // The mark where a reader stands.
    fn mark(self) -> Result<(Mark, usize), Refusal>
        ensures { result ≡ marked_of (mark self.entry.file.now self.entry.at) }
    {
        take_mark(self.file, self.at)
    }
}

// The mark at a place: a reader is taken there.
pub fn mark_at(file: &[u8], at: usize) -> Result<(Mark, usize), Refusal>
    ensures { result ≡ marked_of (mark file.now at) }
{
    Reader::new(file, at).mark()
}

// The mark behind a record: a reader is taken where the record begins, moved on behind it, and handed on.
pub fn mark_behind(file: &[u8], from: usize, behind: usize) -> Result<(Mark, usize), Refusal>
    ensures { result ≡ marked_of (mark file.now behind) }
{
    Reader::new(file, from).moved(behind).mark()
}
