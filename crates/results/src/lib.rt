// What the public calls hand back where they do not refuse: of the search, and of the closed run. A refusal is an `Err` of crate reach's `Refusal`; the
// check hands back no more than that, and the two calls about the text of a list the length of the text. specs/Results.antt says which answer of the
// definitions each result stands for. Rests on the enums of crate reach.
#![tactic(auto)]

ghost use Rattle.std.specs.Prelude.{◌≡◌};
ghost use Rattle.results.specs.Results.{length_of, is_cut};

use reach::{Outcome, Verdict};

// The list that a search wrote: the length of a complete list with its verdict; or, with refusal 12, the length of the list that was cut short.
#[derive(Clone, Copy)]
pub enum Listed {
    Complete(usize, Verdict),
    Full(usize),
}

impl Listed {
    // How many bytes the list has.
    pub fn length(&self) -> usize
        ensures { result ≡ length_of self.now }
    {
        match self {
            Listed::Complete(n, _) => *n,
            Listed::Full(n) => *n,
        }
    }

    // Whether it was cut short.
    pub fn is_full(&self) -> bool
        ensures { result ≡ is_cut self.now }
    {
        match self {
            Listed::Complete(_, _) => false,
            Listed::Full(_) => true,
        }
    }
}

// Of a closed run: how it ended, and how deep the input is.
#[derive(Clone, Copy)]
pub struct Ran {
    pub outcome: Outcome,
    pub depth: u8,
}
