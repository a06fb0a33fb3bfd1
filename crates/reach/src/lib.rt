// What every layer speaks of: the refusals, the end of a run, the kinds of entries and their counts, the verdict of a search.
// specs/Words.antt says which number or word of the papers each case is. There is no code in this crate: the rest of it is definitions
// (specs/) and what is proved of them (proofs/).

#![tactic(auto)]

// An open part, in prefix form.
pub const OPEN: u8 = 0xFF;

// Why a call gave no result. The comments give the word of the papers' table.
#[derive(Clone, Copy)]
pub enum Refusal {
    // 1, "short"
    Truncated,
    // 2, "mark"
    UnexpectedMark,
    // 3, "range"
    OutOfRange,
    // 4, "stranger"
    UnknownNumber,
    // 5, "code"
    UnknownCode,
    // 6, "misfit"
    TypeMismatch,
    // 7, "tail"
    TrailingBytes,
    // 8, "hollow"
    EmptyType,
    // 9, "shallow"
    DepthTooSmall,
    // 10, "input"
    BadInput,
    // 11, "bench"
    WorkTooShort,
    // 12, "full"
    ListFull,
    // 13, "page"
    TextTooShort,
    // 14, "scrap"
    BadList,
    // 15, "spelling"
    BadSpelling,
}

// How the evaluation of a closed input ends, with the steps that it took.
#[derive(Clone, Copy)]
pub enum Outcome {
    Reached(u16),
    Ended(u16),
    Unfinished(u16),
    Missing(u16),
}

// The kind of an entry, named by its mark: the path reaches the target, its steps are used up, or a case has no alternative.
#[derive(Clone, Copy)]
pub enum Kind {
    RE,
    UN,
    MI,
}

// How many entries of each kind there are.
#[derive(Clone, Copy)]
pub struct Counts {
    pub reach: u64,
    pub unfinished: u64,
    pub missing: u64,
}

// What a complete list says of its rule file.
#[derive(Clone, Copy)]
pub enum Verdict {
    Found,
    Undecided,
    None,
}
