// The machine: environments, waiting cases and input cells in the lent words. Definitions and laws, where the parts of the words begin, and the
// reading and writing of words: one word, a word of a record or of a cell, and the record at the top. Rests on crate reach's definitions.
#![tactic(auto)]

ghost use Rattle.std.specs.Prelude.{◌≡◌, ◌+◌, ◌*◌, ◌≤◌, ◌<◌, length, get_or};
ghost use Rattle.reach.specs.Limits.{step_limit, work_words};
ghost use Rattle.machine.specs.Layout.{records_at, choices_at};
ghost use Rattle.machine.specs.Cells.{cell_word};
ghost use Rattle.machine.specs.Records.{record_word, Wrote};

// How the lent words of a run of so many steps are laid out: how many there are, and where their parts begin.
#[derive(Clone, Copy)]
pub struct Layout {
    pub limit: usize,
    ghost few: { limit ≤ step_limit },
}

impl Layout {
    // How many words the run needs.
    pub fn words(self) -> usize
        ensures { result ≡ work_words self.limit }
    {
        64 * self.limit + 1024
    }

    // The store of its records.
    pub fn store(self) -> Store
        ensures { result.at ≡ records_at self.limit }
    {
        Store {
            at: 30 * self.limit + 80,
        }
    }

    // Where the choice points begin.
    pub fn choices(self) -> usize
        ensures { result ≡ choices_at self.limit }
    {
        34 * self.limit + 96
    }
}

// A word of the work slice, or 0 past its end. (Not one function with that of lookups for places: a word has no `From` to the number of a place.)
pub fn word_or_zero(work: &[u32], at: usize) -> usize
    ensures { (result ≡ get_or work.now at 0) × (result < 4294967296) }
{
    if at < work.len() {
        work[at] as usize
    } else {
        0
    }
}

// Word k of a cell.
pub fn cell_word(work: &[u32], cell: usize, k: usize) -> usize
    requires { (cell ≤ 1000000) × (k < 5) }
    ensures { (result ≡ cell_word work.now cell k) × (result < 4294967296) }
{
    word_or_zero(work, 5 * cell + k)
}

// A number that fits a word. (A cast: it fits, and a conversion that may fail is no plainer.)
pub fn narrow(x: usize) -> u32
    requires { x < 4294967296 }
    ensures { result ≡ x }
{
    x as u32
}

// The store of records in the lent words: where it begins. (That this is less than 2 to the power of 61 asks nothing of who writes a record: no slice of words
// has more.)
#[derive(Clone, Copy)]
pub struct Store {
    pub at: usize,
    ghost near: { at < 2305843009213693952 },
}

impl Store {
    // Word k of a record.
    pub fn word(self, work: &[u32], r: usize, k: usize) -> usize
        requires { (r < 4294967296) × (k < 4) }
        ensures { (result ≡ record_word work.now self.at r k) × (result < 4294967296) }
    {
        word_or_zero(work, self.at + 4 * r + k)
    }

    // Four words, the record at the top, each by its name. (A struct of four numbers is no plainer.)
    pub fn put(self, work: &mut [u32], top: usize, a: usize, b: usize, c: usize, d: usize)
        requires top_in_bounds { self.at + 4 * (top + 1) ≤ length work.old }
        requires a_bound { (a < 4294967296) × (b < 4294967296) × (c < 4294967296) × (d < 4294967296) }
        ensures { Wrote work.old work.new self.at top a b c d }
    {
        let at = self.at + 4 * top;
        work[at] = narrow(a);
        work[at + 1] = narrow(b);
        work[at + 2] = narrow(c);
        work[at + 3] = narrow(d);
    }
}
