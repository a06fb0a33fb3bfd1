// A choice point in the lent words, above the records: made where a case waits on an open part; its cell opened again; the next constructor to which
// its cell is bound. Rests on crates machine, cells, registers, lookups, depths and forks.
#![tactic(auto)]

ghost use Rattle.std.specs.Prelude.{◌≡◌, ◌+◌, ◌*◌, ◌≤◌, ◌<◌, length};
ghost use Rattle.skipping.specs.Ends.{Ends};
ghost use Rattle.points.specs.Points.{choice_word, choice_at, reopened, Pushes, NextForkAt};

use cells::open_again;
use depths::Depths;
use forks::{Candidate, next_fork};
use lookups::Rules;
use machine::{cell_word, narrow, word_or_zero};
use registers::Evaluation;

// The stack of choice points in the lent words: where it begins. (That this is less than 2 to the power of 61 asks nothing of who makes a choice point: no
// slice of words has more.)
#[derive(Clone, Copy)]
pub struct Stack {
    pub at: usize,
    ghost near: { at < 2305843009213693952 },
}

// What stays throughout a search: the evaluation of its paths, the least depth of each type, the step limit, and the stack of its choice points.
#[derive(Clone, Copy)]
pub struct Search<'a> {
    pub run: Evaluation<'a>,
    pub least: Depths,
    pub limit: usize,
    pub stack: Stack,
    ghost filled: { let p = run.program in Ends p.rules.file.now p.rules.types.now p.rules.functions.now p.ends.now },
}

// A choice point: the cell that it binds, the frame that waits, how many records and cells there were, and the steps done.
#[derive(Clone, Copy)]
pub struct ChoicePoint {
    pub cell: usize,
    pub frame: usize,
    pub records: usize,
    pub cells: usize,
    pub done: usize,
}

impl Stack {
    // Word k of choice point h.
    pub fn choice_word(self, work: &[u32], h: usize, k: usize) -> usize
        requires { (h ≤ 1000000) × (k < 6) }
        ensures { (result ≡ choice_word self.at work.now h k) × (result < 4294967296) }
    {
        word_or_zero(work, self.at + 6 * h + k)
    }

    // Choice point h.
    pub fn choice(self, work: &[u32], h: usize) -> ChoicePoint
        requires { h ≤ 1000000 }
        ensures { (result ≡ choice_at self.at work.now h) × (result.done < 4294967296) }
    {
        ChoicePoint {
            cell: self.choice_word(work, h, 0),
            frame: self.choice_word(work, h, 2),
            records: self.choice_word(work, h, 3),
            cells: self.choice_word(work, h, 4),
            done: self.choice_word(work, h, 5),
        }
    }

    // A choice point behind the h others, which waits on an open part.
    pub fn push_choice(self, work: &mut [u32], h: usize, choice: ChoicePoint)
        requires h_in_bounds { (self.at + 6 * (h + 1) ≤ length work.old) × (choice.cell ≤ 1000000) × (5 * choice.cell + 1 < self.at) }
        requires frame_bound { (choice.frame < 4294967296) × (choice.records < 4294967296) × (choice.cells < 4294967296) × (choice.done < 4294967296) }
        ensures { Pushes self.at work.old work.new h choice.cell choice.frame choice.records choice.cells choice.done }
    {
        let first = cell_word(work, choice.cell, 1);
        let at = self.at + 6 * h;
        work[at] = narrow(choice.cell);
        work[at + 1] = narrow(first);
        work[at + 2] = narrow(choice.frame);
        work[at + 3] = narrow(choice.records);
        work[at + 4] = narrow(choice.cells);
        work[at + 5] = narrow(choice.done);
    }

    // The cell of choice point h is opened again, as it was before it was bound.
    pub fn reopen(self, work: &mut [u32], h: usize)
        requires { (h ≤ 1000000) × (5 * choice_word self.at work.old h 0 + 1 < length work.old) }
        ensures { work.new ≡ reopened self.at work.old h }
    {
        let x = self.choice_word(work, h, 0);
        let first = self.choice_word(work, h, 1);
        open_again(work, x);
        work[5 * x + 1] = narrow(first);
    }

    // The next constructor of choice point h, if one is left: the head of its cell is its number, or that of one before it.
    pub fn candidate(
        self,
        rules: &Rules,
        least: Depths,
        work: &[u32],
        h: usize,
    ) -> Option<Candidate>
        requires { (h ≤ 1000000) × (choice_word self.at work.now h 0 ≤ 1000000) }
        ensures { NextForkAt rules.now.file.now rules.now.types.now least.of self.at work.now h result }
    {
        let x = self.choice_word(work, h, 0);
        next_fork(
            rules,
            least,
            cell_word(work, x, 2),
            cell_word(work, x, 3),
            cell_word(work, x, 0),
        )
    }
}
