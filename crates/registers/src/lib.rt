// The evaluation, its registers, and what comes next; specs/Stepping says what the registers and the lent words stand for, and
// what a step is. Rests on crates skipping and machine.

#![tactic(auto)]

use machine::Store;
use skipping::Program;

// An evaluation: the program, the sought label, and the store of records in the lent words.
#[derive(Clone, Copy)]
pub struct Evaluation<'a> {
    pub program: Program<'a>,
    pub label: usize,
    pub store: Store,
}

// The kinds of what is being evaluated: nothing, an alternative being missing; the part of the input in the cell `place`; the expression at that
// place of the file in an environment's record. (Numbers and no enum: an enum that holds the place and the record was measured, and took two fifths of the
// time, since the loop of a search carries it around, docs/DECISIONS.md 47. An enum of names alone was not tried.)
pub const MISSING: usize = 0;

pub const PART: usize = 1;

pub const EXPRESSION: usize = 2;

// Frames have numbers: a waiting case that of its record; from this one on no case waits, and what is above it is the record of fields that wait, or 0.
// (A number and no enum: it stands in a word of a record too.)
pub const NO_CASE: usize = 1000000;

// The registers: what is being evaluated, the number of the innermost frame, and how many records there are. (Evaluation, words and registers go from
// function to function as three: the first stays, the second is lent to be written, the third is new after each step. One struct of them was not
// measured; that a step which takes and gives its registers through memory makes the whole several times as slow was, docs/DECISIONS.md 48.)
#[derive(Clone, Copy)]
pub struct Registers {
    pub kind: usize,
    pub place: usize,
    pub env: usize,
    pub frame: usize,
    pub records: usize,
}

// What comes next: the sought target is demanded, a case has no alternative, the end, one step to other registers, or a case waits on the open part
// in a cell. (No `Result` with the four that are no step as its error: the loop of crate steps has one outcome more, that no step is left, so it would
// match the error and make a `Halt` of it, as it does of this.)
#[derive(Clone, Copy)]
pub enum Next {
    Demands,
    Lacks,
    Stops,
    Goes(Registers),
    Waits(usize),
}
