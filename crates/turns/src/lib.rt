// The turns of the first pass: what the mark behind a record calls for. Every mark is read through the cursor. Rests on crates marks, cursor and typerecord.
#![tactic(auto)]

ghost use Rattle.std.specs.Prelude.{◌≡◌};
ghost use Rattle.reach.specs.RuleFile.{more_types, more_functions, goal_mark};
ghost use Rattle.typerecord.specs.Passed.{passed_of};
ghost use Rattle.turns.specs.Turns.{types_turn, functions_turn, Room, first_mark};

use cursor::{mark_at, mark_behind};
use marks::Mark;
use reach::Refusal;

// What the mark behind a record calls for: one more record of its kind, or the next kind.
#[derive(Clone, Copy)]
pub enum Turn {
    Again(usize),
    Done(usize),
}

// The mark behind a type that begins at `from`, where so many more types may come.
pub fn turn_after_type(s: &[u8], from: usize, behind: usize, more: usize) -> Result<Turn, Refusal>
    ensures behind_value { more_types more s.now behind ≡ types_turn s.now more result }
    ensures room { Room more result }
{
    let (mark, next) = mark_behind(s, from, behind)?;
    match mark {
        Mark::Type if more == 0 => Err(Refusal::OutOfRange),
        Mark::Type => Ok(Turn::Again(next)),
        Mark::Function => Ok(Turn::Done(next)),
        Mark::Name | Mark::Goal | Mark::Other => Err(Refusal::UnexpectedMark),
    }
}

// (Not one function with the one before: NA and GO end the functions and are left to be read, and a type ends before a function that is not.)
// The mark behind a function that begins at `from`, where so many more functions may come. NA and GO are left to be read.
pub fn turn_after_function(
    s: &[u8],
    from: usize,
    behind: usize,
    more: usize,
) -> Result<Turn, Refusal>
    ensures behind_value { more_functions more s.now behind ≡ functions_turn s.now more result }
    ensures room { Room more result }
{
    let (mark, next) = mark_behind(s, from, behind)?;
    match mark {
        Mark::Function if more == 0 => Err(Refusal::OutOfRange),
        Mark::Function => Ok(Turn::Again(next)),
        Mark::Name | Mark::Goal => Ok(Turn::Done(behind)),
        Mark::Type | Mark::Other => Err(Refusal::UnexpectedMark),
    }
}

// The place behind the first mark, which must be that of a type. (Not one function with `goal_mark`: here a reader is taken to the first byte, there it is
// moved on from behind a record; and what either asks of the mark is one arm.)
pub fn first_mark(s: &[u8]) -> Result<usize, Refusal>
    ensures { result ≡ passed_of (first_mark s.now 0) }
{
    let (first, next) = mark_at(s, 0)?;
    match first {
        Mark::Type => Ok(next),
        _ => Err(Refusal::UnexpectedMark),
    }
}

// The place behind the mark GO, which must come behind NA's type number; `from` is where that number stands.
pub fn goal_mark(s: &[u8], from: usize, behind: usize) -> Result<usize, Refusal>
    ensures { result ≡ passed_of (goal_mark s.now behind) }
{
    let (last, next) = mark_behind(s, from, behind)?;
    match last {
        Mark::Goal => Ok(next),
        _ => Err(Refusal::UnexpectedMark),
    }
}
