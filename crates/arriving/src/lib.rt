// A path of the search arrives at its state and goes on to its end, or to a choice point where a case waits. Where the search stands between two moves.
// Rests on crates registers, points and steps; the definitions also on machine and choices.
#![tactic(auto)]

ghost use Rattle.std.specs.Prelude.{◌≡◌};
ghost use Rattle.arriving.specs.Moving.{ended_walk, SomeUnderWayIn, ArrivesIn};

use points::{ChoicePoint, Search};
use reach::Kind;
use registers::Registers;
use steps::{Halt, run_on};

// The search between two moves: the registers of the path on which it stands, or none behind the end of one; the cells in use, the
// steps done, and how many choice points there are.
#[derive(Clone, Copy)]
pub struct Walk {
    pub registers: Option<Registers>,
    pub cells: usize,
    pub done: usize,
    pub height: usize,
}

// The search after the moves of a path, and what the path lists of the input in the cells at its end: nothing, or an entry of this kind.
#[derive(Clone, Copy)]
pub struct Moved {
    pub walk: Walk,
    pub listing: Option<Kind>,
}

// The walk behind the end of a path. (Three numbers, here and in `over`, and no walk: steps and height are others than those of the walk that ends.)
pub fn ended(cells: usize, done: usize, height: usize) -> Walk
    ensures { result ≡ ended_walk cells done height }
{
    Walk {
        registers: None,
        cells,
        done,
        height,
    }
}

// Behind the end of a path, with what it lists.
pub fn over(cells: usize, done: usize, height: usize, listing: Option<Kind>) -> Moved
    ensures { result ≡ record { walk = ended_walk cells done height; listing = listing } }
{
    Moved {
        walk: ended(cells, done, height),
        listing,
    }
}

// The path of a walk, with these registers, arrives at its state and goes on to its end, or to a choice point where a case waits.
pub fn arrive(search: &Search, work: &mut [u32], walk: Walk, r: Registers) -> Moved
    requires { SomeUnderWayIn search.now work.old walk r }
    ensures { ArrivesIn search.now work.old work.new walk r result }
{
    let ran = run_on(&search.run, work, r, search.limit - walk.done);
    let cells = walk.cells;
    let total = walk.done + ran.steps;
    let height = walk.height;
    match ran.halt {
        Halt::Demands => over(cells, total, height, Some(Kind::RE)),
        Halt::Stops => over(cells, total, height, None),
        Halt::Spent => over(cells, total, height, Some(Kind::UN)),
        Halt::Lacks => over(cells, total, height, Some(Kind::MI)),
        Halt::Waits(_) if search.limit <= total => over(cells, total, height, Some(Kind::UN)),
        Halt::Waits(cell) => {
            let Registers { frame, records, .. } = ran.registers;
            let choice = ChoicePoint {
                cell,
                frame,
                records,
                cells,
                done: total,
            };
            search.stack.push_choice(work, height, choice);
            over(cells, total, height + 1, None)
        }
    }
}
