// The moves of the search: a step of the path under way, a fork to its first constructor, or a return to the last choice point with
// a constructor left, taking it. One call makes the moves of a path up to its end. Rests on crates registers,
// cells, choosing, points, choices and arriving.
#![tactic(auto)]

ghost use Rattle.std.specs.Prelude.{◌≡◌, ◌≤◌, None};
ghost use Rattle.arriving.specs.Moving.{SomeForkingIn, TakesIn, Active, ResumableIn, ResumesIn, StandsIn, MovesIn};

use arriving::{Moved, Walk, arrive, ended, over};
use cells::bind_cell;
use choices::{Return, find_return};
use choosing::enter_part;
use points::Search;
use registers::{PART, Registers};

// A choice point takes its next constructor: its cell is bound to it, and the path goes on behind the case.
fn take_fork(search: &Search, work: &mut [u32], fork: Return) -> Walk
    requires { SomeForkingIn search.now work.old fork }
    ensures { TakesIn search.now work.old work.new fork result }
{
    let point = search.stack.choice(work, fork.to);
    let file = search.run.program.rules.file;
    let next = fork.next;
    let k = next.fields.count;
    bind_cell(
        file,
        work,
        point.cell,
        next.number,
        next.fields,
        point.cells,
    );
    let from = Registers {
        kind: PART,
        place: point.cell,
        env: 0,
        frame: point.frame,
        records: point.records,
    };
    let to = enter_part(&search.run, work, from, next.number, k, point.cells);
    Walk {
        registers: Some(to),
        cells: point.cells + k,
        done: point.done + 1,
        height: fork.to + 1,
    }
}

// Behind the end of a path: the return to the last choice point with a constructor left, taking it, or the end of the search.
fn go_back(search: &Search, work: &mut [u32], walk: Walk) -> Walk
    requires { ResumableIn search.now work.old walk × (walk.registers ≡ None) × Active walk }
    ensures { ResumesIn search.now work.old work.new walk result }
{
    let rules = &search.run.program.rules;
    match find_return(rules, search.least, search.stack, work, walk.height) {
        Some(fork) => take_fork(search, work, fork),
        None => ended(walk.cells, walk.done, 0),
    }
}

// The path that the search goes on with: the one under way, or behind its end the one to which the search goes back. Where there
// is none the search is over.
fn resume(search: &Search, work: &mut [u32], walk: Walk) -> Walk
    requires { ResumableIn search.now work.old walk × Active walk }
    ensures { ResumesIn search.now work.old work.new walk result }
{
    match walk.registers {
        Some(_) => walk,
        None => go_back(search, work, walk),
    }
}

// The moves of the path that the search goes on with: it arrives at its state and goes on to its end.
pub fn make_moves(search: &Search, work: &mut [u32], walk: Walk) -> Moved
    requires { StandsIn search.now work.old walk × Active walk }
    ensures { MovesIn search.now work.old work.new walk result }
{
    let from = resume(search, work, walk);
    match from.registers {
        Some(r) => arrive(search, work, from, r),
        None => over(from.cells, from.done, from.height, None),
    }
}
