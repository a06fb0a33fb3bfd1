// The loop of a closed run: steps one after the other; where a case waits on an open part, the part is bound to what the input has there and the case
// goes on with it. Rests on crates registers, steps and binding.
#![tactic(auto)]

ghost use Rattle.std.specs.Prelude.{◌≤◌};
ghost use Rattle.skipping.specs.Ends.{Ends};
ghost use Rattle.running.specs.Running.{RunBegins, EndsAs};

use binding::{Entered, enter_asked};
use reach::Outcome;
use registers::{Evaluation, Registers};
use steps::{Halt, run_on};

// At most so many steps from the registers on. Where a case waits on an open part, the part is bound and the case goes on with it, also where
// no step is left: then the words stand for all that the run looked at. (A `loop` and no `for`: each turn takes as many steps as it comes to.)
pub fn go_on(
    run: &Evaluation,
    input: &[u8],
    work: &mut [u32],
    first: usize,
    from: Registers,
    limit: usize,
) -> Outcome
    requires begins { let rules = run.now.program.rules in
        (limit ≤ 4096) × RunBegins rules.file.now rules.types.now rules.functions.now input.now run.now.label limit work.old run.now.store.at first from }
    requires ends { let p = run.now.program in Ends p.rules.file.now p.rules.types.now p.rules.functions.now p.ends.now }
    ensures { let rules = run.now.program.rules in
        EndsAs rules.file.now rules.types.now rules.functions.now input.now run.now.label limit work.old work.new run.now.store.at first from result }
{
    let mut at = Entered {
        registers: from,
        cells: first,
    };
    let mut done: usize = 0;
    loop {
        let ran = run_on(run, work, at.registers, limit - done);
        let reached = done + ran.steps;
        let steps = reached as u16;
        match ran.halt {
            Halt::Demands => return Outcome::Reached(steps),
            Halt::Stops => return Outcome::Ended(steps),
            Halt::Spent => return Outcome::Unfinished(steps),
            Halt::Lacks => return Outcome::Missing(steps),
            Halt::Waits(x) => at = enter_asked(run, input, work, at.cells, x, ran.registers),
        }
        if limit <= reached {
            return Outcome::Unfinished(steps);
        }
        done = reached + 1;
    }
}
