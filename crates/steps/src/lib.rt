// The evaluation in the lent words: one step, and steps one after the other. Records of environments, of waiting cases and of waiting fields are added at
// the top and never changed; expressions are read where they stand in the file. Rests on crates marks, registers, unfolding, choosing and turning.
#![tactic(auto)]

ghost use Rattle.std.specs.Prelude.{◌≡◌};
ghost use Rattle.machine.specs.Records.{expression_at};
ghost use Rattle.skipping.specs.Ends.{Ends};
ghost use Rattle.registers.specs.Stepping.{control_in, Standing, Looked};
ghost use Rattle.steps.specs.Running.{Onward, RunsToResult, RunsOn};

use choosing::{step_construct, step_part};
use marks::byte_or_zero;
use registers::{EXPRESSION, Evaluation, Next, PART, Registers};
use turning::step_result;
use unfolding::{step_call, step_case, step_let, step_target, step_variable};

// What steps one after the other come to: the sought target is demanded, a case has no alternative, the end, a step where none is left, or a case waits on
// the open part in a cell.
#[derive(Clone, Copy)]
pub enum Halt {
    Demands,
    Lacks,
    Stops,
    Spent,
    Waits(usize),
}

// Where they led: the registers, what they come to there, and how many steps were made.
#[derive(Clone, Copy)]
pub struct Ran {
    pub registers: Registers,
    pub halt: Halt,
    pub steps: usize,
}

// An expression's step, by its code, in the order of 000, section 3.3: construction, target, variable, call, let, case. (Here and below a clause asks that the
// table of ends is filled, and not `Evaluation`: `step_construct`, `step_part` and `enter_part` promise for any table. The codes are numbers, as they stand in
// the file: an enum made from the byte would be matched on at once, and nowhere else.)
fn step_expression(run: &Evaluation, work: &mut [u32], r: Registers) -> Next
    requires standing { let rules = run.now.program.rules in
        Standing rules.file.now rules.types.now rules.functions.now work.old run.now.store.at r × (control_in r ≡ expression_at r.place r.env) }
    requires ends { let p = run.now.program in Ends p.rules.file.now p.rules.types.now p.rules.functions.now p.ends.now }
    ensures { let rules = run.now.program.rules in
        Looked rules.file.now rules.types.now rules.functions.now work.old work.new run.now.store.at run.now.label r result }
{
    let code = byte_or_zero(run.program.rules.file, r.place);
    match code {
        2 => step_construct(run, work, r),
        5 => step_target(run, r),
        0 => Next::Goes(step_variable(run, work, r)),
        1 => Next::Goes(step_call(run, work, r)),
        4 => Next::Goes(step_let(run, work, r)),
        _ => Next::Goes(step_case(run, work, r)),
    }
}

// One step; a result is left alone.
fn step(run: &Evaluation, work: &mut [u32], r: Registers) -> Next
    requires standing { let rules = run.now.program.rules in
        Standing rules.file.now rules.types.now rules.functions.now work.old run.now.store.at r }
    requires ends { let p = run.now.program in Ends p.rules.file.now p.rules.types.now p.rules.functions.now p.ends.now }
    ensures { let rules = run.now.program.rules in
        Looked rules.file.now rules.types.now rules.functions.now work.old work.new run.now.store.at run.now.label r result }
{
    match r.kind {
        EXPRESSION => step_expression(run, work, r),
        PART => step_part(run, work, r),
        _ => Next::Lacks,
    }
}

// Steps one after the other from registers on, at most so many, up to the first result. (A `loop` and no `for` over them: with none left it looks once
// more, for what comes next there, and that look behind a `for` would be a second call of `step`, docs/DECISIONS.md 48.)
fn run_to_result(run: &Evaluation, work: &mut [u32], from: Registers, left: usize) -> Ran
    requires onward { let rules = run.now.program.rules in
        Onward rules.file.now rules.types.now rules.functions.now run.now.label work.old run.now.store.at from left }
    requires ends { let p = run.now.program in Ends p.rules.file.now p.rules.types.now p.rules.functions.now p.ends.now }
    ensures { let rules = run.now.program.rules in
        RunsToResult rules.file.now rules.types.now rules.functions.now run.now.label work.old work.new run.now.store.at from left result }
{
    let mut r = from;
    let mut done: usize = 0;
    loop {
        let next = step(run, work, r);
        let halt = match next {
            Next::Demands => Halt::Demands,
            Next::Lacks => Halt::Lacks,
            Next::Stops => Halt::Stops,
            Next::Waits(x) => Halt::Waits(x),
            Next::Goes(_) if left <= done => Halt::Spent,
            Next::Goes(to) => {
                r = to;
                done += 1;
                continue;
            }
        };
        return Ran {
            registers: r,
            halt,
            steps: done,
        };
    }
}

// Steps one after the other from registers on, at most so many. (Results have a loop of their own around the other: what goes on behind them would cost the
// other its registers. A `loop` and no `for`: each turn takes as many steps as it comes to.)
pub fn run_on(run: &Evaluation, work: &mut [u32], from: Registers, left: usize) -> Ran
    requires onward { let rules = run.now.program.rules in
        Onward rules.file.now rules.types.now rules.functions.now run.now.label work.old run.now.store.at from left }
    requires ends { let p = run.now.program in Ends p.rules.file.now p.rules.types.now p.rules.functions.now p.ends.now }
    ensures { let rules = run.now.program.rules in
        RunsOn rules.file.now rules.types.now rules.functions.now run.now.label work.old work.new run.now.store.at from left result }
{
    let mut r = from;
    let mut done: usize = 0;
    loop {
        let ran = run_to_result(run, work, r, left - done);
        done += ran.steps;
        let here = Ran { steps: done, ..ran };
        let Halt::Stops = ran.halt else {
            return here;
        };
        let Some(to) = step_result(run, work, ran.registers) else {
            return here;
        };
        if done >= left {
            return Ran {
                halt: Halt::Spent,
                ..here
            };
        }
        r = to;
        done += 1;
    }
}
