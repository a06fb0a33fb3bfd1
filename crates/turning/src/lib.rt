// Results: a construction or a part of the input with no case waiting (000, section 3.4; 02, Slip 7). The fields of a construction are turned to, from left to
// right, each as a result in its turn; then the next field that waits. A part of the input is not gone into. Rests on crates marks, machine, skipping,
// lookups and registers.
#![tactic(auto)]

ghost use Rattle.std.specs.Prelude.{◌≡◌, List, ℕ, ◌*◌, ◌≤◌, ◌<◌};
ghost use Rattle.machine.specs.Records.{no_case, FrameBelow};
ghost use Rattle.registers.specs.Stepping.{Space, Standing, Result, SteppedBy, TurnedBy};
ghost use Rattle.turning.specs.Turning.{OwnFields, FieldsFit, GoesOnBy, turned};

use lookups::Rules;
use marks::byte_or_zero;
use registers::{EXPRESSION, Evaluation, NO_CASE, Registers};

// The first of k fields is turned to, which begin at `first` and stand in an environment; the others, if there are any, wait before the frames.
// (What is turned to is four numbers that two callers find in different places: a struct for them is no plainer.)
fn turn_to(
    run: &Evaluation,
    work: &mut [u32],
    r: Registers,
    first: usize,
    k: usize,
    env: usize,
    frame: usize,
) -> Registers
    requires { Space work.old run.now.store.at r × (0 < k) × (k ≤ 255 * r.records) × (first < 4294967296) × (env < r.records) × FrameBelow frame r.records }
    ensures { (file : List ℕ) → TurnedBy file run.now.program.ends.now work.old work.new run.now.store.at r first k env frame result }
{
    let top = r.records;
    if k == 1 {
        return Registers {
            kind: EXPRESSION,
            place: first,
            env,
            frame,
            records: top,
        };
    }
    run.store
        .put(work, top, run.program.end(first), k - 1, env, frame);
    Registers {
        kind: EXPRESSION,
        place: first,
        env,
        frame: NO_CASE + top,
        records: top + 1,
    }
}

// Behind a result with no fields to go into and no case waiting: the next field that waits is turned to, or it is the end.
fn go_on(run: &Evaluation, work: &mut [u32], r: Registers) -> Option<Registers>
    requires { Space work.old run.now.store.at r × FieldsFit work.old run.now.store.at r × (no_case ≤ r.frame) }
    ensures { (file : List ℕ) → GoesOnBy file run.now.program.ends.now work.old work.new run.now.store.at r (turned result) }
{
    let frame = r.frame;
    if frame == NO_CASE {
        return None;
    }
    let x = frame - NO_CASE;
    let first = run.store.word(work, x, 0);
    let k = run.store.word(work, x, 1);
    let env = run.store.word(work, x, 2);
    let next = run.store.word(work, x, 3);
    Some(turn_to(run, work, r, first, k, env, next))
}

// How many fields a result has that are to be evaluated: those of a construction; of a part of the input, which is not gone into, none.
fn own_fields(rules: &Rules, r: Registers) -> usize
    requires { (w : List ℕ) × (base : ℕ) × Result rules.now.file.now w base r }
    ensures { OwnFields rules.now.file.now rules.now.types.now r result }
{
    let kind = r.kind;
    if kind == EXPRESSION {
        let t = byte_or_zero(rules.file, r.place + 1);
        let c = byte_or_zero(rules.file, r.place + 2);
        return rules.field_count(t, c);
    }
    0
}

// The step behind a result: its first field is turned to, or the next one that waits, or it is the end.
pub fn step_result(run: &Evaluation, work: &mut [u32], r: Registers) -> Option<Registers>
    requires { let rules = run.now.program.rules in
        ((functions : List ℕ) × Standing rules.file.now rules.types.now functions work.old run.now.store.at r)
        × Result rules.file.now work.old run.now.store.at r }
    ensures { let p = run.now.program in
        SteppedBy p.rules.file.now p.rules.types.now p.ends.now work.old work.new run.now.store.at r (turned result) }
{
    let k = own_fields(&run.program.rules, r);
    if 0 < k {
        return Some(turn_to(run, work, r, r.place + 3, k, r.env, r.frame));
    }
    go_on(run, work, r)
}
