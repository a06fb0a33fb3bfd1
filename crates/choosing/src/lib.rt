// The steps in which a waiting case has its value, a construction or a part of the input, and its alternative is chosen. With no case waiting that value is a
// result, which crate turning goes on behind. Rests on crates marks, machine, skipping, lookups and registers.
#![tactic(auto)]

ghost use Rattle.std.specs.Prelude.{◌≡◌, List, ℕ, ◌≤◌, ◌<◌};
ghost use Rattle.machine.specs.Records.{record_word, no_case, part_in};
ghost use Rattle.skipping.specs.Ends.{Ends};
ghost use Rattle.registers.specs.Stepping.{control_in, Space, Standing, Ready, LookedBy, Found, ChoseBy};
ghost use Rattle.choosing.specs.Entering.{AtBoundPart, EntersBy};

use machine::cell_word;
use marks::byte_or_zero;
use registers::{EXPRESSION, Evaluation, MISSING, NO_CASE, Next, Registers};
use skipping::Program;

// The place of the alternative for constructor c of those that begin at a place, or none where it is missing.
fn alternative_at(program: &Program, at: usize, c: usize) -> Option<usize>
    requires { (at < 4294967296) × (c < 4294967296) }
    ensures { let file = program.now.rules.file.now in
        (types functions : List ℕ) → Ends file types functions program.now.ends.now → Found file types functions at c result }
{
    let place = program.pass_alternatives(at, c);
    if byte_or_zero(program.rules.file, place) == 0 {
        None
    } else {
        Some(place + 1)
    }
}

// A value that a waiting case looks at: the number of its constructor, how many fields it has, where they begin, and in which environment they stand: 0 for
// cells of the input, or 1 more than its record. (A number: it is what the record that is made holds.)
#[derive(Clone, Copy)]
struct Value {
    constructor: usize,
    fields: usize,
    first: usize,
    inner: usize,
    ghost small: { (constructor < 4294967296) × (fields ≤ 255) × (first < 4294967296) × (inner < 4294967296) },
}

// The alternative for the constructor of a value is chosen for the innermost waiting case.
fn choose(run: &Evaluation, work: &mut [u32], r: Registers, value: Value) -> Registers
    requires space { Space work.old run.now.store.at r }
    requires frame { record_word work.old run.now.store.at r.frame 2 < r.records }
    ensures { let p = run.now.program in
        ChoseBy p.rules.file.now p.ends.now work.old work.new run.now.store.at r value.constructor value.fields value.first value.inner result }
{
    let store = run.store;
    let top = r.records;
    let alternatives = store.word(work, r.frame, 0);
    let env = store.word(work, r.frame, 2);
    let next = store.word(work, r.frame, 3);
    let seen = store.word(work, env, 1);
    let Some(place) = alternative_at(&run.program, alternatives, value.constructor) else {
        return Registers {
            kind: MISSING,
            place: 0,
            env: 0,
            frame: 0,
            records: top,
        };
    };
    store.put(
        work,
        top,
        env,
        seen + value.fields,
        value.first,
        value.inner,
    );
    Registers {
        kind: EXPRESSION,
        place,
        env: top,
        frame: next,
        records: top + 1,
    }
}

// A construction is the value that a waiting case looks at. A result is left alone.
pub fn step_construct(run: &Evaluation, work: &mut [u32], r: Registers) -> Next
    requires { let rules = run.now.program.rules in
        ((functions : List ℕ) × Standing rules.file.now rules.types.now functions work.old run.now.store.at r)
        × Ready rules.file.now work.old run.now.store.at r 2 r.place r.env }
    ensures { let p = run.now.program in LookedBy p.rules.file.now p.rules.types.now p.ends.now work.old work.new run.now.store.at r result }
{
    if NO_CASE <= r.frame {
        return Next::Stops;
    }
    let rules = &run.program.rules;
    let t = byte_or_zero(rules.file, r.place + 1);
    let c = byte_or_zero(rules.file, r.place + 2);
    let k = rules.field_count(t, c);
    let value = Value {
        constructor: c,
        fields: k,
        first: r.place + 3,
        inner: r.env + 1,
    };
    Next::Goes(choose(run, work, r, value))
}

// A case goes on with the part of the input that it looks at, which is bound to constructor c with its k fields in the cells from `first` on. (Numbers, and no
// `Value`: docs/DECISIONS.md names this function, and a caller would have to prove the bounds of the value.)
pub fn enter_part(
    run: &Evaluation,
    work: &mut [u32],
    r: Registers,
    c: usize,
    k: usize,
    first: usize,
) -> Registers
    requires { let file = run.now.program.rules.file.now in
        (types functions : List ℕ) × (cell : ℕ) × AtBoundPart file types functions work.old run.now.store.at cell r c k first }
    ensures { let p = run.now.program in EntersBy p.rules.file.now p.ends.now work.old work.new run.now.store.at r c k first result }
{
    let bound = Value {
        constructor: c,
        fields: k,
        first,
        inner: 0,
    };
    choose(run, work, r, bound)
}

// A part of the input is the value that the innermost waiting case looks at; the case waits where the part is open.
fn inspect(run: &Evaluation, work: &mut [u32], r: Registers) -> Next
    requires { let rules = run.now.program.rules in
        ((functions : List ℕ) × Standing rules.file.now rules.types.now functions work.old run.now.store.at r)
        × (control_in r ≡ part_in r.place) × (r.frame < no_case) }
    ensures { let p = run.now.program in LookedBy p.rules.file.now p.rules.types.now p.ends.now work.old work.new run.now.store.at r result }
{
    let cell = r.place;
    let head = cell_word(work, cell, 0);
    if head == 0 {
        return Next::Waits(cell);
    }
    let first = cell_word(work, cell, 1);
    let t = cell_word(work, cell, 2);
    let k = run.program.rules.field_count(t, head - 1);
    let part = Value {
        constructor: head - 1,
        fields: k,
        first,
        inner: 0,
    };
    Next::Goes(choose(run, work, r, part))
}

// A part of the input is the value that a waiting case looks at. A result is left alone.
pub fn step_part(run: &Evaluation, work: &mut [u32], r: Registers) -> Next
    requires { let rules = run.now.program.rules in
        ((functions : List ℕ) × Standing rules.file.now rules.types.now functions work.old run.now.store.at r) × (control_in r ≡ part_in r.place) }
    ensures { let p = run.now.program in LookedBy p.rules.file.now p.rules.types.now p.ends.now work.old work.new run.now.store.at r result }
{
    if NO_CASE <= r.frame {
        return Next::Stops;
    }
    inspect(run, work, r)
}
