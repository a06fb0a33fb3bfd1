// The steps of the expressions that look at no value: a variable, a call, a case that turns to its scrutinee, a let, a target. Rests on crates
// marks, machine, lookups and registers.
#![tactic(auto)]

ghost use Rattle.std.specs.Prelude.{◌≡◌, List, ℕ, ◌≤◌, ◌<◌};
ghost use Rattle.machine.specs.Walks.{outside_of};
ghost use Rattle.registers.specs.Stepping.{Standing, Ready, Leads, LeadsBy, Looked, VariableThere, Group};

use machine::Store;
use marks::byte_or_zero;
use registers::{EXPRESSION, Evaluation, Next, PART, Registers};

// How many variables are in view outside a group.
fn outside_of(store: Store, work: &[u32], group: usize) -> usize
    requires { group < 4294967296 }
    ensures { result ≡ outside_of work.now store.at group }
{
    store.word(work, store.word(work, group, 0), 1)
}

// The record of the group that holds variable n, from an environment outward. (A `while`: the records say how many groups there are.)
fn group_of(store: Store, work: &[u32], env: usize, n: usize) -> usize
    requires { VariableThere work.now store.at n env × (env ≤ 1000000) }
    ensures { Group work.now store.at n env result }
{
    let mut group = env;
    while n < outside_of(store, work, group) {
        group = store.word(work, group, 0);
    }
    group
}

// A variable is followed to what it stands for.
pub fn step_variable(run: &Evaluation, work: &[u32], r: Registers) -> Registers
    requires { let file = run.now.program.rules.file.now in
        ((types functions : List ℕ) × Standing file types functions work.now run.now.store.at r) × Ready file work.now run.now.store.at r 0 r.place r.env }
    ensures { let p = run.now.program in LeadsBy p.rules.file.now p.ends.now work.now work.now run.now.store.at r result }
{
    let store = run.store;
    let n = byte_or_zero(run.program.rules.file, r.place + 1);
    let group = group_of(store, work, r.env, n);
    let slot = n - outside_of(store, work, group);
    let first = store.word(work, group, 2);
    let inner = store.word(work, group, 3);
    if inner == 0 {
        return Registers {
            kind: PART,
            place: first + slot,
            env: 0,
            ..r
        };
    }
    let place = run.program.pass_operands(first, slot);
    Registers {
        kind: EXPRESSION,
        place,
        env: inner - 1,
        ..r
    }
}

// A call is unfolded: its operands become the variables of the function's body.
pub fn step_call(run: &Evaluation, work: &mut [u32], r: Registers) -> Registers
    requires { Ready run.now.program.rules.file.now work.old run.now.store.at r 1 r.place r.env }
    ensures { let p = run.now.program in
        (types : List ℕ) → Leads p.rules.file.now types p.rules.functions.now work.old work.new run.now.store.at r result }
{
    let rules = &run.program.rules;
    let head = rules.head(byte_or_zero(rules.file, r.place + 1));
    let top = r.records;
    run.store.put(work, top, 0, head.parameters.count, r.place + 2, r.env + 1);
    Registers {
        kind: EXPRESSION,
        place: head.body,
        env: top,
        records: top + 1,
        ..r
    }
}

// A case turns to its scrutinee and waits.
pub fn step_case(run: &Evaluation, work: &mut [u32], r: Registers) -> Registers
    requires { Ready run.now.program.rules.file.now work.old run.now.store.at r 3 r.place r.env }
    ensures { let p = run.now.program in LeadsBy p.rules.file.now p.ends.now work.old work.new run.now.store.at r result }
{
    let top = r.records;
    let alternatives = run.program.end(r.place + 2);
    run.store.put(work, top, alternatives, 0, r.env, r.frame);
    Registers {
        kind: EXPRESSION,
        place: r.place + 2,
        frame: top,
        records: top + 1,
        ..r
    }
}

// A let is opened: its body sees one more variable.
pub fn step_let(run: &Evaluation, work: &mut [u32], r: Registers) -> Registers
    requires { Ready run.now.program.rules.file.now work.old run.now.store.at r 4 r.place r.env }
    ensures { let p = run.now.program in LeadsBy p.rules.file.now p.ends.now work.old work.new run.now.store.at r result }
{
    let top = r.records;
    let body = run.program.end(r.place + 2);
    let seen = run.store.word(work, r.env, 1);
    run.store
        .put(work, top, r.env, seen + 1, r.place + 2, r.env + 1);
    Registers {
        kind: EXPRESSION,
        place: body,
        env: top,
        records: top + 1,
        ..r
    }
}

// A target of another label is passed to its inner expression; the sought one is demanded.
pub fn step_target(run: &Evaluation, r: Registers) -> Next
    requires { r.place ≤ 1000000 }
    ensures { let file = run.now.program.rules.file.now in
        (types functions w : List ℕ) (base : ℕ) → Ready file w base r 5 r.place r.env → Looked file types functions w w base run.now.label r result }
{
    if byte_or_zero(run.program.rules.file, r.place + 1) == run.label {
        return Next::Demands;
    }
    Next::Goes(Registers {
        kind: EXPRESSION,
        place: r.place + 2,
        ..r
    })
}
