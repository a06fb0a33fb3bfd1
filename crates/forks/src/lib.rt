// The next constructor that a fork takes, found in a rule file whose records stand at known places. Rests on crates lookups and depths.
#![tactic(auto)]

ghost use Rattle.forks.specs.Untried.{NextFork};

use depths::Depths;
use lookups::{FieldTypes, Rules};

// The constructor that a fork takes next: its number, and its fields' types.
#[derive(Clone, Copy)]
pub struct Candidate {
    pub number: usize,
    pub fields: FieldTypes,
}

// The first constructor of type t, from a number on, that a fork takes where the part may be so deep, if one is left.
pub fn next_fork(
    rules: &Rules,
    least: Depths,
    t: usize,
    room: usize,
    from: usize,
) -> Option<Candidate>
    ensures { NextFork rules.now.file.now rules.now.types.now least.of t room from result }
{
    if room == 0 {
        return None;
    }
    // (As `find` over `each_constructor` it was proved, but in a copy of both in Rust a call took up to 14 in 100 longer where the first one tried is taken.)
    for number in from..rules.constructors(t).count {
        let fields = rules.fields(t, number)?;
        if least.all_shallow(rules.file, fields, room - 1) {
            return Some(Candidate { number, fields });
        }
    }
    None
}
