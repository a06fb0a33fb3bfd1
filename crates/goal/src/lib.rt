// The goal of a rule file by value: what it asks for, looked up at the place of its record. No other crate reads
// these bytes of a file that was read. Rests on crate marks.
#![tactic(auto)]

ghost use Rattle.std.specs.Prelude.{◌≡◌, ◌≤◌, get_or};
ghost use Rattle.reach.specs.Places.{goal_at};
ghost use Rattle.goal.specs.Goals.{goal_of};

use marks::{byte_or_zero, word_or_zero};

// What the goal asks for: the source, the label, a depth for each parameter that the source may have, and S. (An array of 8: the library has no heap.)
#[derive(Clone, Copy)]
pub struct Goal {
    pub source: usize,
    pub label: usize,
    pub depths: [u8; 8],
    pub steps: usize,
}

// The depth that the parameter of this number may have; 0 for a number that is no parameter's.
pub fn depth_at(depths: [u8; 8], i: usize) -> usize
    ensures value { result ≡ get_or depths i 0 }
    ensures small { result ≤ 255 }
{
    byte_or_zero(&depths, i)
}

// The goal whose record stands at a place: all parameters may be equally deep.
pub fn goal_of(file: &[u8], at: usize) -> Goal
    ensures { goal_of result ≡ goal_at file.now at }
{
    let depth = byte_or_zero(file, at.saturating_add(2));
    Goal {
        source: byte_or_zero(file, at),
        label: byte_or_zero(file, at.saturating_add(1)),
        depths: [depth as u8; 8],
        steps: word_or_zero(file, at.saturating_add(3)),
    }
}
