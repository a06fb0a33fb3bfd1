// The return to the last choice point with a constructor left: those behind it are dropped, their cells open again. Rests on crates lookups, depths,
// forks and points; the definitions also on machine and registers.
#![tactic(auto)]

ghost use Rattle.choices.specs.Returning.{Returns, SomeChoices};

use depths::Depths;
use forks::Candidate;
use lookups::Rules;
use points::Stack;

// Where a return leads: to a choice point, and to the constructor that it takes next.
#[derive(Clone, Copy)]
pub struct Return {
    pub to: usize,
    pub next: Candidate,
}

// The return to the last choice point with a constructor left, if there is one: those behind it are dropped. (Parts of a `Search`, and not the whole, which
// asks that the table of ends is filled: none is read here.)
pub fn find_return(
    rules: &Rules,
    least: Depths,
    stack: Stack,
    work: &mut [u32],
    height: usize,
) -> Option<Return>
    requires { SomeChoices rules.now.file.now rules.now.types.now least.of work.old stack.at height }
    ensures { Returns rules.now.file.now rules.now.types.now least.of work.old work.new stack.at height result }
{
    for h in (0..height).rev() {
        if let Some(next) = stack.candidate(rules, least, work, h) {
            return Some(Return { to: h, next });
        }
        stack.reopen(work, h);
    }
    None
}
