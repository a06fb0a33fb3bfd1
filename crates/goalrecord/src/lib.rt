// What follows the mark GO, at a place of the lent bytes. Rests on crates marks and typerecord.
#![tactic(auto)]

ghost use Rattle.std.specs.Prelude.{◌≡◌};
ghost use Rattle.reach.specs.RuleFile.{goal_record};
ghost use Rattle.typerecord.specs.Passed.{passed_of, limits_part};

use marks::{take_byte, take_word};
use reach::Refusal;

// The limits of the format, as specs/Limits.antt of crate reach has them.
const DEPTH_LIMIT: usize = 64;

const STEP_LIMIT: usize = 4096;

// The depth D and the step limit S.
fn skip_limits(s: &[u8], at: usize) -> Result<usize, Refusal>
    ensures { result ≡ passed_of (limits_part s.now at) }
{
    let (d, next) = take_byte(s, at)?;
    if usize::from(d) < 1 {
        return Err(Refusal::OutOfRange);
    }
    if DEPTH_LIMIT < usize::from(d) {
        return Err(Refusal::OutOfRange);
    }
    let (n, behind) = take_word(s, next)?;
    if STEP_LIMIT < n {
        return Err(Refusal::OutOfRange);
    }
    Ok(behind)
}

// What follows the mark GO.
pub fn skip_goal(s: &[u8], at: usize) -> Result<usize, Refusal>
    ensures { result ≡ passed_of (goal_record s.now at) }
{
    let (_, label) = take_byte(s, at)?;
    let (_, limits) = take_byte(s, label)?;
    skip_limits(s, limits)
}
