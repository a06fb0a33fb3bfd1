// What follows the mark FN, at a place of the lent bytes: a function's head, and its body passed over. Rests on crates marks and typerecord.
#![tactic(auto)]

ghost use Rattle.std.specs.Prelude.{◌≡◌};
ghost use Rattle.reach.specs.RuleFile.{function_record};
ghost use Rattle.typerecord.specs.Passed.{passed_of, body_part};

use marks::{take_byte, take_word};
use reach::Refusal;
use typerecord::{pass, skip_bytes};

// The limits of the format, as specs/Limits.antt of crate reach has them.
const PARAMETER_LIMIT: usize = 8;

const BODY_LIMIT: usize = 1024;

// A body's length and the body, passed over.
fn skip_body(s: &[u8], at: usize) -> Result<usize, Refusal>
    ensures { result ≡ passed_of (body_part s.now at) }
{
    let (n, next) = take_word(s, at)?;
    if n < 1 {
        return Err(Refusal::OutOfRange);
    }
    if BODY_LIMIT < n {
        return Err(Refusal::OutOfRange);
    }
    pass(s, next, n)
}

// What follows the mark FN.
pub fn skip_function(s: &[u8], at: usize) -> Result<usize, Refusal>
    ensures { result ≡ passed_of (function_record s.now at) }
{
    let (n, first) = take_byte(s, at)?;
    if PARAMETER_LIMIT < usize::from(n) {
        return Err(Refusal::OutOfRange);
    }
    let result = skip_bytes(s, first, usize::from(n))?;
    let (_, length) = take_byte(s, result)?;
    skip_body(s, length)
}
