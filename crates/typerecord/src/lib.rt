// The records of a rule file at a place of the lent bytes: bytes passed over, and what follows the mark TY. Every function is a reader of crate reach
// (specs/Reader.antt, specs/RuleFile.antt), its value forgotten where only the place behind it matters. Rests on crate marks.
#![tactic(auto)]

ghost use Rattle.std.specs.Prelude.{◌≡◌};
ghost use Rattle.reach.specs.Reader.{byte, times, passed};
ghost use Rattle.reach.specs.RuleFile.{constructor_record, type_record};
ghost use Rattle.typerecord.specs.Passed.{passed_of};

use marks::take_byte;
use reach::Refusal;

// The limits of the format, as specs/Limits.antt of crate reach has them.
const FIELD_LIMIT: usize = 6;

const CONSTRUCTOR_LIMIT: usize = 16;

// So many bytes passed over.
pub fn pass(s: &[u8], at: usize, n: usize) -> Result<usize, Refusal>
    ensures { result ≡ passed_of (passed n s.now at) }
{
    if s.len() < at {
        return Err(Refusal::Truncated);
    }
    if s.len() - at < n {
        return Err(Refusal::Truncated);
    }
    Ok(at + n)
}

// So many single bytes read.
pub fn skip_bytes(s: &[u8], at: usize, n: usize) -> Result<usize, Refusal>
    ensures { result ≡ passed_of (times n byte s.now at) }
{
    if n == 0 {
        return Ok(at);
    }
    pass(s, at, n)
}

fn skip_constructor(s: &[u8], at: usize) -> Result<usize, Refusal>
    ensures { result ≡ passed_of (constructor_record s.now at) }
{
    let (n, next) = take_byte(s, at)?;
    if FIELD_LIMIT < usize::from(n) {
        return Err(Refusal::OutOfRange);
    }
    skip_bytes(s, next, usize::from(n))
}

// So many constructors, one after the other.
fn skip_constructors(s: &[u8], at: usize, n: usize) -> Result<usize, Refusal>
    ensures { result ≡ passed_of (times n constructor_record s.now at) }
{
    let mut place = at;
    for _ in 0..n {
        place = skip_constructor(s, place)?;
    }
    Ok(place)
}

// What follows the mark TY. (The bounds are tested where the number is read, here of one byte, of a body in two: a function for both would take the number and
// its bounds, and hand back the refusal alone.)
pub fn skip_type(s: &[u8], at: usize) -> Result<usize, Refusal>
    ensures { result ≡ passed_of (type_record s.now at) }
{
    let (n, next) = take_byte(s, at)?;
    if usize::from(n) < 1 {
        return Err(Refusal::OutOfRange);
    }
    if CONSTRUCTOR_LIMIT < usize::from(n) {
        return Err(Refusal::OutOfRange);
    }
    skip_constructors(s, next, usize::from(n))
}
