// Bytes, two-byte numbers and marks at a place of lent bytes. Every function that takes one is a reader of crate reach
// (specs/Reader.antt, specs/RuleFile.antt). Rests on crate reach.
#![tactic(auto)]

ghost use Rattle.std.specs.Prelude.{◌≡◌, ◌≤◌, ◌&&◌, eqb, get_or};
ghost use Rattle.reach.specs.Reader.{byte, word};
ghost use Rattle.reach.specs.RuleFile.{mark};
ghost use Rattle.reach.specs.Places.{word_at};
ghost use Rattle.marks.specs.Found.{pair, result_of, mark_named, marked_of};

use reach::Refusal;

// The mark of a record.
#[derive(Clone, Copy)]
pub enum Mark {
    Type,
    Function,
    Name,
    Goal,
    Other,
}

// The byte at a place, or 0 past the end: what looks into records that were read before.
pub fn byte_or_zero(s: &[u8], at: usize) -> usize
    ensures value { result ≡ get_or s.now at 0 }
    ensures small { result ≤ 255 }
{
    if at < s.len() { usize::from(s[at]) } else { 0 }
}

// The byte at a place, and the place behind it.
pub fn take_byte(s: &[u8], at: usize) -> Result<(u8, usize), Refusal>
    ensures { result ≡ result_of (byte s.now at) }
{
    if at < s.len() {
        Ok((s[at], at + 1))
    } else {
        Err(Refusal::Truncated)
    }
}

// The two-byte number at a place, the low byte first; a byte past the end counts as 0. What looks into records that were read before.
pub fn word_or_zero(s: &[u8], at: usize) -> usize
    ensures value { result ≡ word_at s.now at }
    ensures small { result ≤ 65535 }
{
    byte_or_zero(s, at) + 256 * byte_or_zero(s, at.saturating_add(1))
}

// The two bytes at a place, and the place behind them.
fn take_pair(s: &[u8], at: usize) -> Result<([u8; 2], usize), Refusal>
    ensures { result ≡ result_of (pair s.now at) }
{
    let (first, middle) = take_byte(s, at)?;
    let (second, next) = take_byte(s, middle)?;
    Ok(([first, second], next))
}

// A two-byte number, the low byte first, and the place behind it.
pub fn take_word(s: &[u8], at: usize) -> Result<(usize, usize), Refusal>
    ensures { result ≡ result_of (word s.now at) }
{
    let (bytes, next) = take_pair(s, at)?;
    Ok((usize::from(u16::from_le_bytes(bytes)), next))
}

// Two bytes are those of a mark.
pub fn is_mark(a: u8, b: u8, mark: &[u8; 2]) -> bool
    ensures { result ≡ (eqb a (get_or mark.now 0 0) && eqb b (get_or mark.now 1 0)) }
{
    a == mark[0] && b == mark[1]
}

// The mark that two bytes are.
#[tactic(auto, unfolding(reach::specs::RuleFile::mark_of))]
fn mark_of(bytes: [u8; 2]) -> Mark
    ensures { result ≡ mark_named (Rattle.reach.specs.RuleFile.mark_of (get_or bytes 0 0) (get_or bytes 1 0)) }
{
    match &bytes {
        b"TY" => Mark::Type,
        b"FN" => Mark::Function,
        b"NA" => Mark::Name,
        b"GO" => Mark::Goal,
        _ => Mark::Other,
    }
}

// The mark at a place, and the place behind it.
pub fn take_mark(s: &[u8], at: usize) -> Result<(Mark, usize), Refusal>
    ensures { result ≡ marked_of (mark s.now at) }
{
    let (bytes, next) = take_pair(s, at)?;
    Ok((mark_of(bytes), next))
}
