// The numbers of the refusals. Rests on crate reach.
#![tactic(auto)]

ghost use Rattle.std.specs.Prelude.{◌≡◌};
ghost use Rattle.reach.specs.Words.{number_of};

use reach::Refusal;

// The number that the papers give a refusal. (A function: as `From` or as discriminants it would stand in crate reach, which has no code.)
pub fn number(why: Refusal) -> u64
    ensures { result ≡ number_of why }
{
    match why {
        Refusal::Truncated => 1,
        Refusal::UnexpectedMark => 2,
        Refusal::OutOfRange => 3,
        Refusal::UnknownNumber => 4,
        Refusal::UnknownCode => 5,
        Refusal::TypeMismatch => 6,
        Refusal::TrailingBytes => 7,
        Refusal::EmptyType => 8,
        Refusal::DepthTooSmall => 9,
        Refusal::BadInput => 10,
        Refusal::WorkTooShort => 11,
        Refusal::ListFull => 12,
        Refusal::TextTooShort => 13,
        Refusal::BadList => 14,
        Refusal::BadSpelling => 15,
    }
}
