// The verdict of a list, entry by entry: found with an RE, else undecided with a UN, else none; an MI changes nothing. Rests on crate reach.
#![tactic(auto)]

ghost use Rattle.verdicts.specs.Verdicts.{VerdictAfter};

use reach::{Kind, Verdict};

// The verdict after what a path lists.
pub fn verdict_after(verdict: Verdict, listing: Option<Kind>) -> Verdict
    ensures { VerdictAfter verdict listing result }
{
    match listing {
        Some(Kind::RE) => Verdict::Found,
        Some(Kind::UN) => match verdict {
            Verdict::None => Verdict::Undecided,
            _ => verdict,
        },
        Some(Kind::MI) => verdict,
        None => verdict,
    }
}
