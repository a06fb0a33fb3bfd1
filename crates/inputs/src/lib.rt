// The depth of a closed input: its values read one after another, one for each parameter of the source, and nothing behind them. Rests on crates
// lookups, goal, rows and fitting.
#![tactic(auto)]

ghost use Rattle.std.specs.Prelude.{◌≡◌};
ghost use Rattle.inputs.specs.Depth.{reading_of, input_at};

use fitting::slots;
use goal::Goal;
use lookups::Rules;
use rows::Values;

// How deep the input is, as its deepest parameter, 0 without parameters; if it is one closed value per parameter of the source, each at most as deep as it
// may be, and nothing more. Nothing may be open: there is no table.
pub fn input_depth<'a>(rules: &Rules<'a>, goal: Goal, input: &'a [u8]) -> Option<usize>
    ensures { let r = rules.now in result ≡ reading_of (input_at r.file.now r.types.now r.functions.now goal.source goal.depths input.now) }
{
    let head = rules.head(goal.source);
    let values = Values {
        rules: *rules,
        least: None,
        list: input,
    };
    let read = slots(&values, 0, head.parameters, goal.depths)?;
    if read.next < input.len() {
        return None;
    }
    Some(read.deep)
}
