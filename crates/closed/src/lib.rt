// The closed run: the evaluation of a rule on one closed input, in the lent words. Parts of the input are bound when a case looks at
// them. Rests on crates goal, lookups, rulefile, loaded, machine, skipping, registers, inputs, values, running and results.
#![tactic(auto)]

ghost use Rattle.closed.specs.Answering.{RunPromise};
ghost use Rattle.closed.specs.Evaluating.{Runnable, RunsAs};

use goal::Goal;
use inputs::input_depth;
use loaded::open_input;
use lookups::Rules;
use machine::Layout;
use outline::table::Tables;
use reach::{Outcome, Refusal};
use registers::Evaluation;
use results::Ran;
use rulefile::load;
use running::go_on;
use skipping::with_ends;
use values::note_values;

// The run of a checked file's rule on a closed input that fits.
fn evaluate(rules: &Rules, goal: Goal, input: &[u8], work: &mut [u32]) -> Outcome
    requires { let r = rules.now in Runnable r.file.now r.types.now r.functions.now input.now goal work.old }
    ensures { let r = rules.now in RunsAs r.file.now r.types.now r.functions.now input.now goal work.new result }
{
    let mut ends = [0u16; 16384];
    let run = Evaluation {
        program: with_ends(*rules, &mut ends),
        label: goal.label,
        store: Layout { limit: goal.steps }.store(),
    };
    let head = rules.head(goal.source);
    let from = open_input(rules.file, work, run.store, head, goal);
    note_values(rules, input, work, 0, head.parameters, 0);
    go_on(&run, input, work, head.parameters.count, from, goal.steps)
}

// The closed run of a rule file on an input, in the lent words.
pub fn run<'a>(file: &'a [u8], input: &'a [u8], work: &mut [u32]) -> Result<Ran, Refusal>
    ensures { RunPromise file.now input.now work.old work.new result }
{
    let mut tables = Tables::new();
    let loaded = load(file, &mut tables)?;
    let rules = loaded.rules;
    let goal = loaded.goal;
    let Some(deep) = input_depth(&rules, goal, input) else {
        return Err(Refusal::BadInput);
    };
    let words = Layout { limit: goal.steps }.words();
    if work.len() < words {
        return Err(Refusal::WorkTooShort);
    }
    let outcome = evaluate(&rules, goal, input, &mut work[..words]);
    Ok(Ran {
        outcome,
        depth: deep as u8,
    })
}
