// The search of a rule file for the partial inputs that reach the target, by lazy narrowing: depth first, in moves, over one path
// with a stack of choice points, all of it in the lent words; entries are written to the lent list. Rests on crates goal, depths, entries, rulefile,
// loaded, lookups, machine, skipping, registers, points, exploring and results.
#![tactic(auto)]

ghost use Rattle.search.specs.Answering.{SearchPromise};
ghost use Rattle.search.specs.Searching.{SomeSearchable, ExploresThem};

use depths::Depths;
use entries::room;
use exploring::explore;
use goal::Goal;
use loaded::open_input;
use lookups::Rules;
use machine::Layout;
use outline::table::Tables;
use points::{Search, Stack};
use reach::Refusal;
use registers::Evaluation;
use results::Listed;
use rulefile::load;
use skipping::with_ends;

// The search of a checked file, in as many words as it needs.
fn search_checked(
    rules: Rules,
    least: Depths,
    goal: Goal,
    work: &mut [u32],
    list: &mut [u8],
) -> Listed
    requires { SomeSearchable rules.file.now rules.types.now rules.functions.now least.of goal work.old }
    ensures { let r = rules.entry in ExploresThem r.file.now r.types.now r.functions.now least.of goal work.old work.new list.old list.new result }
{
    let mut ends = [0u16; 16384];
    let layout = Layout { limit: goal.steps };
    let run = Evaluation {
        program: with_ends(rules, &mut ends),
        label: goal.label,
        store: layout.store(),
    };
    let search = Search {
        run,
        least,
        limit: goal.steps,
        stack: Stack {
            at: layout.choices(),
        },
    };
    let head = rules.head(goal.source);
    let from = open_input(rules.file, work, run.store, head, goal);
    explore(&search, work, head.parameters.count, from, list)
}

// The search of a rule file, in the lent words, its list written to the lent list slice.
pub fn search(file: &[u8], work: &mut [u32], list: &mut [u8]) -> Result<Listed, Refusal>
    ensures { SearchPromise file.now work.old work.new list.old list.new result }
{
    let mut tables = Tables::new();
    let loaded = load(file, &mut tables)?;
    let rules = loaded.rules;
    let goal = loaded.goal;
    let least = loaded.least;
    let words = Layout { limit: goal.steps }.words();
    if work.len() < words {
        return Err(Refusal::WorkTooShort);
    }
    let counted = room(list.len());
    Ok(search_checked(rules, least, goal, &mut work[..words], &mut list[..counted]))
}
