// The check of a rule file: the three passes in their order, then the tests of depth and of the form of names. `check` accepts it or answers
// the one refusal of 1 to 9 or 15; `load` also hands on what later layers need of an accepted file: the places of its types and functions, which
// stand in the tables that are lent, the type that NA names, its goal by value and the least depths. Rests on crates typerecord, outline, numbers, bodies,
// depths, rooms, spelling, lookups, goal and results.
#![tactic(auto)]

ghost use Rattle.std.specs.Prelude.{◌≡◌, ◌≤◌, length};
ghost use Rattle.outline.specs.Tables.{places_of};
ghost use Rattle.goal.specs.Goals.{goal_of, named_of};
ghost use Rattle.rulefile.specs.Answering.{CheckPromise};
ghost use Rattle.rulefile.specs.Loading.{Outlines, AllPassed, Loads, source_shallow, names_spelled};

use bodies::bodies;
use depths::Depths;
use goal::Goal;
use lookups::Rules;
use numbers::numbers_exist;
use outline::table::Tables;
use outline::{Outlined, first_pass};
use reach::Refusal;
use rooms::all_roomy;
use spelling::spells;

const FILE_LIMIT: usize = 16384;

// An accepted file as the check leaves it: with the places of its records, the type that NA names, what the goal asks for, and the least depth of each
// type.
#[derive(Clone, Copy)]
pub struct Loaded<'a> {
    pub rules: Rules<'a>,
    pub named: Option<usize>,
    pub goal: Goal,
    pub least: Depths,
}

// A file with the places of its records.
fn rules_of<'a>(file: &'a [u8], tables: &'a Tables) -> Rules<'a>
    ensures file { result.file.now ≡ file.now }
    ensures types { result.types.now ≡ places_of tables.now.types }
    ensures functions { result.functions.now ≡ places_of tables.now.functions }
    ensures types_few { length result.types.now ≤ 32 }
    ensures functions_few { length result.functions.now ≤ 64 }
{
    Rules {
        file,
        types: tables.types.as_slice(),
        functions: tables.functions.as_slice(),
    }
}

// Each parameter of the source has a closed value that is at most as deep as the parameter may be.
fn source_shallow(rules: &Rules, goal: Goal, least: &Depths) -> bool
    ensures { result ≡ source_shallow rules.now.file.now rules.now.functions.now (goal_of goal) least.now.of }
{
    let head = rules.head(goal.source);
    all_roomy(rules.file, head.parameters, goal.depths, least)
}

// The type that NA names, where there is one, has the form of names. (A `match`: the proof of `is_none_or` with a closure over the rules did not close.)
fn well_spelled(rules: &Rules, named: Option<usize>) -> bool
    ensures { result ≡ names_spelled rules.now.file.now rules.now.types.now (named_of named) }
{
    match named {
        None => true,
        Some(t) => spells(rules, t),
    }
}

// The tests of depth and of the form of names, of a file whose passes found nothing.
fn with_depths(rules: Rules, o: Outlined) -> Result<Loaded, Refusal>
    requires { AllPassed rules o }
    ensures { Loads rules.entry.file.now result }
{
    let table = Depths::least(&rules);
    if !table.none_empty(rules.types.len()) {
        return Err(Refusal::EmptyType);
    }
    if !source_shallow(&rules, o.goal, &table) {
        return Err(Refusal::DepthTooSmall);
    }
    if !well_spelled(&rules, o.named) {
        return Err(Refusal::BadSpelling);
    }
    Ok(Loaded {
        rules,
        named: o.named,
        goal: o.goal,
        least: table,
    })
}

// The second and third pass, of a file whose first pass found nothing.
fn with_outline(rules: Rules, o: Outlined) -> Result<Loaded, Refusal>
    requires { Outlines rules o }
    ensures { Loads rules.entry.file.now result }
{
    if !numbers_exist(&rules, o.named, o.goal) {
        return Err(Refusal::UnknownNumber);
    }
    bodies(&rules)?;
    with_depths(rules, o)
}

// What later layers need of a rule file, where it is accepted; else the refusal of 1 to 9 or 15. The tables hold the places of its records.
pub fn load<'a>(file: &'a [u8], tables: &'a mut Tables) -> Result<Loaded<'a>, Refusal>
    ensures { Loads file.now result }
{
    if FILE_LIMIT < file.len() {
        return Err(Refusal::OutOfRange);
    }
    let outlined = first_pass(file, tables)?;
    with_outline(rules_of(file, tables), outlined)
}

// Whether a rule file is accepted; else the refusal of 1 to 9 or 15.
pub fn check(file: &[u8]) -> Result<(), Refusal>
    ensures { CheckPromise file.now result }
{
    load(file, &mut Tables::new()).map(|_| ())
}
