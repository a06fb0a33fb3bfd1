// Whether a list that is handed in is whole entries that fit its rule file: refusal 14.
// Rests on crates lookups, goal, depths, sizes, rows, fitting and entries.
#![tactic(auto)]

ghost use Rattle.std.specs.Prelude.{◌≡◌, ◌+◌};
ghost use Rattle.std.proofs.Math.Option.{some};
ghost use Rattle.reach.specs.Lists.{entry_size};
ghost use Rattle.handed.specs.Fits.{entry_at, Told, FitsList};

use depths::Depths;
use entries::each_entry;
use fitting::slots;
use goal::Goal;
use lookups::Rules;
use rows::Values;
use sizes::word_at;

// The entry of n bytes at a place has at most so many steps, and a value for each parameter of the source, at most as deep as it may be. (Rules, least depths
// and goal one by one, here and below: what was loaded stands in a crate above this one.)
fn entry_fits(rules: &Rules, least: &Depths, goal: Goal, list: &[u8], at: usize, n: usize) -> bool
    requires { entry_size list.now at ≡ some n }
    ensures { let r = rules.now in
        Told (entry_at r.file.now r.types.now r.functions.now least.now.of goal.source goal.depths goal.steps list.now at) (at + n) result }
{
    let limit = goal.steps;
    if limit < word_at(list, at + 2) {
        return false;
    }
    let values = Values {
        rules: *rules,
        least: Some(&least.of),
        list,
    };
    let head = rules.head(goal.source);
    let behind = at + n;
    slots(&values, at + 6, head.parameters, goal.depths).is_some_and(|read| read.next == behind)
}

// The list is whole entries that fit the rule file, whose tables and goal are those that an accepted file was loaded with: no bytes are left behind the last
// entry.
pub fn list_fits(rules: &Rules, least: Depths, goal: Goal, list: &[u8]) -> bool
    ensures { let r = rules.now in FitsList r.file.now r.types.now r.functions.now least.of goal.source goal.depths goal.steps list.now result }
{
    let end = list.len();
    let limit = 16777216;
    if limit < end {
        return false;
    }
    let mut at = 0;
    for entry in each_entry(list) {
        if !entry_fits(rules, &least, goal, list, entry.at, entry.size) {
            return false;
        }
        at = entry.at + entry.size;
    }
    end <= at
}
