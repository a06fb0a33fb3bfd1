// The second pass over a rule file: the type and function numbers in TY, FN heads, NA and GO all exist. The records are looked at
// where the first pass found them. Rests on crates marks, lookups and goal.
#![tactic(auto)]

ghost use Rattle.std.specs.Prelude.{◌≡◌, map, length, get_or, ltb};
ghost use Rattle.reach.specs.RuleFile.{all_below, constructors_exist, types_exist, heads_exist, if_named, numbers_exist};
ghost use Rattle.reach.specs.Places.{bytes_at, type_at, head_at, outline_at};
ghost use Rattle.goal.specs.Goals.{goal_of, named_of};

use goal::Goal;
use lookups::{FieldTypes, Rules};
use marks::byte_or_zero;

// These types are all below a limit.
fn all_below(s: &[u8], fields: FieldTypes, limit: usize) -> bool
    ensures { result ≡ all_below limit (bytes_at s.now fields.at fields.count) }
{
    (fields.at..fields.at + fields.count).all(|i| byte_or_zero(s, i) < limit)
}

// The field types of the constructors of type t all exist.
fn constructors_exist(rules: &Rules, t: usize) -> bool
    ensures { let r = rules.now in result ≡ constructors_exist (length r.types.now) (type_at r.file.now (get_or r.types.now t 0)) }
{
    let limit = rules.types.len();
    rules
        .each_constructor(t)
        .all(|fields| all_below(rules.file, fields, limit))
}

// The field types of all types exist.
fn types_exist(rules: &Rules) -> bool
    ensures { let types = rules.now.types.now in result ≡ types_exist (length types) (map (type_at rules.now.file.now) types) }
{
    (0..rules.types.len()).all(|t| constructors_exist(rules, t))
}

// The parameter and result types of all functions exist.
fn heads_exist(rules: &Rules) -> bool
    ensures { let r = rules.now in result ≡ heads_exist (length r.types.now) (map (head_at r.file.now) r.functions.now) }
{
    let types = rules.types.len();
    (0..rules.functions.len()).all(|f| {
        let head = rules.head(f);
        all_below(rules.file, head.parameters, types) && head.result < types
    })
}

// The type that NA names exists, where there is one.
fn name_exists(named: Option<usize>, limit: usize) -> bool
    ensures { result ≡ if_named (λ t. ltb t limit) (named_of named) }
{
    named.is_none_or(|t| t < limit)
}

// All of these, and the function of the goal.
pub fn numbers_exist(rules: &Rules, named: Option<usize>, goal: Goal) -> bool
    ensures { let r = rules.now in result ≡ numbers_exist (outline_at r.file.now r.types.now r.functions.now (named_of named) (goal_of goal)) }
{
    types_exist(rules)
        && heads_exist(rules)
        && name_exists(named, rules.types.len())
        && goal.source < rules.functions.len()
}
