// The third pass over a rule file: bodies. Each is checked inside its own length, and nothing follows its expression there.
// Rests on crates typerecord, lookups and expressions.
#![tactic(auto)]

ghost use Rattle.std.specs.Prelude.{◌≡◌, ◌<◌, length, get_or};
ghost use Rattle.typerecord.specs.Passed.{passed_of};
ghost use Rattle.expressions.specs.Tables.{TablesSmall};
ghost use Rattle.bodies.specs.Check.{BodyThere, body_at, BodiesThere, functions_at, bodies_of};

use expressions::{Body, Scope, View};
use lookups::Rules;
use reach::Refusal;

const NESTING_LIMIT: usize = 32;

// The body of function f, and nothing behind its expression.
fn body_of(rules: &Rules, f: usize) -> Result<usize, Refusal>
    requires small { let r = rules.now in TablesSmall r.file.now r.types.now r.functions.now }
    requires known { f < length rules.now.functions.now }
    requires there { BodyThere rules.now.file.now (get_or rules.now.functions.now f 0) }
    ensures { let r = rules.now in result ≡ passed_of (body_at r.file.now r.types.now r.functions.now (get_or r.functions.now f 0)) }
{
    let head = rules.head(f);
    let end = head.body + head.size;
    let body = Body {
        rules: *rules,
        bytes: &rules.file[..end],
    };
    let parameters = View::empty().extended(rules.file, head.parameters);
    let scope = Scope {
        left: NESTING_LIMIT,
        view: parameters,
        expected: head.result,
    };
    let behind = body.expression(head.body, scope)?;
    if behind < end {
        return Err(Refusal::TrailingBytes);
    }
    Ok(behind)
}

// All bodies, in file order.
pub fn bodies(rules: &Rules) -> Result<(), Refusal>
    requires small { let r = rules.now in TablesSmall r.file.now r.types.now r.functions.now }
    requires there { BodiesThere rules.now.file.now rules.now.functions.now }
    ensures { let r = rules.now in result ≡ bodies_of (passed_of (functions_at r.file.now r.types.now r.functions.now)) }
{
    for f in 0..rules.functions.len() {
        body_of(rules, f)?;
    }
    Ok(())
}
