// The test of refusal 15: the type that NA names has the form of names. It has two constructors, 0 without fields and 1 with three: two halves of a
// byte, which are types with sixteen constructors without fields, and the named type. Rests on crates marks and lookups.
#![tactic(auto)]

ghost use Rattle.std.specs.Prelude.{◌≡◌, map, get_or};
ghost use Rattle.reach.specs.Names.{is_half};
ghost use Rattle.reach.specs.Places.{type_at};
ghost use Rattle.spelling.specs.Letter.{has_letter};

use lookups::Rules;
use marks::byte_or_zero;

// None of the constructors of type t has a field.
fn fieldless(rules: &Rules, t: usize) -> bool
    ensures { result ≡ Rattle.reach.specs.Names.fieldless (type_at rules.now.file.now (get_or rules.now.types.now t 0)) }
{
    rules.each_constructor(t).all(|fields| fields.count == 0)
}

// Type t is a half of a byte. A number that is no type's is none.
fn is_half(rules: &Rules, t: usize) -> bool
    ensures { result ≡ is_half (map (type_at rules.now.file.now) rules.now.types.now) t }
{
    if rules.types.len() <= t {
        return false;
    }
    rules.constructors(t).count == 16 && fieldless(rules, t)
}

// Constructor 1 of type t has the fields of a letter: two halves, and the rest of a name, which is of type t.
fn is_letter(rules: &Rules, t: usize) -> bool
    ensures { result ≡ has_letter (map (type_at rules.now.file.now) rules.now.types.now) t }
{
    let Some(fields) = rules.fields(t, 1) else {
        return false;
    };
    if fields.count != 3 {
        return false;
    }
    is_half(rules, byte_or_zero(rules.file, fields.at))
        && is_half(rules, byte_or_zero(rules.file, fields.at + 1))
        && byte_or_zero(rules.file, fields.at + 2) == t
}

// Type t has the form of names.
pub fn spells(rules: &Rules, t: usize) -> bool
    ensures { result ≡ Rattle.reach.specs.Names.spells (map (type_at rules.now.file.now) rules.now.types.now) t }
{
    if rules.types.len() <= t {
        return false;
    }
    let all = rules.constructors(t);
    if all.count != 2 {
        return false;
    }
    byte_or_zero(rules.file, all.at) == 0 && is_letter(rules, t)
}
