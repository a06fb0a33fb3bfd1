// A value for each slot, at most as deep as the slot allows, and how deep the deepest is. Rests on crates marks, goal, rows and partials.
#![tactic(auto)]

ghost use Rattle.std.specs.Prelude.{◌≡◌};
ghost use Rattle.reach.specs.Places.{bytes_at};
ghost use Rattle.rows.specs.Values.{of_row, slots_at, table_of};

use goal::depth_at;
use lookups::FieldTypes;
use marks::byte_or_zero;
use partials::value;
use rows::{Measured, Values};

// A value for each of these types, each at most as deep as the depth of its number. Each turn of the loop reads one.
pub fn slots(values: &Values, at: usize, fields: FieldTypes, depths: [u8; 8]) -> Option<Measured>
    ensures { let v = values.now in
        result ≡ of_row (slots_at v.rules.file.now v.rules.types.now (table_of v.least) depths (bytes_at v.rules.file.now fields.at fields.count)
        v.list.now at) }
{
    let mut next = at;
    let mut deep = 0;
    for i in 0..fields.count {
        let t = byte_or_zero(values.rules.file, fields.at + i);
        let one = value(values, next, t, 64)?;
        if depth_at(depths, i) < one.deep {
            return None;
        }
        next = one.next;
        deep = one.deep.max(deep);
    }
    Some(Measured { next, deep })
}
