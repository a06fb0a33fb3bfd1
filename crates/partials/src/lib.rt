// Reading values where they stand, partial or closed ones: of given types, in prefix form, with the place behind them and how deep the deepest is. Rests on
// crates marks and rows.
#![tactic(auto)]

ghost use Rattle.std.specs.Prelude.{◌≡◌, ◌≤◌};
ghost use Rattle.rows.specs.Values.{of_value, value_at, table_of, DeepAtMost};
ghost use Rattle.rows.specs.Stack.{Low, of_rest};

use marks::byte_or_zero;
use rows::{First, Measured, Row, Values};

// The values of a row, each below at most so many constructors. The rows above the present one wait on a stack, each at the value that is being read. Each turn
// of the loop takes a byte, or goes on with the row above. (A `while`: the values say how many turns there are. An array
// with `top` beside it: the library has no heap, and values go below at most 64 constructors.)
fn row_values(values: &Values, at: usize, mut row: Row, levels: usize) -> Option<Measured>
    requires { Low levels row × (levels ≤ 64) }
    ensures value { let v = values.now in result ≡ of_rest v.rules.file.now v.rules.types.now (table_of v.least) levels v.list.now at row }
    ensures near { DeepAtMost levels result }
{
    let mut stack = [row; 64];
    let mut top = 0;
    let mut next = at;
    while 0 < top + usize::from(row.more) {
        if row.more == 0 {
            top -= 1;
            row = stack[top].past(usize::from(row.deep) + 1);
        } else {
            let t = byte_or_zero(values.rules.file, row.field as usize);
            match values.first_byte(next, t, levels - top)? {
                First::Part(part) => {
                    next = part.next;
                    row = row.past(part.deep);
                }
                First::Node(behind, below) => {
                    stack[top] = row;
                    top += 1;
                    next = behind;
                    row = below;
                }
            }
        }
    }
    let deep = usize::from(row.deep);
    Some(Measured { next, deep })
}

// A value of type t, below at most so many constructors.
pub fn value(values: &Values, at: usize, t: usize, levels: usize) -> Option<Measured>
    requires { levels ≤ 64 }
    ensures value { let v = values.now in result ≡ of_value (value_at v.rules.file.now v.rules.types.now (table_of v.least) levels t v.list.now at) }
    ensures near { DeepAtMost levels result }
{
    match values.first_byte(at, t, levels)? {
        First::Part(part) => Some(part),
        First::Node(next, row) => {
            let fields = row_values(values, next, row, levels - 1)?;
            Some(Measured {
                deep: fields.deep + 1,
                ..fields
            })
        }
    }
}
