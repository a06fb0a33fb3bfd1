// Values that stand in a list, the rows of them that are being read, and the first byte of a value: what it says, and how deep an open part is. Rests on
// crates marks and lookups.
#![tactic(auto)]

ghost use Rattle.std.specs.Prelude.{◌≡◌, ◌≤◌, ◌<◌};
ghost use Rattle.rows.specs.Values.{of_value, of_open, manner_of, table_of, value_at, DeepAtMost};
ghost use Rattle.rows.specs.Stack.{past_of, of_first, NearFirst};

use lookups::Rules;
use marks::byte_or_zero;

// What stands for an open part.
const OPEN_PART: u8 = 255;

// The place behind what was read, and how deep it is.
#[derive(Clone, Copy)]
pub struct Measured {
    pub next: usize,
    pub deep: usize,
}

// A row of values that is being read: where the type of the next one stands, how many are left, and how deep the deepest before is. (In narrower numbers than
// `FieldTypes`, since 64 rows are kept.)
#[derive(Clone, Copy)]
pub struct Row {
    pub field: u32,
    pub more: u8,
    pub deep: u16,
}

// What the first byte of a value says: an open part; or a constructor, by the place behind its number and the row of its fields.
#[derive(Clone, Copy)]
pub enum First {
    Part(Measured),
    Node(usize, Row),
}

// A list of values of a rule file's types. `least` is the table of the types' least depths, where values may be open; without it they are closed.
#[derive(Clone, Copy)]
pub struct Values<'a> {
    pub rules: Rules<'a>,
    pub least: Option<&'a [u8]>,
    pub list: &'a [u8],
}

impl Row {
    // The row past its next value, which is so deep.
    pub fn past(self, one: usize) -> Row
        requires { (self.field ≤ 1000255) × (0 < self.more) × (one ≤ 65535) }
        ensures { result ≡ past_of self one }
    {
        Row {
            field: self.field + 1,
            more: self.more - 1,
            deep: usize::from(self.deep).max(one) as u16,
        }
    }
}

impl<'a> Values<'a> {
    // An open part of type t, if there may be one: as deep as its type's least depth. Behind it stands the next place.
    pub fn open_part(&self, t: usize, next: usize) -> Option<Measured>
        ensures value { result ≡ of_open next ((manner_of (table_of self.now.least)).open_part t) }
        ensures near { DeepAtMost 0 result }
    {
        let deep = byte_or_zero(self.least?, t);
        Some(Measured { next, deep })
    }

    // The first byte of a value of type t, below at most so many constructors.
    pub fn first_byte(&self, at: usize, t: usize, levels: usize) -> Option<First>
        ensures at_value { let v = self.now in
            let r = v.rules in of_value (value_at r.file.now r.types.now (table_of v.least) levels t v.list.now at) ≡ of_first r.file.now r.types.now
            (table_of v.least) levels v.list.now result }
        ensures near { NearFirst levels self.now.list.now at result }
    {
        if self.list.len() <= at {
            return None;
        }
        let b = self.list[at];
        let next = at + 1;
        if b == OPEN_PART {
            return Some(First::Part(self.open_part(t, next)?));
        }
        if levels == 0 {
            return None;
        }
        let fields = self.rules.fields(t, usize::from(b))?;
        let row = Row {
            field: fields.at as u32,
            more: fields.count as u8,
            deep: 0,
        };
        Some(First::Node(next, row))
    }
}
