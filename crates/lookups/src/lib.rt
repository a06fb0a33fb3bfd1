// Lookups in a rule file whose records stand at known places: the entry of a table of places, what the record of a function says,
// where the constructors of a type stand, where the fields of a constructor do and how many there are. Rests on crate marks.
#![tactic(auto)]

ghost use Rattle.std.specs.Prelude.{◌≡◌, ◌+◌, ◌*◌, ◌<◌, ◌≤◌, get_or, ℕ};

use marks::{byte_or_zero, word_or_zero};

// A rule file whose records stand at known places: its bytes, and where the records of its types and functions stand behind their marks.
#[derive(Clone, Copy)]
pub struct Rules<'a> {
    pub file: &'a [u8],
    pub types: &'a [u16],
    pub functions: &'a [u16],
    ghost bytes: { (i : ℕ) → get_or file.now i 0 ≤ 255 },
}

// Where the types of a constructor's fields or of a function's parameters stand, and how many there are.
#[derive(Clone, Copy)]
pub struct FieldTypes {
    pub at: usize,
    pub count: usize,
    pub ghost near: { at ≤ 1000000 },
    pub ghost few: { count ≤ 255 },
}

// What the record of a function says: where its parameters' types stand, its result's type, and where its body stands and how many bytes it has.
#[derive(Clone, Copy)]
pub struct Head {
    pub parameters: FieldTypes,
    pub result: usize,
    pub body: usize,
    pub size: usize,
}

// Where the constructors of a type stand, and how many there are. (Not one struct with the one before: there each byte is a type, here each constructor fills
// as many bytes as it has fields, and one more, so that no function takes either.)
#[derive(Clone, Copy)]
pub struct Constructors {
    pub at: usize,
    pub count: usize,
}

// The constructors whose records stand from a place of the file on, one after the other: where the fields of each stand.
#[derive(Clone, Copy)]
pub struct EachConstructor<'a> {
    pub file: &'a [u8],
    pub at: usize,
    pub left: usize,
    pub ghost near: { at + 256 * left < 1000000 },
}

// The entry of a table of places, or 0 past its end. For each width its own (marks has that for bytes): its bound is part of what it promises.
pub fn place_or_zero(places: &[u16], n: usize) -> usize
    ensures { (result ≡ get_or places.now n 0) × (result ≤ 65535) }
{
    places.get(n).map_or(0, |place| usize::from(*place))
}

impl<'a> Iterator for EachConstructor<'a> {
    ghost use Rattle.std.specs.Iterator.{YieldsFirstBy, at_most};
    ghost use Rattle.lookups.specs.Fields.{place_of, places_left};

    type Item = FieldTypes;

    ghost next_gives = { YieldsFirstBy place_of places_left };

    ghost remaining = { λ each. at_most each.left };

    fn next(&mut self) -> Option<FieldTypes> {
        if self.left == 0 {
            return None;
        }
        let fields = FieldTypes {
            at: self.at + 1,
            count: byte_or_zero(self.file, self.at),
        };
        self.left -= 1;
        self.at = fields.at + fields.count;
        Some(fields)
    }
}

impl<'a> Rules<'a> {
    ghost use Rattle.std.specs.Prelude.{◌≡◌, ◌≤◌, get_or};
    ghost use Rattle.reach.specs.Places.{constructors_at, type_at, head_at};
    ghost use Rattle.lookups.specs.Fields.{fields_in, FieldCount, field_types, NearFields, constructors_left};
    ghost use Rattle.lookups.specs.Heads.{head_of, NearHead, NearType};

    // What the record of function f says.
    pub fn head(&self, f: usize) -> Head
        ensures result_value { head_of self.now.file.now result ≡ head_at self.now.file.now (get_or self.now.functions.now f 0) }
        ensures near { NearHead result }
    {
        let place = place_or_zero(self.functions, f);
        let count = byte_or_zero(self.file, place);
        Head {
            parameters: FieldTypes {
                at: place + 1,
                count,
            },
            result: byte_or_zero(self.file, place + 1 + count),
            body: place + 4 + count,
            size: word_or_zero(self.file, place + 2 + count),
        }
    }

    // The constructors of type t.
    pub fn constructors(&self, t: usize) -> Constructors
        ensures count_value { constructors_at self.now.file.now result.at result.count ≡ type_at self.now.file.now (get_or self.now.types.now t 0) }
        ensures near { NearType result }
    {
        let place = place_or_zero(self.types, t);
        Constructors {
            at: place + 1,
            count: byte_or_zero(self.file, place),
        }
    }

    // The constructors of type t, one after the other.
    pub fn each_constructor(&self, t: usize) -> EachConstructor<'a>
        ensures file { result.file.now ≡ self.now.file.now }
        ensures constructors { constructors_left result ≡ type_at self.now.file.now (get_or self.now.types.now t 0) }
    {
        let all = self.constructors(t);
        EachConstructor {
            file: self.file,
            at: all.at,
            left: all.count,
        }
    }

    // Where the fields of constructor c of type t stand.
    pub fn fields(&self, t: usize, c: usize) -> Option<FieldTypes>
        ensures result_value { field_types self.now.file.now result ≡ fields_in self.now.file.now self.now.types.now t c }
        ensures near { NearFields result }
    {
        if self.types.len() <= t {
            return None;
        }
        let mut each = self.each_constructor(t);
        // (Asked before any is passed: a number that the type does not have is known at once.)
        if each.left <= c {
            return None;
        }
        each.nth(c)
    }

    // How many fields a constructor has.
    pub fn field_count(&self, t: usize, c: usize) -> usize
        ensures { FieldCount self.now.file.now self.now.types.now t c result }
    {
        self.fields(t, c).map_or(0, |fields| fields.count)
    }
}
