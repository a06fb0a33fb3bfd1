// The least depth of each type, that of its shallowest closed value, in an array of 32 numbers by value: filled round by round
// until a round changes nothing. 0 stands for a type without a closed value. Rests on crates marks and lookups.
#![tactic(auto)]

ghost use Rattle.std.specs.Prelude.{◌≡◌, [], ◌∷◌, map, ◌≤◌, length, get_or, take, ltb};
ghost use Rattle.reach.specs.Base.{pick};
ghost use Rattle.reach.specs.Types.{known, inhabited, least_depths, shallow};
ghost use Rattle.reach.specs.RuleFile.{no_empty_type};
ghost use Rattle.reach.specs.Places.{bytes_at, type_at};
ghost use Rattle.depths.specs.Table.{padded, RoundsMade, RoundMade};

use lookups::{FieldTypes, Rules};
use marks::byte_or_zero;

// The least depths, by type number. (An array of 32: the library has no heap, and a file has at most 32 types.)
#[derive(Clone, Copy, PartialEq, Eq)]
pub struct Depths {
    pub of: [u8; 32],
}

impl Depths {
    // The least depth of a type; 0 for a number that is no type's.
    pub fn depth_of(&self, t: usize) -> usize
        ensures value { result ≡ get_or self.now.of t 0 }
        ensures small { result ≤ 255 }
    {
        byte_or_zero(&self.of, t)
    }

    // A depth is known for each of these types.
    fn all_known(&self, s: &[u8], fields: FieldTypes) -> bool
        ensures { result ≡ known self.now.of (bytes_at s.now fields.at fields.count) }
    {
        (fields.at..fields.at + fields.count).all(|i| 0 < self.depth_of(byte_or_zero(s, i)))
    }

    // One of the constructors of type t has fields of known types only.
    fn is_inhabited(&self, rules: &Rules, t: usize) -> bool
        ensures { result ≡ inhabited self.now.of (type_at rules.now.file.now (get_or rules.now.types.now t 0)) }
    {
        rules
            .each_constructor(t)
            .any(|fields| self.all_known(rules.file, fields))
    }

    // The number of type t after round d: the number that it had, or else d if the type is inhabited by the table.
    fn renewed(&self, rules: &Rules, t: usize, d: u8) -> u8
        ensures { let had = get_or self.now.of t 0 in
            result ≡ pick (ltb 0 had) had (pick (inhabited self.now.of (type_at rules.now.file.now (get_or rules.now.types.now t 0))) d 0) }
    {
        let number = self.depth_of(t);
        if 0 < number {
            number as u8
        } else if self.is_inhabited(rules, t) {
            d
        } else {
            0
        }
    }

    // The table after one round more, where so many are made; none where that round changes nothing.
    fn next_round(&self, rules: &Rules, made: usize) -> Option<Depths>
        requires { RoundsMade rules.now.file.now rules.now.types.now made self.now.of }
        ensures { RoundMade rules.now.file.now rules.now.types.now made self.now result }
    {
        let mut table = *self;
        for t in 0..rules.types.len() {
            table.of[t] = self.renewed(rules, t, (made + 1) as u8);
        }
        if table == *self { None } else { Some(table) }
    }

    // Round by round, until one changes nothing. As many rounds as there are types are enough.
    pub fn least(rules: &Rules) -> Depths
        requires { length rules.now.types.now ≤ 32 }
        ensures { result.of ≡ padded (least_depths (map (type_at rules.now.file.now) rules.now.types.now)) }
    {
        let mut table = Depths { of: [0; 32] };
        for made in 0..rules.types.len() {
            let Some(next) = table.next_round(rules, made) else {
                return table;
            };
            table = next;
        }
        table
    }

    // Each of the first so many types has a closed value.
    pub fn none_empty(&self, types: usize) -> bool
        requires { types ≤ 32 }
        ensures { result ≡ no_empty_type (take types self.now.of) }
    {
        self.of[..types].iter().all(|d| 0 < *d)
    }

    // Type t has a closed value that is at most d deep.
    pub fn is_shallow(&self, t: usize, d: usize) -> bool
        ensures { result ≡ shallow self.now.of d (t ∷ []) }
    {
        let least = self.depth_of(t);
        0 < least && least <= d
    }

    // Each of these types has a closed value that is at most d deep. (A chain like that of `all_known`, of one line: one function for both would take the test
    // with its law.)
    pub fn all_shallow(&self, s: &[u8], fields: FieldTypes, d: usize) -> bool
        ensures { result ≡ shallow self.now.of d (bytes_at s.now fields.at fields.count) }
    {
        (fields.at..fields.at + fields.count).all(|i| self.is_shallow(byte_or_zero(s, i), d))
    }
}
