// The table of the ends of expressions: an entry for each place of a rule file. Where an expression stands, its entry is the place
// behind it. The table is filled once, from the last place to the first, each entry from entries behind it. Rests on crates marks
// and lookups; the definitions also on machine.
#![tactic(auto)]

ghost use Rattle.std.specs.Prelude.{◌≡◌, max, ◌+◌, ◌≤◌, ◌<◌, length, get_or};
ghost use Rattle.skipping.specs.Ends.{passed_operands, passed_alternative, passed_alternatives, Ends, EndAt, EndsFrom};

use lookups::{Rules, place_or_zero};
use marks::byte_or_zero;

// A rule file with the table of the ends of its expressions.
#[derive(Clone, Copy)]
pub struct Program<'a> {
    pub rules: Rules<'a>,
    pub ends: &'a [u16],
}

impl<'a> Program<'a> {
    // The place behind the expression at a place, or 0 where there is no end: that is what the table holds.
    pub fn end(&self, at: usize) -> usize
        ensures { (result ≡ get_or self.now.ends.now at 0) × (result ≤ 65535) }
    {
        place_or_zero(self.ends, at)
    }

    // The place behind n expressions that stand one after the other from a place on.
    pub fn pass_operands(&self, at: usize, n: usize) -> usize
        ensures { result ≡ passed_operands self.now.ends.now n at }
    {
        let mut place = at;
        for _ in 0..n {
            place = self.end(place);
        }
        place
    }

    // The place behind one alternative: a byte 0, or another byte and an expression.
    fn pass_alternative(&self, at: usize) -> usize
        requires { at ≤ 8600000000 }
        ensures value { result ≡ passed_alternative self.now.rules.file.now self.now.ends.now at }
        ensures near { result ≤ max at 65535 + 1 }
    {
        if byte_or_zero(self.rules.file, at) == 0 {
            return at + 1;
        }
        self.end(at + 1)
    }

    // The place behind the alternatives of n constructors: for each a byte 0, or another byte and an expression. (A loop like that of `pass_operands`: one
    // function for both would take the step as a closure with its law, for a loop of one line.)
    pub fn pass_alternatives(&self, at: usize, n: usize) -> usize
        requires { (at < 4294967296) × (n < 4294967296) }
        ensures value { result ≡ passed_alternatives self.now.rules.file.now self.now.ends.now n at }
        ensures near { result ≤ max at 65535 + n }
    {
        let mut place = at;
        for _ in 0..n {
            place = self.pass_alternative(place);
        }
        place
    }

    // The place behind the expression at a place, whose operands' ends are in the table. (The codes as numbers: this is asked at every byte of the file,
    // most of which begin no expression, so that each number has an answer, and a conversion would have none for most of them.)
    fn end_of(&self, at: usize) -> usize
        requires { let r = self.now.rules in EndsFrom r.file.now r.types.now r.functions.now self.now.ends.now (at + 1) × (at < 16384) }
        ensures { let r = self.now.rules in EndAt r.file.now r.types.now r.functions.now at result }
    {
        let rules = &self.rules;
        let code = byte_or_zero(rules.file, at);
        let first = byte_or_zero(rules.file, at + 1);
        match code {
            0 => at + 2,
            1 => {
                let head = rules.head(first);
                self.pass_operands(at + 2, head.parameters.count)
            }
            2 => {
                let Some(fields) = rules.fields(first, byte_or_zero(rules.file, at + 2)) else {
                    return 0;
                };
                self.pass_operands(at + 3, fields.count)
            }
            3 => {
                let all = rules.constructors(first);
                self.pass_alternatives(self.end(at + 2), all.count)
            }
            4 => self.pass_operands(at + 2, 2),
            _ => self.pass_operands(at + 2, 1),
        }
    }
}

// A rule file with its table of ends, which is filled.
pub fn with_ends<'a>(rules: Rules<'a>, ends: &'a mut [u16]) -> Program<'a>
    requires { (length rules.file.now ≤ 16384) × (length rules.file.now ≤ length ends.old) }
    ensures rules { result.rules ≡ rules.entry }
    ensures ends { let r = result.rules in Ends r.file.now r.types.now r.functions.now result.ends.now }
{
    fill_ends(&rules, ends);
    Program { rules, ends }
}

// A place as an entry of the table, or 0 where it is too high for one.
fn entry_of(place: usize) -> u16
    ensures { place ≤ 65535 → result ≡ place }
{
    u16::try_from(place).unwrap_or(0)
}

// Fills the table of ends, from the last place of the file to the first.
pub fn fill_ends(rules: &Rules, ends: &mut [u16])
    requires { (length rules.now.file.now ≤ 16384) × (length rules.now.file.now ≤ length ends.old) }
    ensures { let r = rules.now in Ends r.file.now r.types.now r.functions.now ends.new }
{
    for at in (0..rules.file.len()).rev() {
        let program = Program {
            rules: *rules,
            ends,
        };
        ends[at] = entry_of(program.end_of(at));
    }
}
