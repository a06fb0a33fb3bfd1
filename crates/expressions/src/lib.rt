// The check of an expression, that of its operands and that of its alternatives, which call each other; the nesting that is left falls. Records of types
// and functions are looked at where the first pass found them. Rests on crates marks, typerecord and lookups.
#![tactic(auto)]

ghost use Rattle.std.specs.Prelude.{◌≤◌};
ghost use Rattle.expressions.specs.Tables.{TablesSmall};

use lookups::{FieldTypes, Rules};
use marks::{byte_or_zero, take_byte};
use reach::Refusal;

const VIEW_LIMIT: usize = 32;

// The types of the variables in view. A view beyond the limit is refused at the next expression, so 8 more are enough. (An array of 40 with a count: the
// library has no heap, and a view is copied and grows, as no slice does. Not a table of outline, which is lent and holds places.)
#[derive(Clone, Copy)]
pub struct View {
    pub types: [u8; 40],
    pub count: usize,
    pub ghost few: { count ≤ 40 },
}

// What the place of an expression gives it: how many levels may still nest there, the variables in view, and the type that is expected.
#[derive(Clone, Copy)]
pub struct Scope {
    pub left: usize,
    pub view: View,
    pub expected: usize,
}

// The bytes up to the end of a body, and the rules that it is checked by: those of a file that the first pass let through.
#[derive(Clone, Copy)]
pub struct Body<'a> {
    pub rules: Rules<'a>,
    pub bytes: &'a [u8],
    pub ghost small: { TablesSmall rules.file.now rules.types.now rules.functions.now },
}

impl View {
    ghost use Rattle.std.specs.Prelude.{◌≡◌, [], ◌∷◌, ◌++◌, ◌+◌, ◌≤◌};
    ghost use Rattle.reach.specs.Places.{bytes_at};
    ghost use Rattle.expressions.specs.Readers.{view_of};

    // No variables.
    pub fn empty() -> View
        ensures types { view_of result ≡ [] }
        ensures many { result.count ≡ 0 }
    {
        View {
            types: [0; 40],
            count: 0,
        }
    }

    // The view with one more variable.
    fn with(self, t: usize) -> View
        requires room { self.count ≤ 39 }
        requires small { t ≤ 255 }
        ensures types { view_of result ≡ view_of self ++ (t ∷ []) }
        ensures many { result.count ≡ self.count + 1 }
    {
        let mut types = self.types;
        types[self.count] = t as u8;
        View {
            types,
            count: self.count + 1,
        }
    }

    // The view with more variables, of these types.
    pub fn extended(self, s: &[u8], fields: FieldTypes) -> View
        requires room { self.count + fields.count ≤ 40 }
        ensures types { view_of result ≡ view_of self ++ bytes_at s.now fields.at fields.count }
        ensures many { result.count ≡ self.count + fields.count }
    {
        let mut wider = self;
        for i in 0..fields.count {
            wider = wider.with(byte_or_zero(s, fields.at + i));
        }
        wider
    }
}

impl Scope {
    ghost use Rattle.expressions.specs.Readers.{Inside};

    // The same one level deeper, where nesting is left and the view is within its limit.
    fn inside(self) -> Result<Scope, Refusal>
        ensures { Inside self result }
    {
        if self.left == 0 || VIEW_LIMIT < self.view.count {
            return Err(Refusal::OutOfRange);
        }
        Ok(Scope {
            left: self.left - 1,
            ..self
        })
    }
}

impl<'a> Body<'a> {
    ghost use Rattle.std.specs.Prelude.{◌≡◌, ◌<◌, ◌≤◌, length, get_or};
    ghost use Rattle.reach.specs.Places.{bytes_at, type_at};
    ghost use Rattle.typerecord.specs.Passed.{passed_of};
    ghost use Rattle.expressions.specs.Readers.{found, view_of, variable_at, call_at, construct_at, case_at, let_at, target_at, expression_at, operands_at, alternative_at, alternatives_at};

    // A variable: its number; its type is that of the view.
    fn variable(&self, at: usize, scope: Scope) -> Result<usize, Refusal>
        ensures { result ≡ passed_of (variable_at scope.left (view_of scope.view) scope.expected self.now.bytes.now at) }
    {
        let (number, next) = take_byte(self.bytes, at)?;
        let n = usize::from(number);
        if scope.view.count <= n {
            return Err(Refusal::UnknownNumber);
        }
        let inside = scope.inside()?;
        if usize::from(inside.view.types[n]) != scope.expected {
            return Err(Refusal::TypeMismatch);
        }
        Ok(next)
    }

    // An expression, which may nest so many deep: its code, and what its kind reads behind it. (The codes as numbers: an enum would be read off them by a
    // second match of the same arms.)
    #[cycle(expressions)]
    pub fn expression(&self, at: usize, scope: Scope) -> Result<usize, Refusal>
        ensures { result ≡ found expression_at self.now.rules scope self.now.bytes.now at }
    {
        let (code, next) = take_byte(self.bytes, at)?;
        match code {
            0 => self.variable(next, scope),
            1 => self.call(next, scope),
            2 => self.construct(next, scope),
            3 => self.case(next, scope),
            4 => self.let_expression(next, scope),
            5 => self.target(next, scope),
            _ => Err(Refusal::UnknownCode),
        }
    }

    // A call: the function's number, and an operand for each of its parameters.
    #[cycle(expressions)]
    fn call(&self, at: usize, scope: Scope) -> Result<usize, Refusal>
        ensures { result ≡ found call_at self.now.rules scope self.now.bytes.now at }
    {
        let (number, next) = take_byte(self.bytes, at)?;
        let f = usize::from(number);
        if self.rules.functions.len() <= f {
            return Err(Refusal::UnknownNumber);
        }
        let inside = scope.inside()?;
        let head = self.rules.head(f);
        if head.result != scope.expected {
            return Err(Refusal::TypeMismatch);
        }
        self.operands(next, inside, head.parameters)
    }

    // A construction: the type's and the constructor's number, and an operand for each field.
    #[cycle(expressions)]
    fn construct(&self, at: usize, scope: Scope) -> Result<usize, Refusal>
        ensures { result ≡ found construct_at self.now.rules scope self.now.bytes.now at }
    {
        let (number, middle) = take_byte(self.bytes, at)?;
        let (c, next) = take_byte(self.bytes, middle)?;
        let t = usize::from(number);
        let Some(fields) = self.rules.fields(t, usize::from(c)) else {
            return Err(Refusal::UnknownNumber);
        };
        let inside = scope.inside()?;
        if t != scope.expected {
            return Err(Refusal::TypeMismatch);
        }
        self.operands(next, inside, fields)
    }

    // A case: the type's number, the subject, and an alternative or none for each constructor of the type. (Not one function with a let, which it is like up to
    // the first expression: the two make other expressions, and each step of the reader's law would be said twice.)
    #[cycle(expressions)]
    fn case(&self, at: usize, scope: Scope) -> Result<usize, Refusal>
        ensures { result ≡ found case_at self.now.rules scope self.now.bytes.now at }
    {
        let (number, next) = take_byte(self.bytes, at)?;
        let t = usize::from(number);
        if self.rules.types.len() <= t {
            return Err(Refusal::UnknownNumber);
        }
        let inside = scope.inside()?;
        let subject = self.expression(
            next,
            Scope {
                expected: t,
                ..inside
            },
        );
        let Ok(first) = subject else {
            return subject;
        };
        self.alternatives(first, inside, t)
    }

    // A let: the type's number, the bound expression, and the body, which sees one more variable.
    #[cycle(expressions)]
    fn let_expression(&self, at: usize, scope: Scope) -> Result<usize, Refusal>
        ensures { result ≡ found let_at self.now.rules scope self.now.bytes.now at }
    {
        let (number, next) = take_byte(self.bytes, at)?;
        let t = usize::from(number);
        if self.rules.types.len() <= t {
            return Err(Refusal::UnknownNumber);
        }
        let inside = scope.inside()?;
        let bound = self.expression(
            next,
            Scope {
                expected: t,
                ..inside
            },
        );
        let Ok(behind) = bound else {
            return bound;
        };
        self.expression(
            behind,
            Scope {
                view: inside.view.with(t),
                ..inside
            },
        )
    }

    // A target: the label, and the expression inside.
    #[cycle(expressions)]
    fn target(&self, at: usize, scope: Scope) -> Result<usize, Refusal>
        ensures { result ≡ found target_at self.now.rules scope self.now.bytes.now at }
    {
        let (_, next) = take_byte(self.bytes, at)?;
        let inside = scope.inside()?;
        self.expression(next, inside)
    }

    // An expression for each of these types. (Here and where else an answer of an inner expression is asked: 01 names the form `let .. else`.)
    #[cycle(expressions)]
    fn operands(&self, at: usize, scope: Scope, fields: FieldTypes) -> Result<usize, Refusal>
        ensures { let r = self.now.rules in
            result ≡ passed_of (operands_at r.file.now r.types.now r.functions.now scope.left (view_of scope.view) (bytes_at r.file.now fields.at
            fields.count) self.now.bytes.now at) }
    {
        let mut place = at;
        for i in 0..fields.count {
            let expected = byte_or_zero(self.rules.file, fields.at + i);
            let operand = self.expression(place, Scope { expected, ..scope });
            let Ok(next) = operand else {
                return operand;
            };
            place = next;
        }
        Ok(place)
    }

    // An alternative or none for each constructor of type t.
    #[cycle(expressions)]
    fn alternatives(&self, at: usize, scope: Scope, t: usize) -> Result<usize, Refusal>
        requires seen { scope.view.count ≤ 32 }
        requires known { t < length self.now.rules.types.now }
        ensures { let r = self.now.rules in
            result ≡ passed_of (alternatives_at r.file.now r.types.now r.functions.now scope.left (view_of scope.view) scope.expected (type_at r.file.now
            (get_or r.types.now t 0)) self.now.bytes.now at) }
    {
        let mut place = at;
        for fields in self.rules.each_constructor(t) {
            let alternative = self.alternative(place, scope, fields);
            let Ok(next) = alternative else {
                return alternative;
            };
            place = next;
        }
        Ok(place)
    }

    // A byte: 0 for no alternative, or 1 and an expression that sees the fields too.
    #[cycle(expressions)]
    fn alternative(&self, at: usize, scope: Scope, fields: FieldTypes) -> Result<usize, Refusal>
        requires seen { scope.view.count ≤ 32 }
        requires few { fields.count ≤ 6 }
        ensures { let r = self.now.rules in
            result ≡ passed_of (alternative_at r.file.now r.types.now r.functions.now scope.left (view_of scope.view) scope.expected (bytes_at r.file.now
            fields.at fields.count) self.now.bytes.now at) }
    {
        let (b, next) = take_byte(self.bytes, at)?;
        if 1 < b {
            return Err(Refusal::UnknownCode);
        }
        if b == 0 {
            return Ok(next);
        }
        let view = scope.view.extended(self.rules.file, fields);
        self.expression(next, Scope { view, ..scope })
    }
}
