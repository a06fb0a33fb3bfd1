// Text written into a lent slice: a byte, a word, a number. A page goes on behind each text, also where the slice is too short for it: so a caller sees
// by the place whether all of it was written. Rests on the definitions of crates reach and lists.
#![tactic(auto)]

ghost use Rattle.std.specs.Prelude.{◌≡◌, [], ◌∷◌, ◌+◌, ◌≤◌, ◌<◌, length};
ghost use Rattle.lists.specs.Text.{space, digit, decimal};
ghost use Rattle.writing.specs.Writing.{Puts};

// A lent slice, and the place of the next byte in it.
#[derive(Drop)]
pub struct Page<'a> {
    pub text: &'a mut [u8],
    pub at: usize,
}

impl Page<'_> {
    // Puts one byte.
    pub fn byte(&mut self, b: u8)
        requires { self.old.at < 9223372036854775808 }
        ensures { Puts self.old (b ∷ []) self.new }
    {
        if self.at < self.text.len() {
            self.text[self.at] = b;
        }
        self.at += 1;
    }

    // Puts the bytes of a word.
    pub fn bytes(&mut self, word: &[u8])
        requires { (length word.now ≤ 4096) × (self.old.at < 4611686018427387904) }
        ensures { Puts self.old word.now self.new }
    {
        for b in word {
            self.byte(*b);
        }
    }

    // Puts a number in decimal: the digits before the last one, if there are any, and the last. (By hand: the clause says which bytes are put, also behind
    // the end of the slice.)
    pub fn decimal(&mut self, n: u64)
        requires { self.old.at + n < 9223372036854775808 }
        ensures { Puts self.old (decimal n) self.new }
    {
        if 10 <= n {
            self.decimal(n / 10);
        }
        self.byte(last_digit(n));
    }

    // Puts a space and a number.
    pub fn number(&mut self, n: u64)
        requires { self.old.at + n < 4611686018427387904 }
        ensures { Puts self.old (space ∷ decimal n) self.new }
    {
        self.byte(b' ');
        self.decimal(n);
    }
}

// The last digit of a number, in ASCII.
fn last_digit(n: u64) -> u8
    ensures { result ≡ digit n }
{
    48 + (n % 10) as u8
}
