// What is written to the search's list from a place on: a byte, and the header of an entry, its mark, its steps, and how many bytes follow. Rests on crate
// reach.
#![tactic(auto)]

ghost use Rattle.std.specs.Prelude.{◌≡◌, [], ◌∷◌, ◌++◌, ◌+◌, ◌≤◌, ◌<◌, get_or, length};
ghost use Rattle.reach.specs.Lists.{word_bytes, kind_bytes};
ghost use Rattle.headers.specs.Writes.{Writes};

use reach::Kind;

// A lent list, and the place behind what is written in it.
#[derive(Drop)]
pub struct Writer<'a> {
    pub list: &'a mut [u8],
    pub at: usize,
}

impl Writer<'_> {
    // Writes one byte.
    pub fn byte(&mut self, b: u8)
        requires { self.old.at < length self.old.list.now }
        ensures { Writes self.old (b ∷ []) self.new }
    {
        self.list[self.at] = b;
        self.at += 1;
    }

    // Writes two bytes, one behind the other.
    fn two(&mut self, bytes: &[u8; 2])
        requires { self.old.at + 2 ≤ length self.old.list.now }
        ensures { Writes self.old (get_or bytes.now 0 0 ∷ get_or bytes.now 1 0 ∷ []) self.new }
    {
        self.byte(bytes[0]);
        self.byte(bytes[1]);
    }

    // Writes the mark of an entry of this kind.
    fn mark(&mut self, kind: Kind)
        requires { self.old.at + 2 ≤ length self.old.list.now }
        ensures { Writes self.old (kind_bytes kind) self.new }
    {
        match kind {
            Kind::RE => self.two(b"RE"),
            Kind::UN => self.two(b"UN"),
            Kind::MI => self.two(b"MI"),
        }
    }

    // Writes a two-byte number, the low byte first.
    fn word(&mut self, n: usize)
        requires { self.old.at + 2 ≤ length self.old.list.now }
        ensures { Writes self.old (word_bytes n) self.new }
    {
        self.two(&((n % 65536) as u16).to_le_bytes());
    }

    // Writes the mark, the steps, and how many bytes follow.
    pub fn header(&mut self, kind: Kind, steps: usize, bytes: usize)
        requires { self.old.at + 6 ≤ length self.old.list.now }
        ensures { Writes self.old (kind_bytes kind ++ (word_bytes steps ++ word_bytes bytes)) self.new }
    {
        self.mark(kind);
        self.word(steps);
        self.word(bytes);
    }
}
