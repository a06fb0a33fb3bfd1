// The records of one kind in a rule file, by their places. A caller lends the tables: more than 128 bytes are not moved, since that would ask for memcpy.
#![tactic(auto)]

ghost use Rattle.std.specs.Prelude.{◌≡◌, ◌+◌, ◌≤◌, ◌<◌, length, set, take};

// At most N records of one kind: how many there are, and where each one's record stands behind its mark. (An array and a count: the library has no heap.)
#[derive(Clone, Copy)]
pub struct Table<const N: usize> {
    pub count: usize,
    pub places: [u16; N],
    pub ghost in_limits: { count ≤ N },
}

impl<const N: usize> Table<N> {
    // No record yet.
    pub fn new() -> Self
        ensures { (result.count ≡ 0) × (length result.places ≡ N) }
    {
        Table {
            count: 0,
            places: [0; N],
        }
    }

    // No record any more.
    pub fn clear(&mut self)
        ensures { (self.new.count ≡ 0) × (length self.new.places ≡ N) }
    {
        self.count = 0;
    }

    // One more record, at a place.
    pub fn push(&mut self, place: u16)
        requires { self.old.count < N }
        ensures { (self.new.count ≡ self.old.count + 1) × (self.new.places ≡ set self.old.places self.old.count place) }
    {
        self.places[self.count] = place;
        self.count += 1;
    }

    // The places of the records.
    pub fn as_slice(&self) -> &[u16]
        ensures places { result.now ≡ take self.now.count self.now.places }
        ensures count { length result.now ≡ self.now.count }
    {
        &self.places[..self.count]
    }
}

// The places of the types and of the functions of a rule file.
#[derive(Clone, Copy)]
pub struct Tables {
    pub types: Table<32>,
    pub functions: Table<64>,
}

impl Tables {
    // No record yet.
    pub fn new() -> Self
        ensures { (result.types.count ≡ 0) × (result.functions.count ≡ 0) }
    {
        Tables {
            types: Table::new(),
            functions: Table::new(),
        }
    }
}
