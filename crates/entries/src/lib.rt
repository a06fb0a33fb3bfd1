// The entries of a list, read back: the entry of a given number, handed back as the part of the caller's list that it fills. No byte is copied. Rests on
// crates reach and sizes.
#![tactic(auto)]

ghost use Rattle.std.specs.Prelude.{◌≡◌, ◌≤◌, ◌-◌, length};
ghost use Rattle.reach.specs.Lists.{entry_span, entry_part, room_of};
ghost use Rattle.entries.specs.Spans.{span_of, bytes_on, part_place};

use sizes::size_at;

// Of a list only the first 16,777,216 bytes count.
const LIST_LIMIT: usize = 16777216;

// Where an entry begins, and how many bytes it fills.
#[derive(Clone, Copy)]
pub struct Span {
    pub at: usize,
    pub size: usize,
}

// The entries that stand one behind the other from a place of a list on.
#[derive(Clone, Copy)]
pub struct EachEntry<'a> {
    pub list: &'a [u8],
    pub at: usize,
    pub ghost inside: { at ≤ length list.now },
}

impl<'a> Iterator for EachEntry<'a> {
    ghost use Rattle.std.specs.Iterator.{at_most};
    ghost use Rattle.entries.specs.Each.{Comes};

    type Item = Span;

    ghost next_gives = { Comes };

    ghost remaining = { λ each. at_most (length each.list.now - each.at) };

    fn next(&mut self) -> Option<Span> {
        let at = self.at;
        let size = size_at(self.list, at)?;
        self.at += size;
        Some(Span { at, size })
    }
}

// The entries of a list.
pub fn each_entry(list: &[u8]) -> EachEntry<'_>
    ensures { (result.list.now ≡ list.now) × (result.at ≡ 0) }
{
    EachEntry { list, at: 0 }
}

// Where the entry of a given number stands, counted from 0, if there is one.
pub fn span_of(list: &[u8], number: usize) -> Option<Span>
    ensures { span_of result ≡ entry_span list.now number 0 }
{
    each_entry(list).nth(number)
}

// How many of so many bytes count.
pub fn room(size: usize) -> usize
    ensures { result ≡ room_of size }
{
    size.min(LIST_LIMIT)
}

// The entry of a given number, counted from 0; else the empty part at the list's end. What is handed back points into the caller's list.
pub fn entry(list: &[u8], number: usize) -> &[u8]
    ensures result_value { result.now ≡ entry_part list.now number }
    ensures place { result.ref_ptr ≡ bytes_on list.entry.ref_ptr (part_place list.now number) }
{
    let end = room(list.len());
    let Some(Span { at, size }) = span_of(&list[..end], number) else {
        return &list[end..end];
    };
    let stop = at + size;
    &list[at..stop]
}
