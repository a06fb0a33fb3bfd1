// One entry of the search's list, written from the input's cells in the lent words, only where it fits whole. Rests on crates
// reach, lookups, machine and headers.
#![tactic(auto)]

ghost use Rattle.std.specs.Prelude.{◌≡◌, ◌≤◌, length, false};
ghost use Rattle.listing.specs.Rows.{RowFits, WroteRow};
ghost use Rattle.headers.specs.Writes.{Kept};
ghost use Rattle.listing.specs.Entry.{Listable, WroteEntry, placed};

use headers::Writer;
use lookups::Rules;
use machine::cell_word;
use reach::{Kind, OPEN};

// Writes the k parts in the cells from `first` on, in prefix form. No more than `fuel` bytes are written.
fn write_row(rules: &Rules, work: &[u32], first: usize, k: usize, fuel: usize, writer: &mut Writer)
    requires { RowFits rules.now.file.now rules.now.types.now work.now first k fuel writer.old.at (length writer.old.list.now) }
    ensures wrote { WroteRow rules.now.file.now rules.now.types.now work.now first k writer.old.at writer.old.list.now writer.new.list.now writer.new.at }
    ensures kept { Kept writer.old writer.new }
{
    if k == 0 {
        return;
    }
    let head = cell_word(work, first, 0);
    if head == 0 {
        writer.byte(OPEN);
        return write_row(rules, work, first + 1, k - 1, fuel - 1, writer);
    }
    let number = head - 1;
    let fields = cell_word(work, first, 1);
    let n = rules.field_count(cell_word(work, first, 2), number);
    writer.byte(number as u8);
    write_row(rules, work, fields, n, fuel - 1, writer);
    write_row(rules, work, first + 1, k - 1, fuel - 1, writer);
}

// Writes one entry to the list, if it fits whole: its mark, its steps, and the input that the words stand for, whose parameters are the first cells of
// those in use. Whether it fits. (One caller: a struct for the parameters is no plainer.)
pub fn write_entry(
    rules: &Rules,
    work: &[u32],
    parameters: usize,
    cells: usize,
    kind: Kind,
    steps: usize,
    writer: &mut Writer,
) -> bool
    requires { Listable rules.now.file.now rules.now.types.now work.now parameters cells × (writer.old.at ≤ length writer.old.list.now) }
    ensures wrote { WroteEntry rules.now.file.now rules.now.types.now work.now parameters cells kind steps writer.old.at writer.old.list.now writer.new.list.now
        (placed result writer.new.at) }
    ensures kept { Kept writer.old writer.new }
    ensures stays { result ≡ false → writer.new.at ≡ writer.old.at }
{
    if writer.list.len() - writer.at < 6 + cells {
        return false;
    }
    writer.header(kind, steps, cells);
    write_row(rules, work, 0, parameters, cells, writer);
    true
}
