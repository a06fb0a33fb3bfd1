// The input's cells in the lent words: a row of open cells, an open cell bound to a constructor with fresh open fields, a bound
// cell opened again. Rests on crates marks, lookups, goal and machine.
#![tactic(auto)]

ghost use Rattle.std.specs.Prelude.{◌≡◌, ◌+◌, ◌*◌, ◌-◌, ◌≤◌, ◌<◌, length, get_or, set};
ghost use Rattle.reach.specs.Places.{bytes_at};
ghost use Rattle.reach.specs.Types.{slots, even_slots};
ghost use Rattle.machine.specs.Cells.{Binds, cell_word};
ghost use Rattle.cells.specs.Writes.{open_cell, Opens, Starts};

use goal::depth_at;
use lookups::FieldTypes;
use machine::cell_word;
use marks::byte_or_zero;

// Makes the open cells of a constructor's fields from cell `first` on, each as deep as it may be.
fn open_cells(file: &[u8], work: &mut [u32], first: usize, fields: FieldTypes, room: usize)
    requires { (5 * (first + fields.count) ≤ length work.old) × (room ≤ 255) }
    ensures { Opens work.old work.new first fields.count (even_slots (bytes_at file.now fields.at fields.count) room) }
{
    for i in 0..fields.count {
        let t = byte_or_zero(file, fields.at + i);
        open_cell(work, first + i, t, room);
    }
}

// Makes the cells of the source's parameters, from cell 0 on, each as deep as it may be: the input with every part open. (A loop like that of `open_cells`,
// where all are equally deep: one function for both would take the depth of each as a closure with its law. A head of 0, which says that a part is open, is a
// word of the lent slice.)
pub fn start_cells(file: &[u8], work: &mut [u32], parameters: FieldTypes, depths: [u8; 8])
    requires { 5 * parameters.count ≤ length work.old }
    ensures { Starts work.old work.new parameters.count (slots (bytes_at file.now parameters.at parameters.count) depths) }
{
    for i in 0..parameters.count {
        let t = byte_or_zero(file, parameters.at + i);
        open_cell(work, i, t, depth_at(depths, i));
    }
}

// Makes one open cell. (`as u32` here and below: every number fits, which the check shows, so a conversion that can fail would be no plainer.)
fn open_cell(work: &mut [u32], cell: usize, t: usize, room: usize)
    requires { (5 * cell + 5 ≤ length work.old) × (t ≤ 255) × (room ≤ 255) }
    ensures { work.new ≡ open_cell work.old cell t room }
{
    work[5 * cell] = 0;
    work[5 * cell + 2] = t as u32;
    work[5 * cell + 3] = room as u32;
}

// Binds the open cell x to constructor c, which has these fields; the new cells are from `top` on. A field may be one less deep than the part.
pub fn bind_cell(file: &[u8], work: &mut [u32], x: usize, c: usize, fields: FieldTypes, top: usize)
    requires { (x < top) × (5 * (top + fields.count) ≤ length work.old) × (c ≤ 255) × (top ≤ 1000000) × (cell_word work.old x 3 ≤ 255) }
    ensures { Binds work.old work.new x c top fields.count (bytes_at file.now fields.at fields.count) (cell_word work.old x 3 - 1) }
{
    let room = cell_word(work, x, 3);
    work[5 * x] = (c + 1) as u32;
    work[5 * x + 1] = top as u32;
    open_cells(file, work, top, fields, room.saturating_sub(1));
}

// Opens a bound cell again.
pub fn open_again(work: &mut [u32], x: usize)
    requires { 5 * x < length work.old }
    ensures { work.new ≡ set work.old (5 * x) 0 }
{
    work[5 * x] = 0;
}
