// A case of a closed run that waits on an open part: the part is bound to what the input has there, and the case goes on with it. Rests on
// crates marks, lookups, machine, cells, registers, values and choosing.
#![tactic(auto)]

ghost use Rattle.binding.specs.Underway.{Bindable, BoundAs, SomeWaiting, Enters};

use cells::bind_cell;
use choosing::enter_part;
use lookups::Rules;
use machine::cell_word;
use marks::byte_or_zero;
use registers::{Evaluation, Registers};
use values::{note_values, noted};

// Where a case goes on with a part that was bound: the registers, and how many cells are in use.
#[derive(Clone, Copy)]
pub struct Entered {
    pub registers: Registers,
    pub cells: usize,
}

// Binds the open cell x to the constructor that stands at its noted place in the input, and notes where its fields' values stand;
// the new cells are from `cells` on. Answers how many are in use then.
fn bind_asked(rules: &Rules, input: &[u8], work: &mut [u32], cells: usize, x: usize) -> usize
    requires { Bindable rules.now.file.now rules.now.types.now input.now work.old cells x }
    ensures { BoundAs rules.now.file.now rules.now.types.now input.now work.old work.new cells x result }
{
    let place = noted(work, x);
    let c = byte_or_zero(input, place);
    let t = cell_word(work, x, 2);
    let Some(fields) = rules.fields(t, c) else {
        return cells;
    };
    bind_cell(rules.file, work, x, c, fields, cells);
    note_values(rules, input, work, cells, fields, place + 1);
    cells + fields.count
}

// The open part in cell x, on which a case waits, is bound to what the input has there, and the case goes on with it.
pub fn enter_asked(
    run: &Evaluation,
    input: &[u8],
    work: &mut [u32],
    cells: usize,
    x: usize,
    r: Registers,
) -> Entered
    requires { let rules = run.now.program.rules in SomeWaiting rules.file.now rules.types.now input.now work.old run.now.store.at cells x r }
    ensures { let p = run.now.program in
        Enters p.rules.file.now p.rules.types.now p.ends.now input.now work.old work.new run.now.store.at cells x r result.cells result.registers }
{
    let more = bind_asked(&run.program.rules, input, work, cells, x);
    let head = cell_word(work, x, 0);
    let registers = enter_part(run, work, r, head - 1, more - cells, cells);
    Entered {
        registers,
        cells: more,
    }
}
