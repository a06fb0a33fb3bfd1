// What a loaded rule file gives both runs: its tables, its goal and the bounds of its numbers, which are laws alone, and the beginning of a
// run. Rests on crates goal, rulefile, lookups, machine, cells and registers.
#![tactic(auto)]

ghost use Rattle.std.specs.Prelude.{◌≡◌, ◌+◌, ◌*◌, ◌≤◌, length};
ghost use Rattle.loaded.specs.Beginning.{Opened, start_registers};

use cells::start_cells;
use goal::Goal;
use lookups::Head;
use machine::Store;
use registers::{EXPRESSION, NO_CASE, Registers};

// The beginning of a run: open cells for the parameters of the source, each as deep as it may be, the records of the empty environment and of
// the parameters' group, and the registers with which the source's body is evaluated.
pub fn open_input(file: &[u8], work: &mut [u32], store: Store, head: Head, goal: Goal) -> Registers
    requires { (5 * head.parameters.count ≤ store.at) × (store.at + 12 ≤ length work.old) }
    ensures value { result ≡ start_registers head.body }
    ensures words { Opened file.now work.old work.new store.at head.parameters.at head.parameters.count goal.depths }
{
    start_cells(file, work, head.parameters, goal.depths);
    store.put(work, 0, 0, 0, 0, 0);
    store.put(work, 1, 0, head.parameters.count, 0, 0);
    Registers {
        kind: EXPRESSION,
        place: head.body,
        env: 1,
        frame: NO_CASE,
        records: 2,
    }
}
