// The loop of a search: path after path while one is under way or a choice point is left, what each path lists written to the lent list, and the
// verdict. Rests on crates registers, points, arriving, moves, listing, verdicts and results.
#![tactic(auto)]

ghost use Rattle.std.specs.Prelude.{◌≡◌, ◌≤◌, length, false};
ghost use Rattle.headers.specs.Writes.{Kept};
ghost use Rattle.listing.specs.Entry.{placed};
ghost use Rattle.exploring.specs.Exploring.{first_walk, GoesOn, ListableIn, WroteIn, SomeBeginsIn, ExploresIn};

use arriving::Walk;
use headers::Writer;
use listing::write_entry;
use moves::make_moves;
use points::Search;
use reach::{Kind, Verdict};
use registers::Registers;
use results::Listed;
use verdicts::verdict_after;

// Whether the search goes on: a path is under way, or there is a choice point.
fn is_active(walk: Walk) -> bool
    ensures { GoesOn walk result }
{
    walk.registers.is_some() || 0 < walk.height
}

// What a path lists at the end of a walk is written to the list, if it fits. Whether it fits, or nothing is to be written.
fn write_listing(
    search: &Search,
    work: &[u32],
    parameters: usize,
    walk: Walk,
    listing: Option<Kind>,
    writer: &mut Writer,
) -> bool
    requires { ListableIn search.now work.now parameters walk listing × (writer.old.at ≤ length writer.old.list.now) }
    ensures wrote { WroteIn search.now work.now parameters walk listing writer.old.list.now writer.new.list.now writer.old.at (placed result writer.new.at) }
    ensures kept { Kept writer.old writer.new }
    ensures stays { result ≡ false → writer.new.at ≡ writer.old.at }
{
    let rules = &search.run.program.rules;
    match listing {
        None => true,
        Some(kind) => write_entry(rules, work, parameters, walk.cells, kind, walk.done, writer),
    }
}

// Where a search stands at its beginning: on a path with no step done and every parameter open.
fn first_walk(parameters: usize, from: Registers) -> Walk
    ensures { result ≡ first_walk parameters from }
{
    Walk {
        registers: Some(from),
        cells: parameters,
        done: 0,
        height: 0,
    }
}

// The moves of a search, from the registers at its beginning on, and the list that they give. (A `while`: the moves say how many turns there are.)
pub fn explore(
    search: &Search,
    work: &mut [u32],
    parameters: usize,
    from: Registers,
    list: &mut [u8],
) -> Listed
    requires { SomeBeginsIn search.now work.old parameters from }
    ensures { ExploresIn search.now work.old work.new parameters from list.old list.new result }
{
    let mut walk = first_walk(parameters, from);
    let mut writer = Writer { list, at: 0 };
    let mut verdict = Verdict::None;
    while is_active(walk) {
        let moved = make_moves(search, work, walk);
        let next = moved.walk;
        let listing = moved.listing;
        if !write_listing(search, work, parameters, next, listing, &mut writer) {
            return Listed::Full(writer.at);
        }
        verdict = verdict_after(verdict, listing);
        walk = next;
    }
    Listed::Complete(writer.at, verdict)
}
