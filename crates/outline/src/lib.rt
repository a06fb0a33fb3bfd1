// The first pass over a rule file: marks, counts, lengths, D and S, bodies passed over. What it leaves is the places where the
// records of types and functions stand, in the lent tables, the type that NA names, and the goal. Every mark is read through the cursor: the first where
// the file begins, each other one where the record before it ends; the one behind the last function, NA or GO, is left by the
// functions and read again. Rests on crates marks, cursor, turns, typerecord, functionrecord, goalrecord and goal.
#![tactic(auto)]

ghost use Rattle.std.specs.Prelude.{◌≡◌, ℕ, ◌-◌, ◌≤◌, ◌<◌, List, length, pred};
ghost use Rattle.reach.specs.RuleFile.{Head, name_record, naming, outline};
ghost use Rattle.typerecord.specs.Passed.{passed_of};
ghost use Rattle.turns.specs.Turns.{on_turn, Room};
ghost use Rattle.outline.specs.Kinds.{Kind, types_kind, functions_kind};
ghost use Rattle.outline.specs.Tables.{rows_of, outlined_of, naming_of, ended_of, last_record};

pub mod table;

use cursor::mark_at;
use functionrecord::skip_function;
use goal::{Goal, goal_of};
use goalrecord::skip_goal;
use marks::{Mark, take_byte};
use reach::Refusal;
use table::{Table, Tables};
use turns::{Turn, first_mark, goal_mark, turn_after_function, turn_after_type};
use typerecord::skip_type;

// What the first pass leaves beside the tables of places.
#[derive(Clone, Copy)]
pub struct Outlined {
    pub named: Option<usize>,
    pub goal: Goal,
}

// A kind of record, of which at most N come one after the other.
trait Record<const N: usize> {
    ghost Row: { Type 0 };

    ghost kind: { (s : List ℕ) → Kind s Row };

    // What follows the mark of one.
    fn skip(s: &[u8], at: usize) -> Result<usize, Refusal>
        ensures { result ≡ passed_of ((kind s.now).one at) };

    // The mark behind one that begins at `from`, where so many more may come.
    fn turn_after(s: &[u8], from: usize, behind: usize, more: usize) -> Result<Turn, Refusal>
        ensures behind_value { (kind s.now).more more behind ≡ on_turn (λ next. (kind s.now).from (pred more) next) result }
        ensures room { Room more result };
}

struct Types;

impl Record<32> for Types {
    ghost Row = { List (List ℕ) };

    ghost kind = { types_kind };

    fn skip(s: &[u8], at: usize) -> Result<usize, Refusal> {
        skip_type(s, at)
    }

    fn turn_after(s: &[u8], from: usize, behind: usize, more: usize) -> Result<Turn, Refusal> {
        turn_after_type(s, from, behind, more)
    }
}

struct Functions;

impl Record<64> for Functions {
    ghost Row = { Head };

    ghost kind = { functions_kind };

    fn skip(s: &[u8], at: usize) -> Result<usize, Refusal> {
        skip_function(s, at)
    }

    fn turn_after(s: &[u8], from: usize, behind: usize, more: usize) -> Result<Turn, Refusal> {
        turn_after_function(s, from, behind, more)
    }
}

// The records of one kind, from behind the first one's mark on, into a table, and where they end.
fn read_records<const N: usize, K: Record<N>>(
    s: &[u8],
    first: usize,
    table: &mut Table<N>,
) -> Result<usize, Refusal>
    requires size { length s.now ≤ 16384 }
    requires some { 0 < N }
    ensures { (K.kind s.now).from (N - 1) first ≡ rows_of (K.kind s.now).look table.new result }
{
    // (A `loop`: how many records there are is said by the mark behind each.)
    table.clear();
    let mut at = first;
    loop {
        let behind = K::skip(s, at)?;
        table.push(at as u16);
        match K::turn_after(s, at, behind, N - table.count)? {
            Turn::Again(next) => at = next,
            Turn::Done(next) => return Ok(next),
        }
    }
}

// What follows the mark NA: a type number, and the mark GO.
fn name_record(s: &[u8], at: usize) -> Result<(Option<usize>, usize), Refusal>
    ensures { name_record s.now at ≡ naming_of result }
{
    let (t, behind) = take_byte(s, at)?;
    let goal_at = goal_mark(s, at, behind)?;
    Ok((Some(usize::from(t)), goal_at))
}

// What stands between the functions and the goal: NA with its type number or nothing, and the mark GO.
fn read_naming(s: &[u8], at: usize) -> Result<(Option<usize>, usize), Refusal>
    ensures { naming s.now at ≡ naming_of result }
{
    let (mark, next) = mark_at(s, at)?;
    match mark {
        Mark::Name => name_record(s, next),
        Mark::Goal => Ok((None, next)),
        Mark::Type | Mark::Function | Mark::Other => Err(Refusal::UnexpectedMark),
    }
}

// The goal, with nothing behind it.
fn last_record(s: &[u8], at: usize) -> Result<Goal, Refusal>
    ensures { last_record s.now at ≡ ended_of s.now result }
{
    let behind = skip_goal(s, at)?;
    if behind < s.len() {
        return Err(Refusal::TrailingBytes);
    }
    Ok(goal_of(s, at))
}

// The first pass over a whole file.
pub fn first_pass(s: &[u8], tables: &mut Tables) -> Result<Outlined, Refusal>
    requires { length s.now ≤ 16384 }
    ensures { outline s.now 0 ≡ outlined_of s.now tables.new result }
{
    let first_type = first_mark(s)?;
    let first_function = read_records::<32, Types>(s, first_type, &mut tables.types)?;
    let names_at = read_records::<64, Functions>(s, first_function, &mut tables.functions)?;
    let (named, goal_at) = read_naming(s, names_at)?;
    let goal = last_record(s, goal_at)?;
    Ok(Outlined { named, goal })
}
