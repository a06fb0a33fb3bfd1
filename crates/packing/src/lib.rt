// The numbers that the calls for C answer with, each of what the call inside handed back; specs/Packing.antt defines them. Rests on the enums of crates
// reach and results, on the span of crate entries, and on the numbers of the refusals.
#![tactic(auto)]

ghost use Rattle.std.specs.Prelude.{◌≡◌, ◌≤◌, Ok};
ghost use Rattle.reach.specs.Words.{steps_of};
ghost use Rattle.results.specs.Results.{check_result, search_result, length_of, list_length_in, run_result, text_result, text_length_in};
ghost use Rattle.entries.specs.Spans.{span_of};
ghost use Rattle.packing.specs.Packing.{verdict_number, outcome_number, check_number, search_number, run_number, text_number, span_number, span_end, Numbers};

use entries::Span;
use reach::{Outcome, Refusal, Verdict};
use refusals::number;
use results::{Listed, Ran};

// (The numbers stand here, apart from the enums, and are functions: those for C are no property of a verdict, and a `From` would have to stand beside it.)

// The number of a verdict.
fn verdict_number(verdict: Verdict) -> u64
    ensures value { result ≡ verdict_number verdict }
    ensures small { result ≤ 3 }
{
    match verdict {
        Verdict::Found => 1,
        Verdict::Undecided => 2,
        Verdict::None => 3,
    }
}

// The number of how a run ended.
fn outcome_number(outcome: Outcome) -> u64
    ensures value { result ≡ outcome_number outcome }
    ensures small { result ≤ 4 }
{
    match outcome {
        Outcome::Reached(_) => 1,
        Outcome::Ended(_) => 2,
        Outcome::Unfinished(_) => 3,
        Outcome::Missing(_) => 4,
    }
}

// The steps that a run took.
fn steps_of(outcome: Outcome) -> u64
    ensures value { result ≡ steps_of outcome }
    ensures small { result ≤ 65535 }
{
    match outcome {
        Outcome::Reached(n) => n as u64,
        Outcome::Ended(n) => n as u64,
        Outcome::Unfinished(n) => n as u64,
        Outcome::Missing(n) => n as u64,
    }
}

// The check: 0, or the number of its refusal.
pub fn check_number(res: Result<(), Refusal>) -> u64
    ensures { Numbers check_result check_number res result }
{
    match res {
        Ok(()) => 0,
        Err(refusal) => number(refusal),
    }
}

// The list that a search wrote.
fn list_number(list: Listed) -> u64
    requires { length_of list ≤ 4294967295 }
    ensures { Numbers search_result search_number (Ok list) result }
{
    match list {
        Listed::Complete(n, verdict) => 256 * verdict_number(verdict) + 65536 * (n as u64),
        Listed::Full(n) => number(Refusal::ListFull) + 65536 * (n as u64),
    }
}

// The search.
pub fn search_number(res: Result<Listed, Refusal>) -> u64
    requires { list_length_in res ≤ 4294967295 }
    ensures { Numbers search_result search_number res result }
{
    match res {
        Err(why) => number(why),
        Ok(list) => list_number(list),
    }
}

// The closed run.
pub fn run_number(res: Result<Ran, Refusal>) -> u64
    ensures { Numbers run_result run_number res result }
{
    match res {
        Err(why) => number(why),
        Ok(Ran { outcome, depth }) => 256 * outcome_number(outcome)
            + 65536 * steps_of(outcome)
            + 4294967296 * (depth as u64),
    }
}

// The text of a list.
pub fn text_number(res: Result<usize, Refusal>) -> u64
    requires { text_length_in res ≤ 4294967295 }
    ensures { Numbers text_result text_number res result }
{
    match res {
        Err(why) => number(why),
        Ok(n) => 65536 * (n as u64),
    }
}

// The place of an entry and its size, in a list whose bytes that count end here; else that end and no byte.
pub fn part_number(span: Option<Span>, end: usize) -> u64
    requires { (span_end (span_of span) ≤ end) × (end ≤ 4294967295) }
    ensures { result ≡ span_number end (span_of span) }
{
    match span {
        Some(span) => (span.at as u64) + 4294967296 * (span.size as u64),
        None => end as u64,
    }
}
