// The public calls. Each is test, run, write: every refusal comes first, and a call that is accepted runs from a known
// point. The lists stay parameters below the calls too, which are lent them one by one: behind a struct's `&mut` field
// no word is known after a call, as was tried in `links`.
#![tactic(auto)]

mod test;

ghost use Rattle.std.specs.Prelude.{◌≡◌, List, [], ◌+◌, ◌≤◌, length, take};
ghost use Rattle.rules.specs.Lists.{over};
ghost use Rattle.rules.specs.Problem.{Problem, library_limits, cut, meant, table_length};
ghost use Rattle.rules.specs.Order.{pick};
ghost use Rattle.rules.specs.Walk.{Level, resume};
ghost use Rattle.rules.specs.Links.{fresh};
ghost use Rattle.rules.specs.Calls.{cap, blank, started, path_words, set_up_call, next_call, give_up_call, report_call};
ghost use Rattle.search.specs.Points.{Profile, Begun, SomeBegun};
ghost use Rattle.calls.specs.Tested.{Laid, Wrote, Fronts, WroteFronts};

use crate::test::test;
use init::{init_links, table_words};
use problem::room::accept;
use rules::{LIBRARY_ITEMS, NextAnswer, Phase, Refused, Sizes, State, library};
use search::{go, write_found};

// Ready at depth 0.
fn ready(updates: u64) -> State
    ensures { result ≡ record { phase = blank.phase; depth = 0; updates = updates } }
{
    State {
        phase: Phase::Ready,
        depth: 0,
        updates,
    }
}

// Table and path as a search begins.
fn lay_out(problem: &[i32], table: &mut [i32], path: &mut [i32], s: Sizes)
    requires { Laid problem.now s table.old path.old }
    ensures table_after { table.new ≡ over (fresh (meant (cut problem.now))) table.old }
    ensures path_after { path.new ≡ over (path_words s.np []) path.old }
{
    let words = table_words(s);
    init_links(&mut table[..words], problem, s);
    words::fill(&mut path[..s.np], 0);
}

// Set-up: table, path and profile are made ready for the problem's search.
pub fn set_up(
    problem: &[i32],
    table: &mut [i32],
    path: &mut [i32],
    profile: &mut [u64],
) -> Result<State, Refused>
    ensures { record { answer = result; lent = record { table = table.new; path = path.new; profile = profile.new } } ≡ set_up_call library_limits problem.now (record { table = table.old; path = path.old; profile = profile.old }) }
{
    let mut marks = [0usize; LIBRARY_ITEMS];
    let lists = path.len().min(profile.len());
    let state = ready(0);
    let refused = |number| Refused { state, number };
    let s = accept(problem, library(), 1, table.len(), lists, &mut marks).map_err(refused)?;
    lay_out(problem, table, path, s);
    profile[..s.np].fill(0);
    Ok(state)
}

// The walk from a point, on parts of the stated lengths; on a solution its option numbers go over the front of `found`.
fn run(
    t: &mut [i32],
    path: &mut [i32],
    profile: &mut [u64],
    found: &mut [i32],
    n: usize,
    state: State,
    allowance: u64,
) -> NextAnswer
    requires updates_le_cap { state.updates ≤ cap }
    requires profile { Profile (length path.old) profile.old }
    requires some_begun { SomeBegun n t.old path.old state }
    requires path_in_bounds { length path.old ≤ length found.old }
    ensures { (P : Problem) (s : List Level) → Begun P n s t.old path.old state → Wrote P n (resume P (pick P) allowance state.phase s) (started state) profile.old found.old t.new path.new profile.new found.new result }
{
    let answer = go(t, path, profile, n, state, allowance);
    if let NextAnswer::Solution(at, visits) = answer {
        write_found(t, n, path, found, at.depth as usize);
    }
    answer
}

// The same on lists of any length that is enough.
fn run_fronts(
    table: &mut [i32],
    path: &mut [i32],
    profile: &mut [u64],
    found: &mut [i32],
    s: Sizes,
    state: State,
    allowance: u64,
) -> NextAnswer
    requires { Fronts s table.old path.old profile.old found.old state }
    ensures { (P : Problem) (v : List Level) → Begun P (s.np + s.ns) v (take (table_length s) table.old) (take s.np path.old) state → WroteFronts P s (resume P (pick P) allowance state.phase v) state table.old path.old profile.old found.old table.new path.new profile.new found.new result }
{
    let words = table_words(s);
    let np = s.np;
    let n = np + s.ns;
    run(
        &mut table[..words],
        &mut path[..np],
        &mut profile[..np],
        found,
        n,
        state,
        allowance,
    )
}

// Next: to the next solution, to exhaustion, or to where a visit is due and the allowance is spent.
pub fn next(
    problem: &[i32],
    table: &mut [i32],
    spare: &mut [i32],
    path: &mut [i32],
    profile: &mut [u64],
    found: &mut [i32],
    state: State,
    allowance: u64,
) -> Result<NextAnswer, Refused>
    ensures { record { answer = result; lent = record { table = table.new; spare = spare.new; path = path.new; profile = profile.new; found = found.new } } ≡ next_call library_limits problem.now (record { table = table.old; spare = spare.old; path = path.old; profile = profile.old; found = found.old }) state allowance }
{
    let more = profile.len().min(found.len());
    let refused = |number| Refused { state, number };
    let s = test(problem, table, spare, path, profile, more, state).map_err(refused)?;
    Ok(run_fronts(table, path, profile, found, s, state, allowance))
}

// Give-up: the table is set up afresh, and the path cleared.
pub fn give_up(
    problem: &[i32],
    table: &mut [i32],
    spare: &mut [i32],
    path: &mut [i32],
    state: State,
) -> Result<State, Refused>
    ensures { record { answer = result; lent = record { table = table.new; spare = spare.new; path = path.new } } ≡ give_up_call library_limits problem.now (record { table = table.old; spare = spare.old; path = path.old }) state }
{
    let refused = |number| Refused { state, number };
    let s = test(problem, table, spare, path, &[], path.len(), state).map_err(refused)?;
    lay_out(problem, table, path, s);
    Ok(ready(state.updates))
}

// Report: the front part of the lent list of found options, `depth` long at a solution, else empty.
pub fn report<'a>(found: &'a [i32], state: State) -> &'a [i32]
    ensures { result.now ≡ report_call found.now state }
{
    match state.phase {
        Phase::Ready | Phase::Done => &[],
        Phase::Solution => found.get(..state.depth as usize).unwrap_or(&[]),
    }
}
