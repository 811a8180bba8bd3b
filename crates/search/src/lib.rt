// The search: the choice of an item in `choose`, a level in `x`, the walk here, and in `point` the test whether lent words
// are a point. Table, path, profile and n stay parameters: behind a `&mut` field no word is known after a call, and the
// proofs didn't close (as in `links`).
#![tactic(auto)]

pub mod choose;
pub mod point;
pub mod x;

ghost use Rattle.std.specs.Prelude.{◌≡◌, List, [], map, ℕ, ◌<◌, ◌≤◌, pos, length, get_or, set};
ghost use Rattle.rules.specs.Lists.{over};
ghost use Rattle.rules.specs.Problem.{Problem};
ghost use Rattle.rules.specs.Order.{pick};
ghost use Rattle.rules.specs.declared.Phase.TheVariants.{Ready};
ghost use Rattle.rules.specs.Walk.{Level, numbers, walk, resume};
ghost use Rattle.rules.specs.Walk as Walk;
ghost use Rattle.rules.specs.Calls.{cap, capped, started};
ghost use Rattle.rules.specs.Door.{walk_to};
ghost use Rattle.search.specs.Points.{On, SomeOn, Gone, Taking, SomeTaking, Profile, Ran, Begun, SomeBegun};
ghost use Rattle.search.specs.Arrived.{whole_to, Arrived};

use crate::choose::choose;
use crate::x::{try_again, try_item};
use rules::{NextAnswer, Phase, State};

// A move leads to a point, whose level and updates are the result, or nowhere, with every choice taken back.

// To the next choice at the deepest level that has one left. The point is at level `depth`.
fn retreat(t: &mut [i32], path: &mut [i32], n: usize, depth: usize) -> Option<(usize, u64)>
    requires { SomeOn n t.old path.old depth }
    ensures { (P : Problem) (s : List Level) → On P n s t.old path.old depth → Gone P n (Walk.retreat P s) t.new path.new result }
{
    for l in (0..depth).rev() {
        if let Some(a) = try_again(t, path, n, l) {
            return Some((l + 1, a));
        }
    }
    None
}

// A visit at level l that takes the item whose header is i: to its first option, or back where it has none.
fn enter(t: &mut [i32], path: &mut [i32], n: usize, i: usize, l: usize) -> Option<(usize, u64)>
    requires { SomeTaking n t.old path.old l i }
    ensures { (P : Problem) (s : List Level) (j : ℕ) → Taking P n s j t.old path.old l i → Gone P n (Walk.enter P s j) t.new path.new result }
{
    let x = links::c::dlink(t, n, i);
    if x == i {
        return retreat(t, path, n, l);
    }
    words::put_link(path, l, x);
    let a = try_item(t, n, i, x);
    Some((l + 1, a))
}

// One visit more at level l.
fn bump(profile: &mut [u64], l: usize)
    requires { l < length profile.old }
    ensures { profile.new ≡ set profile.old l (capped (get_or profile.old l 0) 1) }
{
    profile[l] = words::capped(profile[l], 1);
}

// The state at level l.
fn state_at(phase: Phase, l: usize, updates: u64) -> State
    requires { l < 4294967296 }
    ensures { result ≡ record { phase = phase; depth = l; updates = updates } }
{
    State {
        phase,
        depth: l as u32,
        updates,
    }
}

// The walk from a point that is reached and not yet left, with an allowance of visits.
fn run(
    t: &mut [i32],
    path: &mut [i32],
    profile: &mut [u64],
    n: usize,
    st: State,
    allowance: u64,
) -> NextAnswer
    requires updates_le_cap { st.updates ≤ cap }
    requires profile { Profile (length path.old) profile.old }
    requires some_on { SomeOn n t.old path.old st.depth }
    ensures { (P : Problem) (s : List Level) → On P n s t.old path.old st.depth → Ran P n (walk P (pick P) allowance s) st profile.old t.new path.new profile.new result }
{
    let mut l = st.depth as usize;
    let mut u = st.updates;
    let mut visits = 0u64;
    // No `for` over the visits: the last choice, which tells whether to pause, comes after the allowance is spent.
    loop {
        let Some(i) = choose(t, n) else {
            return NextAnswer::Solution(state_at(Phase::Solution, l, u), visits);
        };
        if visits == allowance {
            return NextAnswer::Paused(state_at(Phase::Ready, l, u), visits);
        }
        visits += 1;
        bump(profile, l);
        let Some((k, a)) = enter(t, path, n, i, l) else {
            return NextAnswer::Exhausted(state_at(Phase::Done, 0, u), visits);
        };
        l = k;
        u = words::capped(u, a);
    }
}

// The walk from a point in the state's phase, as Next makes it. The caller writes the options found.
pub fn go(
    t: &mut [i32],
    path: &mut [i32],
    profile: &mut [u64],
    n: usize,
    st: State,
    allowance: u64,
) -> NextAnswer
    requires updates_le_cap { st.updates ≤ cap }
    requires profile { Profile (length path.old) profile.old }
    requires some_begun { SomeBegun n t.old path.old st }
    ensures { (P : Problem) (s : List Level) → Begun P n s t.old path.old st → Ran P n (resume P (pick P) allowance st.phase s) (started st) profile.old t.new path.new profile.new result }
{
    match st.phase {
        Phase::Ready => run(t, path, profile, n, st, allowance),
        Phase::Done => run(t, path, profile, n, state_at(Phase::Ready, 0, 0), allowance),
        Phase::Solution => {
            let Some((l, a)) = retreat(t, path, n, st.depth as usize) else {
                return NextAnswer::Exhausted(state_at(Phase::Done, 0, st.updates), 0);
            };
            let at = state_at(Phase::Ready, l, words::capped(st.updates, a));
            run(t, path, profile, n, at, allowance)
        }
    }
}

// From the top to solution `number`, on parts of the stated lengths, with one allowance of visits for all solutions on the way.
pub fn walk_to(
    t: &mut [i32],
    path: &mut [i32],
    profile: &mut [u64],
    n: usize,
    number: u64,
    allowance: u64,
) -> NextAnswer
    requires profile { Profile (length path.old) profile.old }
    requires on { (P : Problem) × On P n [] t.old path.old 0 }
    ensures { (P : Problem) → On P n [] t.old path.old 0 →
        Arrived P n (walk_to P (pick P) number allowance Ready []) (whole_to P (pick P) number allowance Ready [])
        profile.old t.new path.new profile.new result }
{
    let mut state = state_at(Phase::Ready, 0, 0);
    let mut left = allowance;
    for _i in 0..number {
        let answer = go(t, path, profile, n, state, left);
        let NextAnswer::Solution(at, visits) = answer else {
            return answer;
        };
        // Part by part: a copy of the whole would wait until the answer's parts are all in memory.
        state = State {
            phase: Phase::Solution,
            depth: at.depth,
            updates: at.updates,
        };
        left -= visits;
    }
    go(t, path, profile, n, state, left)
}

// Writes the option numbers of the path's first `depth` nodes over the front of `found`.
pub fn write_found(t: &[i32], n: usize, path: &[i32], found: &mut [i32], depth: usize)
    requires some_on { SomeOn n t.now path.now depth }
    requires depth_in_bounds { depth ≤ length found.old }
    ensures { (P : Problem) (s : List Level) → On P n s t.now path.now depth → found.new ≡ over (map pos (numbers s)) found.old }
{
    for l in (0..depth).rev() {
        let m = links::c::option_of(t, n, words::link_at(path, l));
        words::put_link(found, l, m);
    }
}
