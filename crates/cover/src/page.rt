// The lines of the solutions, a buffer of them at a time.
ghost use Rattle.std.specs.Prelude.{List, ℕ, ◌+◌, ◌≤◌, ◌≡◌, ◌++◌, length};
ghost use Rattle.rules.specs.Problem.{Problem};
ghost use Rattle.rules.specs.Walk.{Level, numbers};
ghost use Rattle.rules.specs.Cover.{line};
ghost use Rattle.search.specs.Points.{On, SomeOn};
ghost use Rattle.cover.specs.Pages.{Coming, SomeComing, Filled};

use crate::print::{Buffer, put_line};
use rules::{DOOR_ITEMS, NextAnswer, State};
use search::{go, write_found};

// A line of 64 numbers, each of at most 20 digits and followed by a byte, with LF for one that has none.
const LINE: usize = 1345;

// Writes the line of the point at a level.
fn put_solution(t: &[i32], path: &[i32], n: usize, level: usize, out: &mut Buffer)
    requires some_on { SomeOn n t.now path.now level }
    requires level_bound { level ≤ 64 }
    requires room { length out.old.items + 1345 ≤ 65536 }
    ensures { (P : Problem) (s : List Level) → On P n s t.now path.now level →
        out.new.items ≡ out.old.items ++ line (numbers s) }
{
    let mut found = [0i32; DOOR_ITEMS];
    write_found(t, n, path, &mut found, level);
    put_line(out, &found, level);
}

// Makes a page of the lines of the solutions to come at a point, for as long as there is room for another, and answers
// the state from which the others come, if any do. No search takes as many visits as are allowed, so a walk that ends
// at no solution has met the last.
pub fn fill(
    t: &mut [i32],
    path: &mut [i32],
    profile: &mut [u64],
    n: usize,
    from: State,
    out: &mut Buffer,
) -> Option<State>
    requires { SomeComing n t.old path.old profile.old from }
    ensures { (P : Problem) (all : List (List ℕ)) →
        Coming P n all t.old path.old profile.old from →
        Filled P n all t.new path.new profile.new out.new.items result }
{
    let mut state = from;
    out.clear();
    while LINE <= out.remaining_capacity() {
        let NextAnswer::Solution(at, _) = go(t, path, profile, n, state, u64::MAX) else {
            return None;
        };
        put_solution(t, path, n, at.depth as usize, out);
        state = at;
    }
    Some(state)
}
