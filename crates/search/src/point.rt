// Whether lent words are a point of the search. The path's choices are made on the spare, and taken back.
ghost use Rattle.std.specs.Prelude.{◌≡◌, List, [], ℕ, ◌≤◌, pos, length, take, drop};
ghost use Rattle.rules.specs.Lists.{each, got};
ghost use Rattle.rules.specs.Words.{same};
ghost use Rattle.rules.specs.Problem.{Problem};
ghost use Rattle.rules.specs.Order.{pick, choices, open_options};
ghost use Rattle.rules.specs.Walk.{Level, chosen};
ghost use Rattle.rules.specs.Calls.{level_of, depth_fits, phase_fits, point};
ghost use Rattle.search.specs.Points.{At, Picked, SomePicked};
ghost use Rattle.search.specs.Replays.{Trailed, SomeTrailed, Following, SomeFollowing, Followed};
ghost use Rattle.search.specs.Replays.{SomeFresh, follows, PathPoint, Testing, SomeTesting};

use crate::choose::choose;
use crate::x::{restore_item, try_item};
use rules::{Phase, State};

// What a path leads to on the spare: the levels made, and whether path and state are a point there. A struct and no
// Result, since the levels are wanted in both cases.
#[derive(Clone, Copy)]
pub struct Reach {
    pub fits: bool,
    pub level: usize,
}

// Whether node q is in the list of the item whose header is i.
fn is_listed(t: &[i32], n: usize, i: usize, q: usize) -> bool
    requires { SomePicked n t.now i }
    ensures { (P : Problem) (s : List Level) (j : ℕ) → Picked P n s j t.now i → result ≡ got (level_of q (choices j (open_options P (chosen s)))) }
{
    let mut p = links::c::dlink(t, n, i);
    while p != i {
        if p == q {
            return true;
        }
        p = links::c::dlink(t, n, p);
    }
    false
}

// Makes the choice of the path's node at level l, if it is one of the item that the order rule takes.
fn follow(spare: &mut [i32], path: &[i32], n: usize, l: usize) -> bool
    requires { SomeFollowing n spare.old path.now l }
    ensures { (P : Problem) (s : List Level) → Following P n s spare.old path.now l → Followed P n s path.now l spare.new result }
{
    if !words::is_natural(path, l) {
        return false;
    }
    let Some(i) = choose(spare, n) else {
        return false;
    };
    let q = words::link_at(path, l);
    if !is_listed(spare, n, i, q) {
        return false;
    }
    try_item(spare, n, i, q);
    true
}

// Makes the choices of the path's first `depth` nodes, as far as they are choices. The result is the number made.
fn replay(spare: &mut [i32], path: &[i32], n: usize, depth: usize) -> usize
    requires some_fresh { SomeFresh n spare.old }
    requires depth_in_bounds { depth ≤ length path.now }
    ensures { (P : Problem) → At P n [] spare.old →
        Trailed P n (follows P (take depth path.now) []) spare.new path.now result }
{
    for l in 0..depth {
        if !follow(spare, path, n, l) {
            return l;
        }
    }
    depth
}

// Takes back the choices of the path's first `depth` nodes, the deepest first.
pub fn undo(spare: &mut [i32], path: &[i32], n: usize, depth: usize)
    requires { SomeTrailed n spare.old path.now depth }
    ensures { (P : Problem) (s : List Level) → Trailed P n s spare.old path.now depth → At P n [] spare.new }
{
    for l in (0..depth).rev() {
        restore_item(spare, n, words::link_at(path, l));
    }
}

// Whether the path's words from d on are 0.
fn zeros_from(path: &[i32], d: usize) -> bool
    requires { d ≤ length path.now }
    ensures { result ≡ each (λ w. same w (pos 0)) (drop d path.now) }
{
    words::are_zeros(&path[d..])
}

fn depth_fits(phase: Phase, np: usize, d: usize) -> bool
    ensures { result ≡ depth_fits phase np d }
{
    match phase {
        Phase::Ready | Phase::Solution => d <= np,
        Phase::Done => d == 0,
    }
}

// Whether the phase fits a point: i is the header of the item taken there.
fn phase_fits(phase: Phase, i: Option<usize>) -> bool
    ensures { result ≡ phase_fits phase i }
{
    match phase {
        Phase::Ready => i.is_some(),
        Phase::Solution => i.is_none(),
        Phase::Done => true,
    }
}

// The first half of the test, with no table: whether phase, depth and path are a point. The spare is fresh, and is left with the choices of
// the result's levels made.
pub fn path_point(spare: &mut [i32], path: &[i32], n: usize, st: State) -> Reach
    requires { (P : Problem) × At P n [] spare.old × (length path.now ≡ P.np) }
    ensures { (P : Problem) → At P n [] spare.old → length path.now ≡ P.np →
        PathPoint P n st spare.new path.now result }
{
    let phase = st.phase;
    let d = st.depth as usize;
    if !depth_fits(phase, path.len(), d) || !zeros_from(path, d) {
        return Reach {
            fits: false,
            level: 0,
        };
    }
    let level = replay(spare, path, n, d);
    Reach {
        fits: level == d && phase_fits(phase, choose(spare, n)),
        level,
    }
}

// Whether table, path and state are a point of the search. The spare is fresh, and is left so.
pub fn test_point(t: &[i32], spare: &mut [i32], path: &[i32], n: usize, st: State) -> bool
    requires { SomeTesting n t.now spare.old path.now }
    ensures value { (P : Problem) → Testing P n t.now spare.old path.now → result ≡ got (point P (pick P) st t.now path.now) }
    ensures spare_unchanged { spare.new ≡ spare.old }
{
    let Reach { fits, level } = path_point(spare, path, n, st);
    let same = words::are_same(t, spare);
    undo(spare, path, n, level);
    fits && same
}
