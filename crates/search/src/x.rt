// `x.rs`: a choice tried, tried again, and taken back.
ghost use Rattle.std.specs.Prelude.{List, ◌∷◌, suc};
ghost use Rattle.rules.specs.Problem.{Problem};
ghost use Rattle.rules.specs.Walk.{Level};
ghost use Rattle.search.specs.Points.{At, On, Trying, SomeTrying, Tried, SomeLevel, Retried, Last, SomeLast};

// Covers the item whose header is i, and commits the option of its node x. The result is the number of updates.
pub fn try_item(t: &mut [i32], n: usize, i: usize, x: usize) -> u64
    requires { SomeTrying n t.old i x }
    ensures { (P : Problem) (s : List Level) (v : Level) → Trying P n s v t.old i x → Tried P n s v t.new result }
{
    let a = links::x::cover(t, n, i);
    let b = links::c::commit_all(t, n, x);
    words::capped(a, b)
}

// Goes on to the next choice at level l, the deepest, or takes the level back where it has none left. The result is the
// number of updates of the choice tried.
pub fn try_again(t: &mut [i32], path: &mut [i32], n: usize, l: usize) -> Option<u64>
    requires { SomeLevel n t.old path.old l }
    ensures { (P : Problem) (v : Level) (above : List Level) → On P n (v ∷ above) t.old path.old (suc l) → Retried P n l v.left above t.new path.new result }
{
    let x = words::link_at(path, l);
    let i = links::c::top(t, n, x);
    links::c::uncommit_all(t, n, x);
    let y = links::c::dlink(t, n, x);
    if y == i {
        links::x::uncover(t, n, i);
        words::put_link(path, l, 0);
        return None;
    }
    words::put_link(path, l, y);
    Some(links::c::commit_all(t, n, y))
}

// Takes back the choice of node x, the last one made.
pub fn restore_item(t: &mut [i32], n: usize, x: usize)
    requires { SomeLast n t.old x }
    ensures { (P : Problem) (v : Level) (above : List Level) → Last P n v above t.old x → At P n above t.new }
{
    let i = links::c::top(t, n, x);
    links::c::uncommit_all(t, n, x);
    links::x::uncover(t, n, i);
}
