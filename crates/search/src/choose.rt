// `choose.rs`: the primary item with the fewest options left.
ghost use Rattle.std.specs.Prelude.{◌≡◌, List};
ghost use Rattle.rules.specs.Problem.{Problem};
ghost use Rattle.rules.specs.Order.{pick};
ghost use Rattle.rules.specs.Walk.{Level, chosen};
ghost use Rattle.search.specs.Points.{At, SomeAt, header};

// The header of the item that the order rule takes, if a primary item is open. No item is lighter than one without an
// option, so the first of these is taken at once.
#[tactic(auto, using(crate::proofs::Choosing::dead))]
pub fn choose(t: &[i32], n: usize) -> Option<usize>
    requires { SomeAt n t.now }
    ensures { (P : Problem) (s : List Level) → At P n s t.now → result ≡ header (pick P (chosen s)) }
{
    let mut i = links::x::rlink(t, 0);
    if i == 0 {
        return None;
    }
    let mut min = links::c::len(t, n, i);
    let mut p = links::x::rlink(t, i);
    while p != 0 {
        if min == 0 {
            return Some(i);
        }
        let curr = links::c::len(t, n, p);
        if curr < min {
            min = curr;
            i = p;
        }
        p = links::x::rlink(t, p);
    }
    Some(i)
}
