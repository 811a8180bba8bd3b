// `x.rs`: the items' rings, and covering.
ghost use Rattle.std.specs.Prelude.{◌≡◌, List, ℕ, suc, ◌<◌, ℤ, pos, length, set};
ghost use Rattle.rules.specs.Problem.{Entry, Problem};
ghost use Rattle.rules.specs.Links.{first_or, touch, left, right, remove, apply};
ghost use Rattle.words.specs.Read.{Link};
ghost use Rattle.tables.specs.Undo.{undo};
ghost use Rattle.links.specs.Moves.{InRing, SomeRing, Done, bare, CanCover, SomeCover, Covered, SomeCovered};
ghost use Rattle.links.specs.Steps.{HasLink, SomeRinged};

use crate::c::{down_of, hide, top_of, unhide, up_of};
use words::{link_at, put_link};

// ---- `INodes`

// What item i says: its neighbours in its ring.
fn left_of(t: &[i32], i: usize) -> usize
    requires { HasLink t.now (left i) }
    ensures { Link t.now (left i) result }
{
    link_at(t, 2 * i)
}

fn right_of(t: &[i32], i: usize) -> usize
    requires { HasLink t.now (right i) }
    ensures { Link t.now (right i) result }
{
    link_at(t, 2 * i + 1)
}

fn put_left(t: &mut [i32], i: usize, x: usize)
    requires i_in_bounds { left i < length t.old }
    requires x_bound { x < 2147483648 }
    ensures { t.new ≡ set t.old (left i) (pos x) }
{
    put_link(t, 2 * i, x);
}

fn put_right(t: &mut [i32], i: usize, x: usize)
    requires i_in_bounds { right i < length t.old }
    requires x_bound { x < 2147483648 }
    ensures { t.new ≡ set t.old (right i) (pos x) }
{
    put_link(t, 2 * i + 1, x);
}

// The item after p in the primary ring, 0 for the head.
pub fn rlink(t: &[i32], p: usize) -> usize
    requires { SomeRing t.now p }
    ensures { (P : Problem) (held : List Entry) (xs ys : List ℕ) → InRing P held t.now xs p ys → result ≡ first_or 0 ys }
{
    right_of(t, p)
}

// ---- covering

// The item whose header is i leaves its ring.
fn unlink_item(t: &mut [i32], i: usize)
    requires { SomeRinged t.old i }
    ensures { (n j : ℕ) → i ≡ suc j → t.new ≡ apply n t.old (remove j) }
{
    let l = left_of(t, i);
    let r = right_of(t, i);
    put_right(t, l, r);
    put_left(t, r, l);
}

// The item whose header is i comes back to its ring: its own links still say where it stood.
fn relink_item(t: &mut [i32], i: usize)
    requires { SomeRinged t.old i }
    ensures { (n j : ℕ) → i ≡ suc j → t.new ≡ undo n t.old (remove j) }
{
    let l = left_of(t, i);
    let r = right_of(t, i);
    put_right(t, l, i);
    put_left(t, r, i);
}

// Covers the item whose header is i. The result is the number of updates.
pub fn cover(t: &mut [i32], n: usize, i: usize) -> u64
    requires { SomeCover n t.old i }
    ensures { (P : Problem) (held : List Entry) (j : ℕ) → CanCover P held n t.old j i → Done n t.old (touch P held (bare j)) t.new result }
{
    let mut updates: u64 = 0;
    let mut p = down_of(t, n, i);
    while p != i {
        updates += hide(t, n, p);
        p = down_of(t, n, p);
    }
    unlink_item(t, i);
    updates + 1
}

// Uncovers the item whose header is i: all in the opposite order.
pub fn uncover(t: &mut [i32], n: usize, i: usize)
    requires { SomeCovered n t.old i }
    ensures { (P : Problem) (held : List Entry) (t₁ : List ℤ) (j : ℕ) → Covered P held n t₁ t.old j i → t.new ≡ t₁ }
{
    relink_item(t, i);
    let mut p = up_of(t, n, i);
    while p != i {
        unhide(t, n, p);
        p = up_of(t, n, p);
    }
}
