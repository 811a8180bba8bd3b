// The test of the entries: refusals 5 to 8. np and n, and the marks with their stamp, stay parameters: a struct of them
// would be taken apart again in each of these functions.
ghost use Rattle.std.specs.Prelude.{◌≡◌, List, [], not, ◌+◌, ◌*◌, ◌≤◌, ◌<◌, eqb, ℤ, length, get_or};
ghost use Rattle.rules.specs.Words.{word};
ghost use Rattle.rules.specs.Problem.{cut, need, entry_fault, option_fault, options_fault, fault};
ghost use Rattle.problem.specs.CutLaws.{pair_at, entries_at, options_at, Whole};
ghost use Rattle.problem.specs.Marks.{Marked, Older, colour_fault, refused};
ghost use Rattle.problem.specs.Measured.{Measured};

use rules::Sizes;
use words::{is_below, is_natural, is_zero, link_at};

// 6 if the item x is marked with `stamp`.
fn repeat_fault(marks: &[usize], x: usize, stamp: usize) -> Result<(), u32>
    requires { x < length marks.now }
    ensures { result ≡ refused (need (not (eqb (get_or marks.now x 0) stamp)) 6 0) }
{
    if marks[x] == stamp { Err(6) } else { Ok(()) }
}

// The fault of the colour at a on an item that is primary or secondary.
fn colour_fault(ws: &[i32], a: usize, primary: bool) -> Result<(), u32>
    requires { a < length ws.now }
    ensures { result ≡ refused (colour_fault primary (word ws.now a)) }
{
    if primary {
        return if is_zero(ws, a) { Ok(()) } else { Err(7) };
    }
    if is_natural(ws, a) { Ok(()) } else { Err(8) }
}

// The fault of the entry at p among n items, np of them primary. The items before it in its option are those marked
// with `stamp`.
#[tactic(auto, using(crate::proofs::MarkLaws::entry_laws))]
fn entry_fault(
    ws: &[i32],
    p: usize,
    np: usize,
    n: usize,
    marks: &[usize],
    stamp: usize,
) -> Result<(), u32>
    requires p_in_bounds { p + 2 ≤ length ws.now }
    requires n_in_bounds { n ≤ length marks.now }
    ensures { (seen : List ℤ) → Marked marks.now n stamp seen
        → result ≡ refused (entry_fault np n seen (pair_at ws.now p)) }
{
    if !is_below(ws, p, n) {
        return Err(5);
    }
    let x = link_at(ws, p);
    let again = repeat_fault(marks, x, stamp);
    let colour = colour_fault(ws, p + 1, x < np);
    again.and(colour)
}

// The first fault of the k entries at p. Each item passed is marked with `stamp`, which is above the marks found.
#[tactic(auto, using(crate::proofs::FaultWalk::passing_laws))]
fn option_fault(
    ws: &[i32],
    p: usize,
    k: usize,
    np: usize,
    n: usize,
    marks: &mut [usize],
    stamp: usize,
) -> Result<(), u32>
    requires k_in_bounds { p + 2 * k ≤ length ws.now }
    requires n_in_bounds { n ≤ length marks.old }
    requires older { Older marks.old n stamp }
    ensures value { result ≡ refused (option_fault np n [] (entries_at ws.now p k)) }
    ensures older_2 { Older marks.new n (stamp + 1) }
{
    for i in 0..k {
        let q = p + 2 * i;
        entry_fault(ws, q, np, n, marks, stamp)?;
        marks[link_at(ws, q)] = stamp;
    }
    Ok(())
}

// The first fault of the m options from the fourth word on. An option's stamp is where it stands, so stamps rise and no
// mark is cleared.
#[tactic(auto, using(crate::proofs::FaultWalk::searching_laws))]
fn options_fault(ws: &[i32], m: usize, np: usize, n: usize, marks: &mut [usize]) -> Result<(), u32>
    requires whole { Whole ws.now 3 m }
    requires n_in_bounds { n ≤ length marks.old }
    requires older { Older marks.old n 3 }
    ensures { result ≡ refused (options_fault np n (options_at ws.now 3 m)) }
{
    let mut at: usize = 3;
    for _ in 0..m {
        let k = link_at(ws, at);
        option_fault(ws, at + 1, k, np, n, marks, at)?;
        at += 1 + 2 * k;
    }
    Ok(())
}

// The refusal 5 to 8 at the first faulty entry of words whose sizes were found. `marks` is lent to work in: one for
// each item.
pub fn first_fault(problem: &[i32], s: Sizes, marks: &mut [usize]) -> Result<(), u32>
    requires measured { Measured problem.now s }
    requires ns_in_bounds { s.np + s.ns ≤ length marks.old }
    ensures { result ≡ refused (fault (cut problem.now)) }
{
    let n = s.np + s.ns;
    marks[..n].fill(0);
    options_fault(problem, s.options, s.np, n, marks)
}
