// The test of the problem words, for any limits: refusals 1 to 4 and the sizes here, refusals 5 to 8 in `fault`, all of 1 to 9 in `room`.
#![tactic(auto)]

mod fault;
pub mod room;

ghost use Rattle.std.specs.Prelude.{◌≡◌, ◌+◌, ◌*◌, ◌≤◌, ◌<◌, ◌^◌, length, drop};
ghost use Rattle.rules.specs.declared.Sizes.{Sizes};
ghost use Rattle.rules.specs.Problem.{entry_count, pairs_kept, cut_options, verdict, node_count};
ghost use Rattle.problem.specs.CutLaws.{entries_at};
ghost use Rattle.problem.specs.Heads.{Heads};
ghost use Rattle.problem.specs.Sums.{met, add_option, total, no_sums};

use rules::{Limits, Sizes};
use words::{at_least, is_below, is_natural, link_at};

// Of the options passed: the entries of all, how many are kept, and the entries of these.
#[derive(Clone, Copy)]
struct Sums {
    all: usize,
    kept: usize,
    entries: usize,
}

// The entry count at `at`, if the words have room for its entries.
#[tactic(auto, using(crate::proofs::Tests::count_laws))]
fn count_at(ws: &[i32], at: usize) -> Option<usize>
    ensures { result ≡ entry_count (drop at ws.now) }
{
    if ws.len() <= at || !is_natural(ws, at) {
        return None;
    }
    let k = link_at(ws, at);
    (2 * k <= ws.len() - at - 1).then_some(k)
}

// Whether one of the k entries at p has a primary item.
#[tactic(auto, using(crate::proofs::KeepLaws::kept_turn, crate::proofs::KeepLaws::kept_end))]
fn keeps(ws: &[i32], p: usize, k: usize, np: usize) -> bool
    requires { p + 2 * k ≤ length ws.now }
    ensures { result ≡ pairs_kept np (entries_at ws.now p k) }
{
    for i in 0..k {
        if is_below(ws, p + 2 * i, np) {
            return true;
        }
    }
    false
}

// The cursor over the options: the entry count of the option that begins at `at`, if the words have room for it, and
// whether it is kept. Its entries follow its count, and the next option follows them.
pub fn read_option(ws: &[i32], at: usize, np: usize) -> Option<(usize, bool)>
    ensures { result ≡ met (entry_count (drop at ws.now)) (λ k. pairs_kept np (entries_at ws.now (at + 1) k)) }
{
    let k = count_at(ws, at)?;
    Some((k, keeps(ws, at + 1, k, np)))
}

impl Sums {
    // The sums with one option of k entries more.
    fn add_option(self, k: usize, keep: bool) -> Sums
        requires { (self.all + k < 2 ^ 64) × (self.kept + 1 < 2 ^ 64) × (self.entries + k < 2 ^ 64) }
        ensures { result ≡ add_option k keep self }
    {
        let all = self.all + k;
        if keep {
            let kept = self.kept + 1;
            let entries = self.entries + k;
            Sums { all, kept, entries }
        } else {
            Sums { all, ..self }
        }
    }
}

// What m options from the fourth word on come to.
#[tactic(auto, using(crate::proofs::SumLaws::counting_laws))]
fn count_options(ws: &[i32], np: usize, m: usize) -> Option<Sums>
    ensures { result ≡ total np (cut_options m (drop 3 ws.now)) no_sums }
{
    let mut at: usize = 3;
    let mut s = Sums {
        all: 0,
        kept: 0,
        entries: 0,
    };
    for _ in 0..m {
        let (k, keep) = read_option(ws, at, np)?;
        s = s.add_option(k, keep);
        at += 1 + 2 * k;
    }
    if at < ws.len() { None } else { Some(s) }
}

// The refusal that the first three words decide.
#[tactic(auto, using(crate::proofs::HeadLaws::heads_laws))]
fn heads(ws: &[i32], limits: Limits, least: usize) -> Result<(), u32>
    ensures { Heads limits least ws.now result }
{
    if ws.len() < 3 {
        return Err(4);
    }
    if !at_least(ws, 0, 1) {
        return Err(1);
    }
    if !at_least(ws, 2, least) {
        return Err(2);
    }
    if !is_natural(ws, 1) {
        return Err(4);
    }
    if limits.items < link_at(ws, 0) + link_at(ws, 1) {
        return Err(3);
    }
    if limits.options < link_at(ws, 2) {
        return Err(3);
    }
    Ok(())
}

// Refusals 1 to 4 in document 01's order of test, or the sizes, where `least` is the least number of options. The nodes
// of a table of these sizes can be counted. A refusal is its number in document 01, here and above: the clauses of
// every call speak of these numbers (`problem_refusal`).
pub fn check(problem: &[i32], limits: Limits, least: usize) -> Result<Sizes, u32>
    ensures value { result ≡ verdict limits least problem.now }
    ensures s_bound { (s : Sizes) → result ≡ Ok s → node_count s < 2 ^ 64 }
{
    heads(problem, limits, least)?;
    let np = link_at(problem, 0);
    let ns = link_at(problem, 1);
    let options = link_at(problem, 2);
    let s = count_options(problem, np, options).ok_or(4u32)?;
    if limits.entries < s.all {
        return Err(3);
    }
    Ok(Sizes {
        np,
        ns,
        options,
        kept: s.kept,
        entries: s.entries,
    })
}
