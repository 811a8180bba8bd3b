// `Opts::init_links`: the headers, and then an option at a time. An entry's node goes last into its item's list, and a kept option ends in a
// spacer. Node q's words stand from 2 (n + 2) + 4 q on: top or length, up, down, colour. Every word of a new node is written: it does not
// matter what the table held there.
ghost use Rattle.std.specs.Prelude.{◌≡◌, ℕ, ◌+◌, ◌*◌, ◌≤◌, ◌<◌, pos, length};
ghost use Rattle.rules.specs.Problem.{Problem};
ghost use Rattle.rules.specs.Links.{top, fresh};
ghost use Rattle.problem.specs.CutLaws.{entries_at};
ghost use Rattle.tables.specs.Build.{four, add, add_all};
ghost use Rattle.tables.specs.Nodes.{nodes};
ghost use Rattle.init.specs.SetUp.{Alike, bare, longer, option_at, first, AllClean, Live, end_option, Holds, Appends, CanAppend, Enters};

use problem::read_option;
use rules::Sizes;
use words::{link_at, put_link, put_spacer, raise_at};

// The words of node q: its item, or a header's length; its links up and down; its colour. A struct of these four is no
// plainer: a literal of it takes eleven lines at each call.
fn put_node(t: &mut [i32], n: usize, q: usize, item: usize, u: usize, d: usize, colour: usize)
    requires q_in_bounds { top n (q + 1) ≤ length t.old }
    requires item_bound { (item < 2147483648) × (u < 2147483648) × (d < 2147483648) × (colour < 2147483648) }
    ensures { t.new ≡ four t.old (top n q) (pos item) (pos u) (pos d) (pos colour) }
{
    let a = 2 * (n + 2) + 4 * q;
    put_link(t, a, item);
    put_link(t, a + 1, u);
    put_link(t, a + 2, d);
    put_link(t, a + 3, colour);
}

// Nodes 0 to n + 1, before the first option: a header points at itself, and the first spacer at nothing.
fn init_headers(t: &mut [i32], np: usize, ns: usize)
    requires ns_bound { np + ns + 1 < 2147483648 }
    requires ns_in_bounds { top (np + ns) (np + ns + 2) ≤ length t.old }
    requires alike { Alike (2 * (np + ns + 2)) t.old (fresh (bare np ns)) }
    ensures { Alike (top (np + ns) (np + ns + 2)) t.new (fresh (bare np ns)) }
{
    let n = np + ns;
    for i in 0..n + 1 {
        put_node(t, n, i, 0, i, i, 0);
    }
    put_node(t, n, n + 1, 0, 0, 0, 0);
}

// Node q becomes the last of the list of `item`.
#[tactic(auto, using(crate::proofs::EntryLaws::add_made))]
fn add_entry(t: &mut [i32], n: usize, q: usize, item: usize, colour: usize)
    requires item_lt_n { item < n }
    requires q_in_bounds { (top n (q + 1) ≤ length t.old) × (q < 2147483648) × (colour < 2147483648) }
    requires live { Live n q t.old }
    ensures { t.new ≡ add n t.old q (record { item = item; colour = colour }) }
{
    let base = 2 * (n + 2);
    let i = item + 1;
    let u = link_at(t, base + 4 * i + 1);
    put_node(t, n, q, i, u, i, colour);
    put_link(t, base + 4 * u + 2, q);
    put_link(t, base + 4 * i + 1, q);
    raise_at(t, base + 4 * i);
}

// The k entries at p go to the nodes from q on.
#[tactic(auto, using(crate::proofs::EntryLaws::adding_laws))]
fn add_entries(t: &mut [i32], n: usize, q: usize, ws: &[i32], p: usize, k: usize)
    requires k_in_bounds { (p + 2 * k ≤ length ws.now) × (top n (q + k) ≤ length t.old) × (q + k ≤ 2147483648) }
    requires all_clean { AllClean n (entries_at ws.now p k) }
    requires live { Live n q t.old }
    ensures { t.new ≡ add_all n t.old q (option_at ws.now p k) }
{
    for i in 0..k {
        let at = p + 2 * i;
        add_entry(t, n, q + i, link_at(ws, at), link_at(ws, at + 1));
    }
}

// The spacers around option `number`, whose k entries follow the spacer p.
#[tactic(auto, unfolding(crate::specs::SetUp::end_option, tables::specs::Build::close))]
fn end_option(t: &mut [i32], n: usize, number: usize, p: usize, k: usize)
    requires { (top n (p + k + 2) ≤ length t.old) × (p + k + 1 < 2147483648) × (number < 2147483648) }
    ensures { t.new ≡ end_option n t.old number p k }
{
    let base = 2 * (n + 2);
    put_link(t, base + 4 * p + 2, p + k);
    let s = p + k + 1;
    put_spacer(t, base + 4 * s, number);
    put_link(t, base + 4 * s + 1, p + 1);
    put_link(t, base + 4 * s + 2, 0);
    put_link(t, base + 4 * s + 3, 0);
}

// The option of k entries at p goes after the spacer `last`, if it is kept. The result is the last spacer then. A skipped option keeps its
// place in the numbering, so `number` options came before this one.
#[tactic(auto, using(crate::proofs::OptionLaws::append_laws))]
fn append_option(
    t: &mut [i32],
    n: usize,
    number: usize,
    last: usize,
    ws: &[i32],
    p: usize,
    k: usize,
    keep: bool,
) -> usize
    requires { CanAppend n number last t.old ws.now p k keep }
    ensures { (P : Problem) (np : ℕ) → Appends P n np number last t.old ws.now p k keep → Holds (longer P (option_at ws.now p k)) n np (number + 1) result t.new }
{
    if !keep {
        return last;
    }
    add_entries(t, n, last + 1, ws, p, k);
    end_option(t, n, number, last, k);
    last + k + 1
}

// The problem's first m options.
#[tactic(auto, using(crate::proofs::OptionLaws::entering_laws))]
fn enter_options(t: &mut [i32], problem: &[i32], s: Sizes, m: usize)
    requires enters { Enters problem.now s m }
    requires m_in_bounds { top (s.np + s.ns) (nodes (first problem.now s m)) ≤ length t.old }
    requires alike { Alike (top (s.np + s.ns) (s.np + s.ns + 2)) t.old (fresh (bare s.np s.ns)) }
    ensures { Alike (top (s.np + s.ns) (nodes (first problem.now s m))) t.new (fresh (first problem.now s m)) }
{
    let n = s.np + s.ns;
    let mut at: usize = 3;
    let mut last = n + 1;
    for number in 0..m {
        let (k, keep) = read_option(problem, at, s.np).unwrap();
        last = append_option(t, n, number, last, problem, at + 1, k, keep);
        at += 1 + 2 * k;
    }
}

// The headers and the problem's first m options, where the rings of items stand already.
#[tactic(auto, using(crate::proofs::OptionLaws::nodes_least))]
pub fn init_links(t: &mut [i32], problem: &[i32], s: Sizes, m: usize)
    requires enters { Enters problem.now s m }
    requires m_in_bounds { top (s.np + s.ns) (nodes (first problem.now s m)) ≤ length t.old }
    requires alike { Alike (2 * (s.np + s.ns + 2)) t.old (fresh (bare s.np s.ns)) }
    ensures { Alike (top (s.np + s.ns) (nodes (first problem.now s m))) t.new (fresh (first problem.now s m)) }
{
    init_headers(t, s.np, s.ns);
    enter_options(t, problem, s, m);
}
