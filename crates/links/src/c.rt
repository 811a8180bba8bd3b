// `c.rs`: the nodes, and committing an option's entries with their colours.
ghost use Rattle.std.specs.Prelude.{◌≡◌, not, List, ℕ, suc, ◌<◌, ◌≤◌, T, ℤ, pos, negsuc, length, set};
ghost use Rattle.std.specs.Int.Signed.{lt_z, non_neg};
ghost use Rattle.rules.specs.Words.{word, same};
ghost use Rattle.rules.specs.Problem.{Entry, Problem, items};
ghost use Rattle.rules.specs.Order.{Choice, has_item, one_colour};
ghost use Rattle.rules.specs.Links.{Node, others, first_or, own, met, touch, commit_node, try, unlink, fall, apply};
ghost use Rattle.rules.specs.Links as Links;
ghost use Rattle.words.specs.Read.{Link, Above, CanRise, Spacer};
ghost use Rattle.tables.specs.Shows.{view};
ghost use Rattle.tables.specs.Undo.{undo, rise};
ghost use Rattle.tables.specs.Views.{View};
ghost use Rattle.links.specs.Moves.{InList, SomeList, IsHeader, SomeHeader, IsNode, SomeNode, Done, CanCommit, SomeCommit, Committed, SomeCommitted};
ghost use Rattle.links.specs.Laps.{Lap, Does, SomeLap, LapDone, Undoes, SomeLapBack};
ghost use Rattle.links.specs.Steps.{HasLink, Stands, SomeUnlink, SomeRelink, OneNode, SomeOne, unless, OneHidden, SomeOneHidden, CanHide, SomeHide, Hidden, SomeHidden};
ghost use Rattle.links.specs.Steps.{Meeting, SomeMeeting, Parting, SomeParting, CanPurify, SomePurify, Purified, SomePurified, CanCommitNode, SomeCommitNode, CommittedNode, SomeCommittedNode};

use crate::x::{cover, uncover};
use words::{
    is_link, is_natural, is_positive, is_zero, link_at, lower_at, mark, option_at, put_link,
    raise_at,
};

// ---- `ONodes`

// The words of node q. The contracts name the places, which the code writes out.
// A function for each word, as in the Rust: one function of the word's number would be read by that number.

// The header of its item; of a header, the length of its list.
pub(crate) fn top_of(t: &[i32], n: usize, q: usize) -> usize
    requires { HasLink t.now (Links.top n q) }
    ensures { Link t.now (Links.top n q) result }
{
    link_at(t, 2 * (n + 2) + 4 * q)
}

// Whether it is a node of an option, and no spacer.
fn is_node(t: &[i32], n: usize, q: usize) -> bool
    requires { Links.top n q < length t.now }
    ensures { result ≡ lt_z (pos 0) (word t.now (Links.top n q)) }
{
    is_positive(t, 2 * (n + 2) + 4 * q)
}

// Whether it has a top: the spacer after an option has the option's number instead.
fn has_top(t: &[i32], n: usize, q: usize) -> bool
    requires { Links.top n q < length t.now }
    ensures { result ≡ non_neg (word t.now (Links.top n q)) }
{
    is_natural(t, 2 * (n + 2) + 4 * q)
}

fn number_of(t: &[i32], n: usize, q: usize) -> usize
    requires q_in_bounds { Links.top n q < length t.now }
    requires t { T (not (non_neg (word t.now (Links.top n q)))) }
    ensures { Spacer t.now (Links.top n q) result }
{
    option_at(t, 2 * (n + 2) + 4 * q)
}

// The list of a header is shorter, or longer, by one.
fn lower_len(t: &mut [i32], n: usize, i: usize)
    requires i_in_bounds { Links.top n i < length t.old }
    requires above { Above t.old (Links.top n i) }
    ensures { t.new ≡ fall t.old (Links.top n i) }
{
    lower_at(t, 2 * (n + 2) + 4 * i);
}

fn raise_len(t: &mut [i32], n: usize, i: usize)
    requires i_in_bounds { Links.top n i < length t.old }
    requires can_rise { CanRise t.old (Links.top n i) }
    ensures { t.new ≡ rise t.old (Links.top n i) }
{
    raise_at(t, 2 * (n + 2) + 4 * i);
}

// Its neighbours in its list.
pub(crate) fn up_of(t: &[i32], n: usize, q: usize) -> usize
    requires { HasLink t.now (Links.up n q) }
    ensures { Link t.now (Links.up n q) result }
{
    link_at(t, 2 * (n + 2) + 4 * q + 1)
}

fn put_up(t: &mut [i32], n: usize, q: usize, x: usize)
    requires q_in_bounds { Links.up n q < length t.old }
    requires x_bound { x < 2147483648 }
    ensures { t.new ≡ set t.old (Links.up n q) (pos x) }
{
    put_link(t, 2 * (n + 2) + 4 * q + 1, x);
}

pub(crate) fn down_of(t: &[i32], n: usize, q: usize) -> usize
    requires { HasLink t.now (Links.down n q) }
    ensures { Link t.now (Links.down n q) result }
{
    link_at(t, 2 * (n + 2) + 4 * q + 2)
}

fn put_down(t: &mut [i32], n: usize, q: usize, x: usize)
    requires q_in_bounds { Links.down n q < length t.old }
    requires x_bound { x < 2147483648 }
    ensures { t.new ≡ set t.old (Links.down n q) (pos x) }
{
    put_link(t, 2 * (n + 2) + 4 * q + 2, x);
}

// Its colour.
fn colour_of(t: &[i32], n: usize, q: usize) -> usize
    requires { HasLink t.now (Links.colour_at n q) }
    ensures { Link t.now (Links.colour_at n q) result }
{
    link_at(t, 2 * (n + 2) + 4 * q + 3)
}

fn put_colour(t: &mut [i32], n: usize, q: usize, c: usize)
    requires q_in_bounds { Links.colour_at n q < length t.old }
    requires c_bound { c < 2147483648 }
    ensures { t.new ≡ set t.old (Links.colour_at n q) (pos c) }
{
    put_link(t, 2 * (n + 2) + 4 * q + 3, c);
}

fn mark_node(t: &mut [i32], n: usize, q: usize)
    requires { Links.colour_at n q < length t.old }
    ensures { t.new ≡ set t.old (Links.colour_at n q) (negsuc 0) }
{
    mark(t, 2 * (n + 2) + 4 * q + 3);
}

// Whether it is not marked, has the colour c, has no colour, or has one.
fn is_unmarked(t: &[i32], n: usize, q: usize) -> bool
    requires { Links.colour_at n q < length t.now }
    ensures { result ≡ non_neg (word t.now (Links.colour_at n q)) }
{
    is_natural(t, 2 * (n + 2) + 4 * q + 3)
}

fn has_colour(t: &[i32], n: usize, q: usize, c: usize) -> bool
    requires q_in_bounds { Links.colour_at n q < length t.now }
    requires c_bound { c < 2147483648 }
    ensures { result ≡ same (word t.now (Links.colour_at n q)) (pos c) }
{
    is_link(t, 2 * (n + 2) + 4 * q + 3, c)
}

fn is_bare(t: &[i32], n: usize, q: usize) -> bool
    requires { Links.colour_at n q < length t.now }
    ensures { result ≡ same (word t.now (Links.colour_at n q)) (pos 0) }
{
    is_zero(t, 2 * (n + 2) + 4 * q + 3)
}

fn is_coloured(t: &[i32], n: usize, q: usize) -> bool
    requires { Links.colour_at n q < length t.now }
    ensures { result ≡ lt_z (pos 0) (word t.now (Links.colour_at n q)) }
{
    is_positive(t, 2 * (n + 2) + 4 * q + 3)
}

// Where it stands: the header x of its item, and its neighbours u and d in its list.
#[derive(Clone, Copy)]
struct Stand {
    x: usize,
    u: usize,
    d: usize,
}

fn stand_of(t: &[i32], n: usize, q: usize) -> Stand
    requires { HasLink t.now (Links.top n q) × HasLink t.now (Links.up n q) × HasLink t.now (Links.down n q) }
    ensures { Stands n t.now q result.x result.u result.d }
{
    Stand {
        x: top_of(t, n, q),
        u: up_of(t, n, q),
        d: down_of(t, n, q),
    }
}

// The length of the list of the item whose header is i.
pub fn len(t: &[i32], n: usize, i: usize) -> usize
    requires { SomeHeader n t.now i }
    ensures { (P : Problem) (held : List Entry) (j : ℕ) → IsHeader P held n t.now j i → result ≡ length ((view P held).list j) }
{
    top_of(t, n, i)
}

// The node after q in its list: the first where q is the header, the header where q is the last.
pub fn dlink(t: &[i32], n: usize, q: usize) -> usize
    requires { SomeList n t.now q }
    ensures value { (P : Problem) (held : List Entry) (i : ℕ) (xs ys : List ℕ) → InList P held n t.now i xs q ys → result ≡ first_or (suc i) ys }
    ensures upper_bound { result < 2147483648 }
{
    down_of(t, n, q)
}

// The header of the item of node x.
pub fn top(t: &[i32], n: usize, x: usize) -> usize
    requires { SomeNode n t.now x }
    ensures { (P : Problem) (held : List Entry) (c : Choice) → IsNode P held n t.now c x → result ≡ suc (own c).item }
{
    top_of(t, n, x)
}

// The number of the option of node x: from the spacer after it.
pub fn option_of(t: &[i32], n: usize, x: usize) -> usize
    requires { SomeNode n t.now x }
    ensures value { (P : Problem) (held : List Entry) (c : Choice) → IsNode P held n t.now c x → result ≡ c.option.number }
    ensures upper_bound { result < 2147483648 }
{
    let mut q = x;
    while has_top(t, n, q) {
        q += 1;
    }
    number_of(t, n, q)
}

// ---- round an option

// Does at each other node of the option of node p what `at` does there, from the node after p round to the one before
// it. The result is the number of updates.
fn round_right<F: Fn(&mut [i32], usize, usize) -> u64>(
    t: &mut [i32],
    n: usize,
    p: usize,
    at: F,
) -> u64
    requires { SomeLap F.pre F.post at n p t.old }
    ensures { (P : Problem) (c : Choice) (L : Lap P c n p t.old) → Does F.pre F.post at L
        → Done (items P) t.old (L.done (others c)) t.new result }
{
    let mut updates: u64 = 0;
    let mut q = p + 1;
    while q != p {
        if is_node(t, n, q) {
            updates += at(t, n, q);
            q += 1;
        } else {
            q = up_of(t, n, q);
        }
    }
    updates
}

// The same in the opposite order, with no updates.
fn round_left<F: Fn(&mut [i32], usize, usize)>(t: &mut [i32], n: usize, p: usize, at: F)
    requires { SomeLapBack F.pre F.post at n p t.old }
    ensures { (P : Problem) (t₁ : List ℤ) (c : Choice) (L : Lap P c n p t₁) → LapDone L t.old
        → Undoes F.pre F.post at L → t.new ≡ t₁ }
{
    let mut q = p - 1;
    while q != p {
        if is_node(t, n, q) {
            at(t, n, q);
            q -= 1;
        } else {
            q = down_of(t, n, q);
        }
    }
}

// ---- hiding

// Node q leaves its list, whose length falls by one.
fn unlink_node(t: &mut [i32], n: usize, q: usize)
    requires { SomeUnlink n t.old q }
    ensures { t.new ≡ apply n t.old (unlink q) }
{
    let s = stand_of(t, n, q);
    put_down(t, n, s.u, s.d);
    put_up(t, n, s.d, s.u);
    lower_len(t, n, s.x);
}

// Node q comes back to its list, whose length rises by one: its own links still say where it stood.
fn relink_node(t: &mut [i32], n: usize, q: usize)
    requires { SomeRelink n t.old q }
    ensures { t.new ≡ undo n t.old (unlink q) }
{
    let s = stand_of(t, n, q);
    put_down(t, n, s.u, q);
    put_up(t, n, s.d, q);
    raise_len(t, n, s.x);
}

// Node q leaves its list, unless it is marked. The result is the number of updates.
fn hide_node(t: &mut [i32], n: usize, q: usize) -> u64
    requires { SomeOne n t.old q }
    ensures done { (P : Problem) (W : View) (x : Node) → OneNode P W n t.old x q → Done (items P) t.old (unless (W.marked q) q) t.new result }
    ensures upper_bound { result ≤ 1 }
{
    if !is_unmarked(t, n, q) {
        return 0;
    }
    unlink_node(t, n, q);
    1
}

// Node q comes back to its list, unless it is marked.
fn unhide_node(t: &mut [i32], n: usize, q: usize)
    requires { SomeOneHidden n t.old q }
    ensures { (P : Problem) (W : View) (t₁ : List ℤ) (x : Node) → OneHidden P W n t₁ t.old x q → t.new ≡ t₁ }
{
    if is_unmarked(t, n, q) {
        relink_node(t, n, q);
    }
}

// Hides the option of node p: its other nodes leave their lists, unless they are marked. The result is the number of updates.
pub(crate) fn hide(t: &mut [i32], n: usize, p: usize) -> u64
    requires { SomeHide n t.old p }
    ensures { (P : Problem) (W : View) (held : List Entry) (c : Choice) → CanHide P W n t.old held c p → Done (items P) t.old (Links.hide P held c) t.new result }
{
    round_right(t, n, p, hide_node)
}

// Unhides the option of node p: all in the opposite order.
pub(crate) fn unhide(t: &mut [i32], n: usize, p: usize)
    requires { SomeHidden n t.old p }
    ensures { (P : Problem) (W : View) (t₁ : List ℤ) (held : List Entry) (c : Choice) → Hidden P W n t₁ t.old held c p → t.new ≡ t₁ }
{
    round_left(t, n, p, unhide_node);
}

// ---- purifying

// Meets node q of an item that is purified to the colour c: marks it if it has the colour, and else hides its option. The result is the
// number of updates.
fn purify_node(t: &mut [i32], n: usize, q: usize, c: usize) -> u64
    requires some_meeting { SomeMeeting n t.old q c }
    requires c_bound { c < 2147483648 }
    ensures { (P : Problem) (W : View) (held : List Entry) (e : Entry) (d : Choice) → Meeting P W n t.old held e d q c → Done (items P) t.old (met P (one_colour e (own d)) held d) t.new result }
{
    if has_colour(t, n, q, c) {
        mark_node(t, n, q);
        return 0;
    }
    hide(t, n, q)
}

// Meets node q on the way back: a marked node gets its colour c again, and any other has its option unhidden.
fn unpurify_node(t: &mut [i32], n: usize, q: usize, c: usize)
    requires some_parting { SomeParting n t.old q c }
    requires c_bound { c < 2147483648 }
    ensures { (P : Problem) (W : View) (t₁ : List ℤ) (held : List Entry) (e : Entry) (d : Choice) → Parting P W n t₁ t.old held e d q c → t.new ≡ t₁ }
{
    if is_unmarked(t, n, q) {
        unhide(t, n, q);
    } else {
        put_colour(t, n, q, c);
    }
}

// Purifies the item of node p to p's colour. The result is the number of updates. The walk is as in `cover`, but a step
// takes the colour too, so that one function for both would be no plainer.
fn purify(t: &mut [i32], n: usize, p: usize) -> u64
    requires { SomePurify n t.old p }
    ensures { (P : Problem) (held : List Entry) (e : Entry) → CanPurify P held n t.old e p → Done (items P) t.old (touch P held e) t.new result }
{
    let c = colour_of(t, n, p);
    let i = top_of(t, n, p);
    let mut updates: u64 = 0;
    let mut q = down_of(t, n, i);
    while q != i {
        updates += purify_node(t, n, q, c);
        q = down_of(t, n, q);
    }
    updates
}

// Unpurifies the item of node p, which still has its colour: all in the opposite order.
fn unpurify(t: &mut [i32], n: usize, p: usize)
    requires { SomePurified n t.old p }
    ensures { (P : Problem) (held : List Entry) (t₁ : List ℤ) (e : Entry) → Purified P held n t₁ t.old e p → t.new ≡ t₁ }
{
    let c = colour_of(t, n, p);
    let i = top_of(t, n, p);
    let mut q = up_of(t, n, i);
    while q != i {
        unpurify_node(t, n, q, c);
        q = up_of(t, n, q);
    }
}

// ---- committing

// Commits node p: its item is covered, or purified where p has a colour. A marked node's item is held already. The
// result is the number of updates.
fn commit(t: &mut [i32], n: usize, p: usize) -> u64
    requires { SomeCommitNode n t.old p }
    ensures { (P : Problem) (held : List Entry) (x : Node) → CanCommitNode P held n t.old x p
        → Done (items P) t.old (commit_node P (has_item x.entry.item held) held x.entry) t.new result }
{
    if is_bare(t, n, p) {
        let j = top_of(t, n, p);
        return cover(t, n, j);
    }
    if is_coloured(t, n, p) {
        return purify(t, n, p);
    }
    0
}

// Uncommits node p, whose colour is as it was.
fn uncommit(t: &mut [i32], n: usize, p: usize)
    requires { SomeCommittedNode n t.old p }
    ensures { (P : Problem) (held : List Entry) (t₁ : List ℤ) (x : Node) → CommittedNode P held n t₁ t.old x p
        → t.new ≡ t₁ }
{
    if is_bare(t, n, p) {
        let j = top_of(t, n, p);
        uncover(t, n, j);
        return;
    }
    if is_coloured(t, n, p) {
        unpurify(t, n, p);
    }
}

// Commits the other nodes of the option of node x, whose item is covered. The result is the number of updates.
pub fn commit_all(t: &mut [i32], n: usize, x: usize) -> u64
    requires { SomeCommit n t.old x }
    ensures { (P : Problem) (held : List Entry) (c : Choice) → CanCommit P held n t.old c x → Done n t.old (try P held c) t.new result }
{
    round_right(t, n, x, commit)
}

// Uncommits them, from the node before x round to the one after it: all in the opposite order.
pub fn uncommit_all(t: &mut [i32], n: usize, x: usize)
    requires { SomeCommitted n t.old x }
    ensures { (P : Problem) (held : List Entry) (t₁ : List ℤ) (c : Choice) → Committed P held n t₁ t.old c x → t.new ≡ t₁ }
{
    round_left(t, n, x, uncommit);
}
