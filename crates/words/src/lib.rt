// The functions that touch a signed word. The code above this crate sees natural numbers and tests.
#![tactic(auto)]

ghost use Rattle.std.specs.Prelude.{◌≡◌, not, ◌+◌, ◌<◌, ◌≤◌, T, Some, pos, negsuc, length, replicate, set};
ghost use Rattle.std.proofs.Math.IntN.{suc_ℤ};
ghost use Rattle.std.proofs.lemmas.List.Edits.{sets};
ghost use Rattle.std.specs.Int.Signed.{le_z, lt_z, non_neg};
ghost use Rattle.rules.specs.Lists.{each, when};
ghost use Rattle.rules.specs.Words.{word, nat, below, same, same_words, signed, word_bytes};
ghost use Rattle.rules.specs.Links.{fall};
ghost use Rattle.rules.specs.Calls.{capped};
ghost use Rattle.words.specs.Read.{Natural, Link, Above, CanRise, Spacer, quad_at};

use rules::CAP;

// ---- tests

// Whether the word at a is not negative.
pub fn is_natural(t: &[i32], a: usize) -> bool
    requires { a < length t.now }
    ensures { result ≡ non_neg (word t.now a) }
{
    0 <= t[a]
}

// Whether the word at a is above zero.
pub fn is_positive(t: &[i32], a: usize) -> bool
    requires { a < length t.now }
    ensures { result ≡ lt_z (pos 0) (word t.now a) }
{
    0 < t[a]
}

// Whether the word at a is zero.
pub fn is_zero(t: &[i32], a: usize) -> bool
    requires { a < length t.now }
    ensures { result ≡ same (word t.now a) (pos 0) }
{
    t[a] == 0
}

// Whether the word at a is k or more.
pub fn at_least(t: &[i32], a: usize, k: usize) -> bool
    requires { a < length t.now }
    ensures { result ≡ le_z (pos k) (word t.now a) }
{
    is_natural(t, a) && k <= link_at(t, a)
}

// Whether the word at a is a number below n.
pub fn is_below(t: &[i32], a: usize, n: usize) -> bool
    requires { a < length t.now }
    ensures { result ≡ below n (word t.now a) }
{
    is_natural(t, a) && link_at(t, a) < n
}

// Whether the word at a is the number x.
pub fn is_link(t: &[i32], a: usize, x: usize) -> bool
    requires a_in_bounds { a < length t.now }
    requires x_bound { x < 2147483648 }
    ensures { result ≡ same (word t.now a) (pos x) }
{
    t[a] == x as i32
}

// Whether all words are zero.
pub fn are_zeros(t: &[i32]) -> bool
    ensures { result ≡ each (λ w. same w (pos 0)) t.now }
{
    t.iter().all(|w| *w == 0)
}

// Whether two lists are the same, word for word.
#[tactic(auto, using(crate::proofs::Tests::words_same))]
pub fn are_same(s: &[i32], t: &[i32]) -> bool
    ensures { result ≡ same_words s.now t.now }
{
    s == t
}

// ---- numbers

// No cast here loses a bit, which its proof shows; `try_from` would be no plainer, since it would bring a failure that
// never comes.

// The word at a, which is not negative.
pub fn link_at(t: &[i32], a: usize) -> usize
    requires a_in_bounds { a < length t.now }
    requires natural { Natural t.now a }
    ensures { Link t.now a result }
{
    t[a] as usize
}

// The option number of the spacer's top at a, which is negative: negated, less one. One is added before the sign changes: the least word
// has no opposite.
pub fn option_at(t: &[i32], a: usize) -> usize
    requires a_in_bounds { a < length t.now }
    requires t { T (not (non_neg (word t.now a))) }
    ensures { Spacer t.now a result }
{
    (-(t[a] + 1)) as usize
}

// The number of the word w, unless w is negative.
pub fn number(w: i32) -> Option<usize>
    ensures { result ≡ when (non_neg w) (Some (nat w)) }
{
    usize::try_from(w).ok()
}

// The word of the number x.
pub fn link(x: usize) -> i32
    requires { x < 2147483648 }
    ensures { result ≡ pos x }
{
    x as i32
}

// The word -(m + 1).
pub fn spacer(m: usize) -> i32
    requires { m < 2147483648 }
    ensures { result ≡ negsuc m }
{
    -(m as i32) - 1
}

// Writes the number x at a.
pub fn put_link(t: &mut [i32], a: usize, x: usize)
    requires a_in_bounds { a < length t.old }
    requires x_bound { x < 2147483648 }
    ensures { t.new ≡ set t.old a (pos x) }
{
    t[a] = link(x);
}

// Writes -(m + 1) at a.
pub fn put_spacer(t: &mut [i32], a: usize, m: usize)
    requires a_in_bounds { a < length t.old }
    requires m_bound { m < 2147483648 }
    ensures { t.new ≡ set t.old a (negsuc m) }
{
    t[a] = spacer(m);
}

// Writes -1 at a.
pub fn mark(t: &mut [i32], a: usize)
    requires { a < length t.old }
    ensures { t.new ≡ set t.old a (negsuc 0) }
{
    t[a] = -1;
}

// Every word becomes the number x.
pub fn fill(t: &mut [i32], x: usize)
    requires { x < 2147483648 }
    ensures { t.new ≡ replicate (length t.old) (pos x) }
{
    t.fill(link(x));
}

// One less at a.
pub fn lower_at(t: &mut [i32], a: usize)
    requires a_in_bounds { a < length t.old }
    requires above { Above t.old a }
    ensures { t.new ≡ fall t.old a }
{
    t[a] -= 1;
}

// One more at a.
pub fn raise_at(t: &mut [i32], a: usize)
    requires a_in_bounds { a < length t.old }
    requires can_rise { CanRise t.old a }
    ensures { t.new ≡ set t.old a (suc_ℤ (word t.old a)) }
{
    t[a] += 1;
}

// The true sum or the cap, whichever is less.
pub fn capped(a: u64, b: u64) -> u64
    ensures { result ≡ capped a b }
{
    a.saturating_add(b).min(CAP)
}

// ---- bytes

// Writes at k the word of the four bytes from `at` on.
pub fn take_word(bytes: &[u8], at: usize, t: &mut [i32], k: usize)
    requires at_in_bounds { at + 4 ≤ length bytes.now }
    requires k_in_bounds { k < length t.old }
    ensures { t.new ≡ set t.old k (signed (quad_at bytes.now at)) }
{
    t[k] = i32::from_le_bytes([bytes[at], bytes[at + 1], bytes[at + 2], bytes[at + 3]]);
}

// Writes the four bytes of x from `at` on.
pub fn put_bytes(out: &mut [u8], at: usize, x: usize)
    requires { at + 4 ≤ length out.old }
    ensures { out.new ≡ sets out.old at (word_bytes x) }
{
    out[at..at + 4].copy_from_slice(&x.to_le_bytes()[..4]);
}
