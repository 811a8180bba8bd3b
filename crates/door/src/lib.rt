// The host door: one function over bytes, which `door_c` exports, with local tables of the size that its limits ask.
#![tactic(auto)]

ghost use Rattle.std.specs.Prelude.{◌≡◌, [], ◌∷◌, map, ℕ, ◌+◌, ◌*◌, ◌<◌, ◌≤◌, length, take, drop};
ghost use Rattle.rules.specs.Lists.{flat, over, got};
ghost use Rattle.rules.specs.Words.{nat, bytes_words, word_bytes};
ghost use Rattle.rules.specs.Problem.{door_limits, cut, meant, cut_options, cut_refusal, problem_refusal};
ghost use Rattle.rules.specs.Order.{pick};
ghost use Rattle.rules.specs.declared.Phase.TheVariants.{Ready};
ghost use Rattle.rules.specs.Door.{walk_to, door_room, door_walked, door_as, door_call};
ghost use Rattle.words.specs.Read.{Natural};
ghost use Rattle.problem.specs.Room.{Accepted};
ghost use Rattle.door.specs.Solved.{Long, Parts, lists_of};

use init::{init_links, table_words};
use problem::check;
use problem::room::accept;
use rules::{DOOR_ENTRIES, DOOR_ITEMS, DOOR_OPTIONS, NextAnswer, Sizes, door};
use search::{walk_to, write_found};
use words::{is_natural, link_at, put_bytes, take_word};

// The most words that a problem within the limits has: three, a count for each option, and two for each entry.
pub const PROBLEM_WORDS: usize = 3 + DOOR_OPTIONS + 2 * DOOR_ENTRIES;

// The length of the longest table within the limits.
pub const TABLE_WORDS: usize = 2 * (DOOR_ITEMS + 2)
    + 4 * (DOOR_ITEMS + 2 + DOOR_ENTRIES + DOOR_OPTIONS);

// Fills `words` with the first words of the bytes.
#[tactic(auto, using(crate::proofs::Bytes::reading_laws))]
fn read_words(bytes: &[u8], words: &mut [i32])
    requires { 4 * length words.old ≤ length bytes.now }
    ensures { words.new ≡ take (length words.old) (bytes_words bytes.now) }
{
    for k in 0..words.len() {
        take_word(bytes, 4 * k, words, k);
    }
}

// Whether m options from the fourth word on are all that is left of the words.
fn is_whole(bytes: &[u8], m: usize) -> bool
    requires { 12 ≤ length bytes.now }
    ensures { result ≡ got (cut_options m (drop 3 (bytes_words bytes.now))) }
{
    let words = bytes.len() / 4;
    let mut at: usize = 3;
    for _ in 0..m {
        if words <= at {
            return false;
        }
        let mut count = [0i32; 1];
        take_word(bytes, 4 * at, &mut count, 0);
        if !is_natural(&count, 0) {
            return false;
        }
        let k = link_at(&count, 0);
        if words - at - 1 < 2 * k {
            return false;
        }
        at += 1 + 2 * k;
    }
    words <= at
}

// The refusal of more words than the limits allow, as its number: the C interface asks for numbers, here and below.
// Words that are cut right have too many entries then.
fn long_refusal(problem: &[u8]) -> u32
    requires { Long problem.now }
    ensures { (result ≡ cut_refusal door_limits 1 (bytes_words problem.now)) × (0 < result) }
{
    let mut heads = [0i32; 3];
    read_words(problem, &mut heads);
    // Three words alone are refused: as 4 where they do not decide, since an option is missing.
    let alone = check(&heads, door(), 1).unwrap_err();
    if alone != 4 {
        return alone;
    }
    if !is_natural(&heads, 1) {
        return 4;
    }
    if is_whole(problem, link_at(&heads, 2)) {
        3
    } else {
        4
    }
}

// Writes the depth and the first `depth` words of `found` over the front of `out`.
fn write_out(found: &[i32], depth: usize, out: &mut [u8])
    requires by_index { (k : ℕ) → k < depth → Natural found.now k }
    requires depth_in_bounds { depth ≤ length found.now }
    requires depth_in_bounds_2 { 4 + 4 * depth ≤ length out.old }
    ensures { out.new ≡ over (flat word_bytes (depth ∷ map nat (take depth found.now))) out.old }
{
    put_bytes(out, 0, depth);
    for k in 0..depth {
        put_bytes(out, 4 + 4 * k, link_at(found, k));
    }
}

// The search of an accepted problem, on parts of the stated lengths; path and profile are zeros.
fn solve_parts(
    problem: &[i32],
    s: Sizes,
    t: &mut [i32],
    path: &mut [i32],
    profile: &mut [u64],
    number: u64,
    allowance: u64,
    out: &mut [u8],
) -> u32
    requires accepted { Accepted door_limits 1 (door_room out.old) problem.now s }
    requires parts { Parts s t.old path.old profile.old }
    ensures { record { result = result; out = out.new } ≡ door_walked (walk_to (meant (cut problem.now)) (pick (meant (cut problem.now))) number allowance Ready []) out.old }
{
    init_links(t, problem, s);
    let n = s.np + s.ns;
    let answer = walk_to(t, path, profile, n, number, allowance);
    // The numbers of `NextAnswer::number`, written out: the edit `exhausted_for_paused` gives one for the other here.
    match answer {
        NextAnswer::Solution(at, _) => {
            let mut found = [0i32; DOOR_ITEMS];
            // No `From` makes a usize of a u32; that nothing is lost is proved.
            let depth = at.depth as usize;
            write_found(t, n, path, &mut found, depth);
            write_out(&found, depth, out);
            0
        }
        NextAnswer::Exhausted(_, _) => 20,
        NextAnswer::Paused(_, _) => 21,
    }
}

// The search of an accepted problem, on tables of its own.
fn solve(problem: &[i32], s: Sizes, number: u64, allowance: u64, out: &mut [u8]) -> u32
    requires { Accepted door_limits 1 (door_room out.old) problem.now s }
    ensures { record { result = result; out = out.new } ≡ door_walked (walk_to (meant (cut problem.now)) (pick (meant (cut problem.now))) number allowance Ready []) out.old }
{
    let mut table = [0i32; TABLE_WORDS];
    let mut path = [0i32; DOOR_ITEMS];
    let mut profile = [0u64; DOOR_ITEMS];
    let words = table_words(s);
    let np = s.np;
    solve_parts(
        problem,
        s,
        &mut table[..words],
        &mut path[..np],
        &mut profile[..np],
        number,
        allowance,
        out,
    )
}

// How many option numbers an output of `len` bytes has room for after the depth.
fn lists_of(len: usize) -> usize
    ensures { result ≡ lists_of len }
{
    len.saturating_sub(4) / 4
}

// The door over words.
fn answer(problem: &[i32], number: u64, allowance: u64, out: &mut [u8]) -> u32
    ensures { record { result = result; out = out.new } ≡ door_as (problem_refusal door_limits 1 (door_room out.old) problem.now) (meant (cut problem.now)) number allowance out.old }
{
    let mut marks = [0usize; DOOR_ITEMS];
    let lists = lists_of(out.len());
    match accept(problem, door(), 1, TABLE_WORDS, lists, &mut marks) {
        Err(refusal) => refusal,
        Ok(s) => solve(problem, s, number, allowance, out),
    }
}

// Solution `number` of the problem, from 0: 0 with its depth and option numbers over the front of `out`, 20 where there is none, 21 where a
// visit is due and the allowance for the whole call is spent, or the number of a refusal. Bytes are words of 32 bits, the lowest byte first.
pub fn host_door(problem: &[u8], number: u64, allowance: u64, out: &mut [u8]) -> u32
    ensures { record { result = result; out = out.new } ≡ door_call problem.now number allowance out.old }
{
    if problem.len() % 4 != 0 {
        return 4;
    }
    let count = problem.len() / 4;
    if PROBLEM_WORDS < count {
        return long_refusal(problem);
    }
    let mut words = [0i32; PROBLEM_WORDS];
    read_words(problem, &mut words[..count]);
    answer(&words[..count], number, allowance, out)
}
