// Reads a problem as text from standard input, and prints the option numbers of every solution, a line for each. The
// search's lists, and the text with the count sent, stay parameters: behind a struct's `&mut` field no word is known
// after a call, as was tried in `links`.
#![tactic(auto)]

mod open;
mod page;
mod print;
mod streams;

ghost use Rattle.std.specs.Prelude.{true, List, ◌≡◌, ℕ, ◌+◌, ◌<◌, length};
ghost use Rattle.rules.specs.Problem.{Problem, door_limits, cut, meant};
ghost use Rattle.rules.specs.Order.{pick};
ghost use Rattle.rules.specs.Walk.{listed};
ghost use Rattle.rules.specs.Cover.{accepted, opened, printed};
ghost use Rattle.problem.specs.Room.{Accepted};
ghost use Rattle.door.specs.Solved.{Parts};
ghost use Rattle.cover.specs.Pages.{Coming, SomeComing, Filled};
ghost use Rattle.knuth.specs.Written.{Due, lost, Moved, Ended};

use door::{PROBLEM_WORDS, TABLE_WORDS};
use init::{init_links, table_words};
use open::open;
use page::fill;
use print::{Buffer, put_unread};
use rules::{DOOR_ITEMS, Phase, Sizes, State};
use streams::{LOST, put_page, read_text, say_unwritten};

// The first page of an accepted problem's lines, on parts of the stated lengths; path and profile are zeros.
fn begin(
    problem: &[i32],
    s: Sizes,
    t: &mut [i32],
    path: &mut [i32],
    profile: &mut [u64],
    out: &mut Buffer,
) -> Option<State>
    requires accepted { Accepted door_limits 1 (λ s. true) problem.now s }
    requires parts { Parts s t.old path.old profile.old }
    ensures { Filled (meant (cut problem.now)) (s.np + s.ns)
        (listed (meant (cut problem.now)) (pick (meant (cut problem.now))))
        t.new path.new profile.new out.new.items result }
{
    init_links(t, problem, s);
    let ready = State {
        phase: Phase::Ready,
        depth: 0,
        updates: 0,
    };
    fill(t, path, profile, s.np + s.ns, ready, out)
}

// Writes a page, and fills the next, if this one could be written.
fn turn(
    rt: &HostRuntime,
    text: &[u8],
    t: &mut [i32],
    path: &mut [i32],
    profile: &mut [u64],
    n: usize,
    at: State,
    out: &mut Buffer,
    sent: &mut u64,
) -> Option<State>
    requires due { Due (printed text.now) sent.old out.old.items (length out.old.items) }
    requires used_bound { sent.old + length out.old.items < 18446744073709551616 }
    requires some_coming { SomeComing n t.old path.old profile.old at }
    ensures moved { Moved sent.old (length out.old.items) sent.new }
    ensures filled { sent.new < lost → (P : Problem) (all : List (List ℕ)) →
        Coming P n all t.old path.old profile.old at →
        Filled P n all t.new path.new profile.new out.new.items result }
{
    put_page(rt, text, out, sent);
    if *sent == LOST {
        return None;
    }
    fill(t, path, profile, n, at, out)
}

// A proved loop has to end: nobody waits for as many bytes. LOST is more.
const MOST_BYTES: u64 = 9223372036854775808;

// Prints page after page.
fn show(
    rt: &HostRuntime,
    text: &[u8],
    problem: &[i32],
    s: Sizes,
    t: &mut [i32],
    path: &mut [i32],
    profile: &mut [u64],
    out: &mut Buffer,
    sent: &mut u64,
)
    requires text_value { opened text.now ≡ accepted problem.now }
    requires accepted { Accepted door_limits 1 (λ s. true) problem.now s }
    requires parts { Parts s t.old path.old profile.old }
    requires sent_value { sent.old ≡ 0 }
    ensures { Ended text.now sent.new }
{
    let n = s.np + s.ns;
    let mut next = begin(problem, s, t, path, profile, out);
    while *sent < MOST_BYTES {
        match next {
            None => return put_page(rt, text, out, sent),
            Some(at) => next = turn(rt, text, t, path, profile, n, at, out, sent),
        }
    }
}

// Prints every solution of an accepted problem.
fn solve(rt: &HostRuntime, text: &[u8], problem: &[i32], s: Sizes, out: &mut Buffer, sent: &mut u64)
    requires text_value { opened text.now ≡ accepted problem.now }
    requires accepted { Accepted door_limits 1 (λ s. true) problem.now s }
    requires sent_value { sent.old ≡ 0 }
    ensures { Ended text.now sent.new }
{
    let mut table = [0i32; TABLE_WORDS];
    let mut path = [0i32; DOOR_ITEMS];
    let mut profile = [0u64; DOOR_ITEMS];
    let words = table_words(s);
    let np = s.np;
    show(
        rt,
        text,
        problem,
        s,
        &mut table[..words],
        &mut path[..np],
        &mut profile[..np],
        out,
        sent,
    );
}

// Prints what the rules say of a text.
fn answer(rt: &HostRuntime, text: &[u8], sent: &mut u64)
    requires { sent.old ≡ 0 }
    ensures { Ended text.now sent.new }
{
    let mut words = [0i32; PROBLEM_WORDS];
    let mut out = Buffer::new();
    match open(text, &mut words) {
        Ok((length, s)) => solve(rt, text, &words[..length], s, &mut out, sent),
        Err(unread) => {
            put_unread(&mut out, unread);
            put_page(rt, text, &out, sent);
        }
    }
}

fn main(rt: HostRuntime) {
    let mut input = [0u8; 65537];
    let count = read_text(&rt, &mut input);
    let mut sent = 0;
    answer(&rt, &input[..count], &mut sent);
    if MOST_BYTES <= sent {
        say_unwritten(&rt);
    }
}
