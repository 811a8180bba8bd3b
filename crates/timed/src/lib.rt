// What the benchmark times, over lists that the host lends: set-up, single calls of Next, and the loop of the search
// alone. Each answers a number, as the C interface has it: of document 01, or of calls.
#![tactic(auto)]

ghost use Rattle.std.specs.Prelude.{◌≡◌, List, ℤ};
ghost use Rattle.rules.specs.Problem.{cut, meant};
ghost use Rattle.rules.specs.Calls.{blank, walk_said};
ghost use Rattle.timed.specs.Timed.{set_up_timed, walked, walk_timed, next_timed};
ghost use Rattle.timed.specs.Fronts.{Top};

use calls::{next, set_up};
use init::table_words;
use problem::check;
use rules::{NextAnswer, Phase, Sizes, State, library};
use search::walk_to;

// The largest allowance.
const LARGEST: u64 = 18446744073709551615;

// Set-up: 0, or the number of a refusal.
#[unsafe(no_mangle)]
pub extern "C" fn timed_set_up(
    problem: &[i32],
    table: &mut [i32],
    path: &mut [i32],
    profile: &mut [u64],
) -> u32
    ensures { record { result = result; lent = record { table = table.new; path = path.new; profile = profile.new } } ≡ set_up_timed problem.now (record { table = table.old; path = path.old; profile = profile.old }) }
{
    match set_up(problem, table, path, profile) {
        Ok(_) => 0,
        Err(refused) => refused.number,
    }
}

// Calls of Next from a blank state, each with the largest allowance, until one answers no solution or `most` were made: how many answered one.
#[unsafe(no_mangle)]
pub extern "C" fn timed_next(
    problem: &[i32],
    table: &mut [i32],
    spare: &mut [i32],
    path: &mut [i32],
    profile: &mut [u64],
    found: &mut [i32],
    most: u64,
) -> u64
    ensures { record { result = result; lent = record { table = table.new; spare = spare.new; path = path.new; profile = profile.new; found = found.new } } ≡ next_timed problem.now most (record { table = table.old; spare = spare.old; path = path.old; profile = profile.old; found = found.old }) blank }
{
    let mut state = State {
        phase: Phase::Ready,
        depth: 0,
        updates: 0,
    };
    // Counted apart from the range: the edit `counts_by_two` changes this count, and nothing else.
    let mut solutions = 0u64;
    for _ in 0..most {
        let answer = next(problem, table, spare, path, profile, found, state, LARGEST);
        let Ok(NextAnswer::Solution(at, _)) = answer else {
            break;
        };
        state = at;
        solutions += 1;
    }
    solutions
}

// The walk to solution `number`, on lists that are set up.
fn walk_fronts(
    table: &mut [i32],
    path: &mut [i32],
    profile: &mut [u64],
    s: Sizes,
    number: u64,
) -> NextAnswer
    requires { (ws : List ℤ) × Top ws s (record { table = table.old; path = path.old; profile = profile.old }) }
    ensures { (ws : List ℤ) → Top ws s (record { table = table.old; path = path.old; profile = profile.old })
        → record {
          result = (walk_said result).number;
          lent = record { table = table.new; path = path.new; profile = profile.new };
        }
        ≡ walked (meant (cut ws)) number (record { table = table.old; path = path.old; profile = profile.old }) }
{
    let words = table_words(s);
    let np = s.np;
    let n = np + s.ns;
    walk_to(
        &mut table[..words],
        &mut path[..np],
        &mut profile[..np],
        n,
        number,
        LARGEST,
    )
}

// Set-up, and then the search from the top to solution `number`, from 0, with the largest allowance: 0 there, 20 where there is none, 21 where
// the allowance is spent, or the number of set-up's refusal.
#[unsafe(no_mangle)]
#[tactic(auto, using(crate::proofs::Walked::refused_walk))]
pub extern "C" fn timed_walk(
    problem: &[i32],
    table: &mut [i32],
    path: &mut [i32],
    profile: &mut [u64],
    number: u64,
) -> u32
    ensures { record { result = result; lent = record { table = table.new; path = path.new; profile = profile.new } } ≡ walk_timed problem.now (record { table = table.old; path = path.old; profile = profile.old }) number }
{
    let refusal = timed_set_up(problem, table, path, profile);
    if refusal != 0 {
        return refusal;
    }
    match check(problem, library(), 1) {
        Ok(s) => walk_fronts(table, path, profile, s, number).number(),
        Err(refusal) => refusal,
    }
}
