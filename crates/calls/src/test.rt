// The refusals of a call on a search: those of the problem, then 11, then 10. Only the spare is written.
ghost use Rattle.std.specs.Prelude.{◌≡◌, ◌≤◌, length};
ghost use Rattle.rules.specs.Lists.{got};
ghost use Rattle.rules.specs.Problem.{cut, meant, table_length};
ghost use Rattle.rules.specs.Order.{pick};
ghost use Rattle.rules.specs.Links.{fresh};
ghost use Rattle.rules.specs.Calls.{counts_fit, point};
ghost use Rattle.calls.specs.Tested.{Parts, Laid, Pointed, Tested};

use init::{init_links, table_words};
use problem::room::accept;
use rules::{CAP, LIBRARY_ITEMS, Sizes, State, library};
use search::point::test_point;

// Whether the state's count and these of the profile are within the cap.
fn counts_fit(state: State, profile: &[u64]) -> bool
    ensures { result ≡ counts_fit state profile.now }
{
    state.updates <= CAP && profile.iter().all(|c| *c <= CAP)
}

// Whether table, path and state are a point of the problem's search. The spare is left fresh.
fn fresh_point(
    problem: &[i32],
    s: Sizes,
    t: &[i32],
    spare: &mut [i32],
    path: &[i32],
    state: State,
) -> bool
    requires { Parts problem.now s t.now spare.old path.now }
    ensures value { result ≡ got (point (meant (cut problem.now)) (pick (meant (cut problem.now))) state t.now path.now) }
    ensures spare_after { spare.new ≡ fresh (meant (cut problem.now)) }
{
    init_links(spare, problem, s);
    test_point(t, spare, path, s.np + s.ns, state)
}

// Refusals 11 and 10 of a call whose words are accepted, or the sizes.
fn test_point_of(
    problem: &[i32],
    table: &[i32],
    spare: &mut [i32],
    path: &[i32],
    profile: &[u64],
    s: Sizes,
    state: State,
) -> Result<Sizes, u32>
    requires laid { Laid problem.now s table.now path.now }
    requires s_in_bounds { table_length s ≤ length spare.old }
    ensures { Pointed problem.now table.now spare.old path.now profile.now s state result spare.new }
{
    let front = s.np.min(profile.len());
    if !counts_fit(state, &profile[..front]) {
        return Err(11);
    }
    let words = table_words(s);
    if !fresh_point(
        problem,
        s,
        &table[..words],
        &mut spare[..words],
        &path[..s.np],
        state,
    ) {
        return Err(10);
    }
    Ok(s)
}

// Refusals 1 to 11, or the sizes. The shortest lent list beside table, spare and path has `more` words; a call that is lent no profile gives an
// empty one.
pub fn test(
    problem: &[i32],
    table: &[i32],
    spare: &mut [i32],
    path: &[i32],
    profile: &[u64],
    more: usize,
    state: State,
) -> Result<Sizes, u32>
    ensures { Tested problem.now table.now spare.old path.now profile.now more state result spare.new }
{
    let mut marks = [0usize; LIBRARY_ITEMS];
    let tables = table.len().min(spare.len());
    let lists = path.len().min(more);
    let s = accept(problem, library(), 1, tables, lists, &mut marks)?;
    test_point_of(problem, table, spare, path, profile, s, state)
}
