// The refusals of a problem, 1 to 9, which every call makes first.
ghost use Rattle.std.specs.Prelude.{◌≡◌, ◌<◌, ◌^◌, length};
ghost use Rattle.rules.specs.Problem.{cut, sizes, node_count, judged, problem_refusal};
ghost use Rattle.problem.specs.Room.{room, served};

use crate::check;
use crate::fault::first_fault;
use rules::{Limits, Sizes};

// The limits, where no more than `marks` items can be marked.
fn served(limits: Limits, marks: usize) -> Limits
    ensures { result ≡ served limits marks }
{
    Limits {
        items: limits.items.min(marks),
        options: limits.options,
        entries: limits.entries,
    }
}

// Whether tables of `tables` words and lists of `lists` have room for a problem of these sizes: four words for each node, and two for each item
// and each head of a ring.
fn has_room(s: Sizes, tables: usize, lists: usize) -> bool
    requires { node_count s < 2 ^ 64 }
    ensures { result ≡ room tables lists s }
{
    let n = s.np + s.ns + 2;
    let nodes = n + s.entries + s.kept;
    nodes <= tables / 4 && 2 * n <= tables - 4 * nodes && s.np <= lists
}

// Refusals 1 to 9, or the sizes. The shortest lent table has `tables` words, the shortest lent list `lists`. `marks` is lent to work in, one for
// each item: where there are fewer than the limit, they are the limit.
#[tactic(auto, using(crate::proofs::RoomLaws::room_laws))]
pub fn accept(
    problem: &[i32],
    limits: Limits,
    least: usize,
    tables: usize,
    lists: usize,
    marks: &mut [usize],
) -> Result<Sizes, u32>
    ensures { result ≡ judged (problem_refusal (served limits (length marks.old)) least (room tables lists) problem.now) (sizes (cut problem.now)) }
{
    let s = check(problem, served(limits, marks.len()), least)?;
    if !has_room(s, tables, lists) {
        return Err(9);
    }
    first_fault(problem, s, marks)?;
    Ok(s)
}
