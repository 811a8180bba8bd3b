// The lines that run a public call on the lists as lent, and print: `u`, `n`, `g` and `r`.
use crate::answers::{Said, phase_number};
use crate::lent::Lent;
use crate::line::Operands;
use crate::output::Output;

// The allowance of a line `n A`.
fn allowance(mut operands: Operands<'_>) -> Option<u64> {
    let visits = operands.number(u64::MAX)?;
    operands.end()?;
    Some(visits)
}

fn next(lent: &mut Lent, allowance: u64) -> Said {
    Said::from(calls::next(
        lent.problem.as_slice(),
        lent.table.as_mut_slice(),
        lent.spare.as_mut_slice(),
        lent.path.as_mut_slice(),
        lent.profile.as_mut_slice(),
        lent.found.as_mut_slice(),
        lent.state,
        allowance,
    ))
}

fn set_up(lent: &mut Lent) -> Said {
    Said::from(calls::set_up(
        lent.problem.as_slice(),
        lent.table.as_mut_slice(),
        lent.path.as_mut_slice(),
        lent.profile.as_mut_slice(),
    ))
}

fn give_up(lent: &mut Lent) -> Said {
    Said::from(calls::give_up(
        lent.problem.as_slice(),
        lent.table.as_mut_slice(),
        lent.spare.as_mut_slice(),
        lent.path.as_mut_slice(),
        lent.state,
    ))
}

// `ANSWER VISITS PHASE DEPTH UPDATES`, and a line for each list.
fn answer(lent: &mut Lent, said: Said, out: &mut Output<'_>) {
    lent.state = said.state;
    let state = said.state;
    out.put_figure(u64::from(said.number), b' ');
    out.put_figure(said.visits, b' ');
    out.put_figure(phase_number(state.phase), b' ');
    out.put_figure(u64::from(state.depth), b' ');
    out.put_figure(state.updates, b'\n');
    out.put_list(lent.table.as_slice());
    out.put_list(lent.spare.as_slice());
    out.put_list(lent.path.as_slice());
    out.put_list(lent.profile.as_slice());
    out.put_list(lent.found.as_slice());
}

// Runs a line, if it is a command.
pub fn run(line: &[u8], lent: &mut Lent, out: &mut Output<'_>) -> Option<()> {
    match line {
        [b'p', rest @ ..] => return lent.set_problem(Operands::new(rest)),
        [b'l', rest @ ..] => return lent.set_lengths(Operands::new(rest)),
        [b's', rest @ ..] => return lent.set_state(Operands::new(rest)),
        [b'w', rest @ ..] => return lent.set_figure(Operands::new(rest)),
        [b'r'] => {
            out.put_list(calls::report(lent.found.as_slice(), lent.state));
            return Some(());
        }
        _ => {}
    }
    let said = match line {
        [b'u'] => set_up(lent),
        [b'g'] => give_up(lent),
        [b'n', rest @ ..] => next(lent, allowance(Operands::new(rest))?),
        _ => return None,
    };
    answer(lent, said, out);
    Some(())
}
