// A small night: three runs are due, and two machines have an hour. A run is a primary item, a machine's minute a secondary item, and its
// colour the runtime loaded there: runs may share a minute of a machine where they want the same runtime.
#![tactic(auto)]

use rules::{NextAnswer, State};
use std::fmt;

const RUNS: usize = 3;

const MACHINES: usize = 2;

const OPTIONS: usize = 6;

// Where a run may be placed, and the runtime that it wants there.
#[derive(Clone, Copy)]
struct Placement {
    run: u8,
    minute: u8,
    machine: u8,
    runtime: u8,
}

const PLACEMENTS: [Placement; OPTIONS] = [
    Placement {
        run: 0,
        minute: 30,
        machine: 0,
        runtime: 7,
    },
    Placement {
        run: 0,
        minute: 31,
        machine: 1,
        runtime: 7,
    },
    Placement {
        run: 1,
        minute: 31,
        machine: 1,
        runtime: 9,
    },
    Placement {
        run: 1,
        minute: 31,
        machine: 1,
        runtime: 7,
    },
    Placement {
        run: 2,
        minute: 31,
        machine: 1,
        runtime: 7,
    },
    Placement {
        run: 2,
        minute: 30,
        machine: 0,
        runtime: 9,
    },
];

impl Placement {
    // An option of two entries: the run, uncoloured, and the machine's minute in the colour of the runtime.
    fn option(self) -> [i32; 5] {
        let minute = RUNS + 60 * usize::from(self.machine) + usize::from(self.minute);
        [
            words::link(2),
            words::link(usize::from(self.run)),
            words::link(0),
            words::link(minute),
            words::link(usize::from(self.runtime)),
        ]
    }
}

impl fmt::Display for Placement {
    fn fmt<W: fmt::Write>(&self, f: &mut fmt::Formatter<W>) -> fmt::Result {
        let Placement {
            run,
            minute,
            machine,
            runtime,
        } = *self;
        write!(
            f,
            "run {run} at minute {minute} on machine {machine}, runtime {runtime}"
        )
    }
}

// The lists lent to each call.
#[derive(Drop)]
struct Lent {
    problem: [i32; 33],
    table: [i32; 822],
    spare: [i32; 822],
    path: [i32; 3],
    profile: [u64; 3],
    found: [i32; 3],
}

impl Lent {
    fn new() -> Self {
        let mut problem = [0; 33];
        problem[..3].copy_from_slice(&[
            words::link(RUNS),
            words::link(60 * MACHINES),
            words::link(OPTIONS),
        ]);
        for (option, placement) in problem[3..].chunks_exact_mut(5).zip(&PLACEMENTS) {
            option.copy_from_slice(&placement.option());
        }
        Lent {
            problem,
            table: [0; 822],
            spare: [0; 822],
            path: [0; 3],
            profile: [0; 3],
            found: [0; 3],
        }
    }

    fn set_up(&mut self) -> Result<State, rules::Refused> {
        calls::set_up(
            &self.problem,
            &mut self.table,
            &mut self.path,
            &mut self.profile,
        )
    }

    fn next(&mut self, state: State) -> Result<NextAnswer, rules::Refused> {
        calls::next(
            &self.problem,
            &mut self.table,
            &mut self.spare,
            &mut self.path,
            &mut self.profile,
            &mut self.found,
            state,
            1000,
        )
    }

    // A solution's placements, in the order in which they were chosen.
    fn show(&self, rt: &HostRuntime, solution: State) {
        for option in calls::report(&self.found, solution) {
            let Some(placement) = words::number(*option).and_then(|o| PLACEMENTS.get(o)) else {
                continue;
            };
            let _ = rt.println(placement);
        }
    }
}

// Shows the solutions one by one. A proved loop has to end: a hundred are more than this night has.
fn show_nights(rt: &HostRuntime, lent: &mut Lent, ready: State) {
    let mut state = ready;
    for night in 1..=100 {
        match lent.next(state) {
            Ok(NextAnswer::Solution(after, _)) => state = after,
            Ok(NextAnswer::Exhausted(_, _)) => {
                let _ = rt.println("no more");
                return;
            }
            _ => {
                let _ = rt.println("stopped");
                return;
            }
        }
        let _ = println!(rt; "night {night}");
        lent.show(rt, state);
    }
}

fn main(rt: HostRuntime) {
    let mut lent = Lent::new();
    match lent.set_up() {
        Ok(ready) => show_nights(&rt, &mut lent, ready),
        Err(refused) => {
            let number = refused.number;
            let _ = println!(rt; "refused {number}");
        }
    }
}
