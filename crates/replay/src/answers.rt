// Document 01's number and values for each answer.
ghost use Rattle.rules.specs.Calls.{next_said, state_said};
ghost use Rattle.replay.specs.Answers.{Says};

use rules::{NextAnswer, Phase, Refused, State};

#[derive(Clone, Copy)]
pub struct Said {
    pub number: u32,
    pub visits: u64,
    pub state: State,
}

// Of Set-up and of Give-up.
impl From<Result<State, Refused>> for Said {
    ghost from_gives = { λ answer said. Says said (state_said answer) };

    fn from(answer: Result<State, Refused>) -> Said {
        match answer {
            Ok(state) => Said {
                number: 0,
                visits: 0,
                state,
            },
            Err(Refused { state, number }) => Said {
                number,
                visits: 0,
                state,
            },
        }
    }
}

// Of Next.
impl From<Result<NextAnswer, Refused>> for Said {
    ghost from_gives = { λ answer said. Says said (next_said answer) };

    fn from(answer: Result<NextAnswer, Refused>) -> Said {
        match answer {
            Ok(
                walk @ (NextAnswer::Solution(state, visits)
                | NextAnswer::Exhausted(state, visits)
                | NextAnswer::Paused(state, visits)),
            ) => Said {
                number: walk.number(),
                visits,
                state,
            },
            Err(Refused { state, number }) => Said {
                number,
                visits: 0,
                state,
            },
        }
    }
}

// The lines' numbers: `Phase` is a type of `rules`, where it has none.
pub fn phase_number(phase: Phase) -> u64 {
    match phase {
        Phase::Ready => 0,
        Phase::Solution => 1,
        Phase::Done => 2,
    }
}
