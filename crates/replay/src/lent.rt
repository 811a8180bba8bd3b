// What is lent to the calls, and what sets it: the lines `p`, `l`, `s` and `w`.
ghost use Rattle.std.specs.Prelude.{◌≡◌, ◌<◌, length, replicate, OnSome};
ghost use Rattle.replay.specs.Lent.{Sevens};

use crate::figure::Figure;
use crate::line::Operands;
use arrayvec::ArrayVec;
use rules::{Phase, State};

// The lists, each as long as it is lent, and the state of the search.
#[derive(Drop)]
pub struct Lent {
    pub problem: ArrayVec<i32, 4096>,
    pub table: ArrayVec<i32, 8192>,
    pub spare: ArrayVec<i32, 8192>,
    pub path: ArrayVec<i32, 256>,
    pub profile: ArrayVec<u64, 256>,
    pub found: ArrayVec<i32, 256>,
    pub state: State,
}

// How many sevens go to a list at a time.
const AT_ONCE: usize = 256;

// Lends a list of the length that a line says, full of sevens.
fn lend<T: Figure, const MOST: usize>(
    list: &mut ArrayVec<T, MOST>,
    sevens: &[T],
    operands: &mut Operands<'_>,
) -> Option<()>
    requires { 0 < length sevens.now }
    ensures { (seven : T) → sevens.now ≡ replicate (length sevens.now) seven →
        OnSome result (list.new.items ≡ replicate (length list.new.items) seven) }
{
    let length = operands.number(MOST as u64)? as usize;
    list.clear();
    while list.len() < length {
        let more = (length - list.len()).min(sevens.len());
        list.try_extend_from_slice(&sevens[..more]).ok()?;
    }
    Some(())
}

// Stores what `I V` says at place I of a list.
fn store<T: Figure>(list: &mut [T], mut operands: Operands<'_>) -> Option<()> {
    let place = operands.number(u64::MAX)? as usize;
    let figure = T::read(operands.text()?)?;
    *list.get_mut(place)? = figure;
    operands.end()
}

fn phase_of(number: u64) -> Phase {
    match number {
        0 => Phase::Ready,
        1 => Phase::Solution,
        _ => Phase::Done,
    }
}

impl Lent {
    // Nothing lent, and a blank state.
    pub fn new() -> Self {
        Lent {
            problem: ArrayVec::new(),
            table: ArrayVec::new(),
            spare: ArrayVec::new(),
            path: ArrayVec::new(),
            profile: ArrayVec::new(),
            found: ArrayVec::new(),
            state: State {
                phase: Phase::Ready,
                depth: 0,
                updates: 0,
            },
        }
    }

    // `p W..`
    pub fn set_problem(&mut self, mut operands: Operands<'_>) -> Option<()> {
        self.problem.clear();
        while !operands.is_empty() {
            let word = i32::read(operands.text()?)?;
            self.problem.try_push(word).ok()?;
        }
        Some(())
    }

    // `l T S P F O`
    pub fn set_lengths(&mut self, mut operands: Operands<'_>) -> Option<()>
        ensures { OnSome result (Sevens self.new.table.items self.new.spare.items self.new.path.items
            self.new.profile.items self.new.found.items) }
    {
        let mut sevens = [0; AT_ONCE];
        words::fill(&mut sevens, 7);
        let counts = [7; AT_ONCE];
        lend(&mut self.table, &sevens, &mut operands)?;
        lend(&mut self.spare, &sevens, &mut operands)?;
        lend(&mut self.path, &sevens, &mut operands)?;
        lend(&mut self.profile, &counts, &mut operands)?;
        lend(&mut self.found, &sevens, &mut operands)?;
        operands.end()
    }

    // `s P D U`
    pub fn set_state(&mut self, mut operands: Operands<'_>) -> Option<()> {
        let phase = phase_of(operands.number(2)?);
        let depth = operands.number(u64::from(u32::MAX))? as u32;
        let updates = operands.number(u64::MAX)?;
        self.state = State {
            phase,
            depth,
            updates,
        };
        operands.end()
    }

    // `w L I V`. The lists are of two types, so that a match tells them apart.
    pub fn set_figure(&mut self, mut operands: Operands<'_>) -> Option<()> {
        match operands.number(4)? {
            0 => store(self.table.as_mut_slice(), operands),
            1 => store(self.spare.as_mut_slice(), operands),
            2 => store(self.path.as_mut_slice(), operands),
            3 => store(self.profile.as_mut_slice(), operands),
            _ => store(self.found.as_mut_slice(), operands),
        }
    }
}
