// The types that every other crate shares, and document 01's limits.
#![tactic(auto)]

ghost use Rattle.std.specs.Prelude.{◌≡◌};
ghost use Rattle.rules.specs.Problem.{library_limits, door_limits};
ghost use Rattle.rules.specs.Calls.{walk_said};

// Ready to visit the point that the path leads to, at a solution there, or done with the search.
#[derive(Clone, Copy)]
pub enum Phase {
    Ready,
    Solution,
    Done,
}

// The search state, passed by value beside the lent lists. No `From` makes a usize of the depth: `as` does, and loses
// nothing, which each place's proof shows.
#[derive(Clone, Copy)]
pub struct State {
    pub phase: Phase,
    pub depth: u32,
    pub updates: u64,
}

// A call that refuses: the number of the refusal, and the state after it. The numbers are document 01's, of which
// `problem_refusal`, `search_refusal` and the clauses speak.
#[derive(Clone, Copy)]
pub struct Refused {
    pub state: State,
    pub number: u32,
}

// How a walk ends: the state there, and the visits that it made. A walk cannot refuse.
#[derive(Clone, Copy)]
pub enum NextAnswer {
    Solution(State, u64),
    Exhausted(State, u64),
    Paused(State, u64),
}

impl NextAnswer {
    pub fn number(self) -> u32
        ensures { result ≡ (walk_said self).number }
    {
        match self {
            NextAnswer::Solution(_, _) => 0,
            NextAnswer::Exhausted(_, _) => 20,
            NextAnswer::Paused(_, _) => 21,
        }
    }
}

// Why the reader of the text form wrote no words: the number of a faulty line, or of another refusal. Refusals are numbers,
// since document 01 numbers them, and `read_said` and the clauses speak of these numbers.
#[derive(Clone, Copy)]
pub enum Unread {
    Faulty(usize),
    Refused(u32),
}

// How many items, options and entries a problem may have.
#[derive(Clone, Copy)]
pub struct Limits {
    pub items: usize,
    pub options: usize,
    pub entries: usize,
}

// What the cut words say of the problem's size: `kept` options have `entries` entries.
#[derive(Clone, Copy)]
pub struct Sizes {
    pub np: usize,
    pub ns: usize,
    pub options: usize,
    pub kept: usize,
    pub entries: usize,
}

pub const LIBRARY_ITEMS: usize = 1024;

pub const LIBRARY_OPTIONS: usize = 4096;

pub const LIBRARY_ENTRIES: usize = 16384;

pub const DOOR_ITEMS: usize = 64;

pub const DOOR_OPTIONS: usize = 64;

pub const DOOR_ENTRIES: usize = 256;

// Updates and profile grow no further.
pub const CAP: u64 = 9223372036854775807;

// A function for each of the limits: one that takes the three numbers would be no more than the struct's literal.
pub fn library() -> Limits
    ensures { result ≡ library_limits }
{
    Limits {
        items: LIBRARY_ITEMS,
        options: LIBRARY_OPTIONS,
        entries: LIBRARY_ENTRIES,
    }
}

pub fn door() -> Limits
    ensures { result ≡ door_limits }
{
    Limits {
        items: DOOR_ITEMS,
        options: DOOR_OPTIONS,
        entries: DOOR_ENTRIES,
    }
}
