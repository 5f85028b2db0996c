// The step machine of the five barriers: a fresh state, a turn, and who is ready. It gathers what a line reads, stores what it writes, and
// checks ranges; what a line does is the crate `lines`, and what refuses a setup and a task's range are the crate `setup`. What each call answers
// is defined in specs/, and the modules here follow its files: `initial` (Fresh), `range`, `rounds` (Least), `turn`, `able` (Ready); `valid` has
// a state in range as a type. Every public function is total, and its contract is an equation with its definition.
#![tactic(auto)]

ghost use Rattle.std.specs.Prelude.{◌≡◌, []};

mod able;
mod initial;
mod range;
mod rounds;
mod turn;
pub mod valid;

use lines::Task;
use reason::Refusal;

// The most that a tally can be.
pub const MAX_TALLY: u32 = 4_000_000_000;

// A barrier: its kind, its n tasks, the words that they share, for a tree the table of parents, and how often each task has moved and waited
// since the fresh state. Tasks, parents and tallies from n on are 0. The kind is a number, since a caller may hand in any, which `State::check`
// refuses; the tallies stand beside the tasks and not in them, since the definitions of a state and its laws (`state_ok`, `turn_tallies`) go by these
// fields.
#[derive(Clone, Copy)]
pub struct State {
    pub kind: u8,
    pub n: u8,
    pub modulus: u8,
    pub arrivals: u8,
    pub sense: u8,
    pub parents: [u8; 64],
    pub moves: [u32; 64],
    pub waits: [u32; 64],
    pub tasks: [Task; 64],
}

// What a turn that is not refused did. A move carries 1 if it closed a round, that is if the least count rose in that turn, else 0: a number, as
// `closed_by` defines it. Two cases by name and no `Option`, since `outcome_of`, `applied` and `move_number` name both.
#[derive(Clone, Copy)]
pub enum Move {
    Moved(u8),
    Waited,
}

// A turn's answer, what it did or why it was refused, with the state after it. A refusal has a state too, as `refused_turn` defines it.
#[derive(Clone, Copy)]
pub struct Turned {
    pub state: State,
    pub outcome: Result<Move, Refusal>,
}

// What a fresh state is made from, besides its tables. Numbers out of range are refused, so they must fit here, that of the kind too.
#[derive(Clone, Copy)]
pub struct Setup {
    pub kind: usize,
    pub n: usize,
    pub modulus: usize,
}

// The tables that a fresh state may be given: of parents, of starts and of work lengths. One of length 0 is none.
#[derive(Clone, Copy)]
pub struct Tables<'a> {
    pub parents: &'a [u8],
    pub starts: &'a [u8],
    pub works: &'a [u8],
}

impl<'a> Tables<'a> {
    // A table of parents alone.
    pub fn of_parents(parents: &'a [u8]) -> Self
        ensures value { (result.parents.now ≡ parents.now) × (result.starts.now ≡ []) × (result.works.now ≡ []) }
    {
        Tables {
            parents,
            starts: &[],
            works: &[],
        }
    }
}

// A fresh state's answer: whether it was made or why it was refused, with the state. A refusal has a state too, all 0, as `fresh_of` defines it.
#[derive(Clone, Copy)]
pub struct Fresh {
    pub state: State,
    pub made: Result<(), Refusal>,
}

// Ready's answer, the least task that can move if one can, or why the state was refused, with the state as it was, which `ready_of`
// hands back in each case.
#[derive(Clone, Copy)]
pub struct Readied {
    pub state: State,
    pub ready: Result<Option<usize>, Refusal>,
}
