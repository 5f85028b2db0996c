// A task, and what each line of each barrier does to it: small values in, an effect out. What a line does is defined in specs/, and the
// modules here follow its files: `common` (what the lines share), the five barriers, `rule` (which of them applies) and `words` (what is written).
// Every function is total.
#![tactic(auto)]

pub mod centralized;
mod common;
pub mod increment;
pub mod ring;
pub mod rule;
pub mod symmetric;
pub mod tree;
mod words;

use reason::Refusal;

// The limit of a count.
pub const MAX_COUNT: u32 = 1_000_000;

// A task of the barrier. Which fields a kind uses is said with their ranges, in setup's specs/Range.antt; the others are 0. The order of the
// fields is chosen for the run: with a gap of 1 byte the compiler keeps a task in registers (5 would put it through memory), and every
// line is inlined into the loop, by the hints before its pieces, which `bench/check` looks at. docs/changes/P6.md has what other orders cost.
// A line, a flag or a sense is a number too: a state that a caller hands in may hold any, and setup's `task_ok` tells which are in range.
#[derive(Clone, Copy, PartialEq, Eq, Default)]
pub struct Task {
    pub aim: u8,
    pub toggle: u8,
    pub flag: u8,
    pub start: u8,
    pub count: u32,
    pub list: u64,
    pub left: u8,
    pub work: u8,
    pub looked: u8,
    pub old: u8,
    pub tag: u8,
    pub line: u8,
    pub own: u8,
}

// What a line may read besides tasks and parents: the kind, the number of tasks, and the words that all share. The kind is a number and no `Kind`: a
// state that a caller hands in may have any, and machine's `State::check` refuses one that there is not.
#[derive(Clone, Copy)]
pub struct Shared {
    pub kind: u8,
    pub n: u8,
    pub modulus: u8,
    pub arrivals: u8,
    pub sense: u8,
}

// A line's own outcome: it is carried out, it awaits, or it is refused. Three ways, and the `Result` of a turn is made of them: a line that awaits is
// no failure, and one that is refused has no value.
#[derive(Clone, Copy)]
pub enum Act {
    Moves,
    Waits,
    Refuses(Refusal),
}

// What a line writes besides its own task: nothing, or one shared word. A toggle and a flag name their task.
#[derive(Clone, Copy)]
pub enum Write {
    Nothing,
    Arrivals(u8),
    Sense(u8),
    Toggle(usize, u8),
    Flag(usize, u8),
}

// What a line does: its outcome, the task as it is then, and what is written elsewhere. Where it doesn't move, the task is as it was and
// nothing is written, so that storing all of it is right for a wait too.
#[derive(Clone, Copy)]
pub struct Effect {
    pub act: Act,
    pub task: Task,
    pub write: Write,
}
