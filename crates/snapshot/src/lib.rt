// A state as a list of 64-bit numbers that a caller can keep between calls: written by `save`, read by `load`. specs/Snapshot.antt defines both.
#![tactic(auto)]

pub mod load;
pub mod save;

// For how many tasks a state has room.
const TASKS: usize = 64;

// How many numbers a state has beside its parents and tasks, and how many each task has.
const OWN: usize = 5;

const PER_TASK: usize = 15;

// Where the numbers of the tasks begin: after the parents.
const FIRST_TASK: usize = OWN + TASKS;

// How many numbers a state has.
pub const SIZE: usize = FIRST_TASK + PER_TASK * TASKS;
