// From a state to its numbers.
ghost use Rattle.std.specs.Prelude.{◌≡◌, ◌++◌, ◌+◌, ◌*◌, ◌≤◌, length, take, drop};
ghost use Rattle.std.proofs.Math.Seq.{paste};
ghost use Rattle.reason.specs.Checked.{checked};
ghost use Rattle.snapshot.specs.Snapshot as defs;

use crate::{FIRST_TASK, OWN, PER_TASK, SIZE, TASKS};
use lines::Task;
use machine::State;
use reason::{Reason, Refusal};

// A task's fifteen numbers.
fn task_numbers(task: Task, moves: u32, waits: u32) -> [u64; PER_TASK]
    ensures { result ≡ defs.task_numbers task moves waits }
{
    [
        u64::from(task.line),
        u64::from(task.count),
        u64::from(task.tag),
        u64::from(task.old),
        task.list,
        u64::from(task.looked),
        u64::from(task.aim),
        u64::from(task.toggle),
        u64::from(task.flag),
        u64::from(task.start),
        u64::from(moves),
        u64::from(waits),
        u64::from(task.work),
        u64::from(task.left),
        u64::from(task.own),
    ]
}

// The five numbers of the state itself.
fn head_numbers(state: &State) -> [u64; OWN]
    ensures { result ≡ defs.head_numbers state.now }
{
    [
        u64::from(state.kind),
        u64::from(state.n),
        u64::from(state.modulus),
        u64::from(state.arrivals),
        u64::from(state.sense),
    ]
}

// The parents, each as a number of 64 bits.
fn parent_numbers(state: &State) -> [u64; TASKS]
    ensures { result ≡ defs.parent_numbers state.now }
{
    state.parents.map(u64::from)
}

// Writes the numbers to the list, from the place on. rows/src/lib.rt has the same for 32 bits: one generic function would need a crate below both,
// for one line.
fn write(list: &mut [u64], place: usize, numbers: &[u64])
    requires { place + length numbers.now ≤ length list.old }
    ensures { list.new ≡ paste list.old place numbers.now (length numbers.now) }
{
    list[place..place + numbers.len()].copy_from_slice(numbers);
}

// Writes the numbers of all tasks, after those of the state and the parents. By places and not by `chunks_exact_mut`, whose contract tells
// nothing of the numbers that are written through it.
fn write_tasks(list: &mut [u64; SIZE], state: &State)
    ensures { list.new ≡ take 69 list.old ++ defs.tasks_numbers state.now 64 }
{
    for q in 0..TASKS {
        let numbers = task_numbers(state.tasks[q], state.moves[q], state.waits[q]);
        write(list, FIRST_TASK + PER_TASK * q, &numbers);
    }
}

// Writes the numbers of a state.
fn write_state(list: &mut [u64; SIZE], state: &State)
    ensures { list.new ≡ defs.numbers_of state.now }
{
    write(list, 0, &head_numbers(state));
    write(list, OWN, &parent_numbers(state));
    write_tasks(list, state);
}

// Writes the numbers of a state to the list. A list that is too short is refused, and nothing is written to it.
pub fn save(state: State, list: &mut [u64]) -> Result<(), Refusal>
    ensures value { result ≡ checked (defs.room_reason list.old) }
    ensures list_after { list.new ≡ defs.saved_to state list.old }
{
    let numbers = list.first_chunk_mut::<SIZE>().ok_or(Reason::Room)?;
    write_state(numbers, &state);
    Ok(())
}
