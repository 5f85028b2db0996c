// From numbers to the state.
ghost use Rattle.std.specs.Prelude.{◌≡◌, true, ◌+◌, ◌≤◌, ◌<◌, false, get_or, MatchOption};
ghost use Rattle.bitset.specs.Table.{table};
ghost use Rattle.snapshot.specs.Snapshot as defs;

use crate::{FIRST_TASK, OWN, PER_TASK, SIZE, TASKS};
use lines::Task;
use machine::State;
use reason::{Reason, Refusal};
use std::array;

// The most that the field of a task's number holds. A field is its place among the fifteen, since the definitions `most_in` and `fit_from` have it so.
fn most_in(k: usize) -> u64
    ensures { result ≡ defs.most_in k }
{
    match k {
        4 => u64::MAX,
        1 | 10 | 11 => u64::from(u32::MAX),
        _ => u64::from(u8::MAX),
    }
}

// Whether the numbers of the state itself and of the parents have 8 bits.
fn head_fits(list: &[u64; SIZE]) -> bool
    ensures { result ≡ defs.head_fits list.now }
{
    list[..FIRST_TASK].iter().all(|x| *x <= u64::from(u8::MAX))
}

// Whether the numbers of a task fit their fields.
fn task_fits(list: &[u64; SIZE], q: usize) -> bool
    requires { q < 64 }
    ensures { result ≡ defs.fit_from list.now (defs.task_place q) defs.most_in 15 }
{
    (0..PER_TASK).all(|k| list[FIRST_TASK + PER_TASK * q + k] <= most_in(k))
}

// Whether those of all tasks do.
fn tasks_fit(list: &[u64; SIZE]) -> bool
    ensures { result ≡ defs.tasks_fit list.now 64 }
{
    (0..TASKS).all(|q| task_fits(list, q))
}

// A state's numbers, of which each fits its field.
#[derive(Clone, Copy)]
struct Numbers<'a> {
    list: &'a [u64; SIZE],
    ghost fit: { defs.fits list.now ≡ true },
}

impl<'a> Numbers<'a> {
    // The numbers of a list, if they fit.
    fn checked(list: &'a [u64; SIZE]) -> Option<Numbers<'a>>
        ensures { MatchOption result (defs.fits list.now ≡ false) (λ numbers. numbers.list.now ≡ list.now) }
    {
        if head_fits(list) && tasks_fit(list) {
            Some(Numbers { list })
        } else {
            None
        }
    }

    // A task.
    #[tactic(auto, using(crate::proofs::Fits::task_byte, crate::proofs::Fits::task_line, crate::proofs::Fits::task_word))]
    fn task(self, q: usize) -> Task
        requires { q < 64 }
        ensures { result ≡ defs.task_from self.entry.list.now (defs.task_place q) }
    {
        let list = self.list;
        let at = FIRST_TASK + PER_TASK * q;
        Task {
            aim: list[at + 6] as u8,
            toggle: list[at + 7] as u8,
            flag: list[at + 8] as u8,
            start: list[at + 9] as u8,
            count: list[at + 1] as u32,
            list: list[at + 4],
            left: list[at + 13] as u8,
            work: list[at + 12] as u8,
            looked: list[at + 5] as u8,
            old: list[at + 3] as u8,
            tag: list[at + 2] as u8,
            line: list[at] as u8,
            own: list[at + 14] as u8,
        }
    }

    // The parents.
    fn parents(self) -> [u8; TASKS]
        ensures { result ≡ table 64 (λ q. get_or self.entry.list.now (5 + q) 0) }
    {
        let list = self.list;
        array::from_fn(|q| list[OWN + q] as u8)
    }

    // The tallies of moves, or of waits: number k of each task.
    fn tallies(self, k: usize) -> [u32; TASKS]
        requires { (k < 15) × (defs.most_in k ≤ 4294967295) }
        ensures { result ≡ table 64 (λ q. defs.number_in self.entry.list.now q k) }
    {
        let list = self.list;
        array::from_fn(|q| list[FIRST_TASK + PER_TASK * q + k] as u32)
    }

    // The tasks.
    fn tasks(self) -> [Task; TASKS]
        ensures { result ≡ table 64 (λ q. defs.task_from self.entry.list.now (defs.task_place q)) }
    {
        array::from_fn(|q| self.task(q))
    }

    // The state whose numbers these are.
    #[tactic(auto, using(crate::proofs::Fits::head_byte))]
    fn state(self) -> State
        ensures { result ≡ defs.state_from self.entry.list.now }
    {
        let list = self.list;
        State {
            kind: list[0] as u8,
            n: list[1] as u8,
            modulus: list[2] as u8,
            arrivals: list[3] as u8,
            sense: list[4] as u8,
            parents: self.parents(),
            moves: self.tallies(10),
            waits: self.tallies(11),
            tasks: self.tasks(),
        }
    }
}

// The state whose numbers the list has, where each fits its field. Whether the state's fields are in range is not asked here.
pub fn load(list: &[u64]) -> Result<State, Refusal>
    ensures { result ≡ defs.load_answer (defs.load_of list.now) }
{
    let list = list.first_chunk::<SIZE>().ok_or(Reason::Room)?;
    let numbers = Numbers::checked(list).ok_or(Reason::Range)?;
    Ok(numbers.state())
}
