// The fresh state. specs/Fresh.antt defines it.
ghost use Rattle.std.specs.Prelude.{◌≡◌, ◌≤◌, eqb, length};
ghost use Rattle.bitset.specs.Choice.{pick};
ghost use Rattle.reason.specs.Checked.{checked};
ghost use Rattle.setup.specs.Tables.{start_of, work_of};
ghost use Rattle.machine.specs.Fresh as defs;

use crate::{Fresh, Setup, State, Tables};
use kind::Kind;
use lines::Task;
use reason::Refusal;
use setup::{kinds, reasons};

// The shared sense: 1 for the kinds that have one.
fn fresh_sense(kind: usize) -> u8
    ensures { result ≡ defs.fresh_sense kind }
{
    u8::from(kinds::has_sense(kind))
}

// What only the centralized kind has: the arrivals, which begin with n, and a task's own sense, which begins with 1; 0 for another kind.
fn of_centralized(kind: usize, x: u8) -> u8
    ensures { result ≡ pick (eqb kind 4) x 0 }
{
    if kind == Kind::Centralized.number() {
        x
    } else {
        0
    }
}

// A fresh task: at line 11, with its start, all moves of its work left and its own sense, all else 0.
fn fresh_task(start: u8, work: u8, own: u8) -> Task
    ensures { result ≡ defs.task_with start work own }
{
    Task {
        line: 11,
        start,
        work,
        left: work,
        own,
        ..Task::default()
    }
}

// The tasks of a fresh state: n fresh ones, and all zero from n on. By index: `from_fn` would ask at each of the 64 whether it is
// below n, whose bound is a clause and no type, since `accepted_inputs` gives it to the one call.
fn fresh_tasks(n: usize, starts: &[u8], works: &[u8], own: u8) -> [Task; 64]
    requires { n ≤ 64 }
    ensures { result ≡ defs.fresh_tasks n (λ q. defs.task_with (start_of starts.now q) (work_of works.now q) own) }
{
    let mut all = [Task::default(); 64];
    for q in 0..n {
        all[q] = fresh_task(
            setup::tables::start_of(starts, q),
            setup::tables::work_of(works, q),
            own,
        );
    }
    all
}

// The table in the first of 64 entries, and 0 after it.
fn padded(parents: &[u8]) -> [u8; 64]
    requires { length parents.now ≤ 64 }
    ensures { result ≡ defs.padded parents.now }
{
    let mut all = [0; 64];
    all[..parents.len()].copy_from_slice(parents);
    all
}

impl State {
    // The state whose fields are all 0: what a refused fresh state gives.
    pub fn zero() -> Self
        ensures { result ≡ defs.zero_state }
    {
        State {
            kind: 0,
            n: 0,
            modulus: 0,
            arrivals: 0,
            sense: 0,
            parents: [0; 64],
            moves: [0; 64],
            waits: [0; 64],
            tasks: [Task::default(); 64],
        }
    }
}

impl Setup {
    // The first reason that applies, if one does.
    #[tactic(auto, unfolding(crate::specs::Fresh::fresh_reason))]
    fn reason(self, tables: Tables<'_>) -> Result<(), Refusal>
        ensures { result ≡ checked (defs.fresh_reason (defs.given self tables.entry)) }
    {
        reasons::setup_reason(self.kind, self.n, self.modulus, tables.parents)?;
        setup::tables::starts_reason(self.kind, self.n, tables.starts)?;
        setup::tables::works_reason(self.n, tables.works)
    }

    // The fresh state of a setup that is not refused.
    fn state(self, tables: Tables<'_>) -> State
        requires { defs.fresh_reason (defs.given self tables) ≡ 0 }
        ensures { result ≡ defs.fresh_state (defs.given self tables.entry) }
    {
        let n = self.n as u8;
        State {
            kind: self.kind as u8,
            n,
            modulus: self.modulus as u8,
            arrivals: of_centralized(self.kind, n),
            sense: fresh_sense(self.kind),
            parents: padded(tables.parents),
            moves: [0; 64],
            waits: [0; 64],
            tasks: fresh_tasks(
                self.n,
                tables.starts,
                tables.works,
                of_centralized(self.kind, 1),
            ),
        }
    }

    // The fresh state; all zero where it is refused. A table of length 0 gives every task the start 0, or the work length 1.
    #[tactic(auto, unfolding(crate::specs::Fresh::fresh_of))]
    pub fn fresh(self, tables: Tables<'_>) -> Fresh
        ensures { result ≡ defs.told (defs.fresh_of (defs.given self tables.entry)) }
    {
        let made = self.reason(tables);
        let state = match made {
            Ok(()) => self.state(tables),
            Err(_) => State::zero(),
        };
        Fresh { state, made }
    }
}
