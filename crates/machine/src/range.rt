// The range of a state. specs/Range.antt defines each.
ghost use Rattle.std.specs.Prelude.{◌≡◌, eqb, min, IfOk};
ghost use Rattle.parents.specs.Parents.{check_of};
ghost use Rattle.reason.specs.Checked.{checked, unit_of};
ghost use Rattle.setup.specs.Range.{place_ok};
ghost use Rattle.machine.specs.Range as defs;

use crate::valid::ValidState;
use crate::{MAX_TALLY, State};
use kind::Kind;
use lines::{Shared, Task};
use reason::{Reason, Refusal};
use setup::tables;

// How many of the 64 entries are the table of n tasks.
fn table_length(n: u8) -> usize
    ensures { result ≡ min n 64 }
{
    (n as usize).min(64)
}

// Whether the table's check accepts it.
fn is_tree(table: &[u8], n: usize) -> bool
    ensures { result ≡ eqb (check_of table.now n) 0 }
{
    parents::check(table, n).is_ok()
}

// Whether a tally of task q is as it must be: at most its limit below n, and 0 from n on.
fn tally_ok(n: usize, q: usize, tally: u32) -> bool
    ensures { result ≡ defs.tally_ok n q tally }
{
    if q < n {
        tally <= MAX_TALLY
    } else {
        tally == 0
    }
}

impl State {
    // What a line may read besides tasks and parents.
    pub(crate) fn shared(&self) -> Shared
        ensures { result ≡ defs.shared_of self.now }
    {
        Shared {
            kind: self.kind,
            n: self.n,
            modulus: self.modulus,
            arrivals: self.arrivals,
            sense: self.sense,
        }
    }

    // Whether the task at q is as it must be there.
    fn place_ok(&self, q: usize, task: Task) -> bool
        ensures { result ≡ place_ok (defs.shared_of self.now) (defs.table_of self.now) q task }
    {
        let parents = self.parents;
        let length = table_length(self.n);
        setup::range::place_ok(self.shared(), &parents[..length], q, task)
    }

    // Whether all 64 tasks and their tallies are as they must be. A loop and no `all`, which would be no plainer: they stand in three arrays, so that
    // it would go over the numbers too.
    fn tasks_ok(&self) -> bool
        ensures { result ≡ defs.tasks_ok self.now 64 }
    {
        let n = self.n as usize;
        let mut ok = true;
        for q in 0..64 {
            let task = self.tasks[q];
            let tallies = tally_ok(n, q, self.moves[q]) & tally_ok(n, q, self.waits[q]);
            ok = ok & (self.place_ok(q, task) & tallies);
        }
        ok
    }

    // Whether the parents are in range: for a tree a table that its check accepts, and 0 after it; else all 0.
    fn parents_ok(&self) -> bool
        ensures { result ≡ defs.parents_ok self.now }
    {
        let parents = self.parents;
        if self.kind as usize != Kind::Tree.number() {
            return tables::all_within(0, 1, &parents);
        }
        let length = table_length(self.n);
        let rest = tables::all_within(0, 1, &parents[length..]);
        is_tree(&parents[..length], self.n as usize) & rest
    }

    // Whether every field is in range.
    fn in_range(&self) -> bool
        ensures { result ≡ defs.state_ok self.now }
    {
        setup::range::shared_ok(self.shared()) & self.parents_ok() & self.tasks_ok()
    }

    // Whether a field is out of range, and so the state refused. It is lent: the turns and the runs that ask go on with the state as it stands.
    pub fn check(&self) -> Result<(), Refusal>
        ensures { result ≡ checked (defs.check_state self.now) }
    {
        if self.in_range() {
            Ok(())
        } else {
            Err(Reason::Range.into())
        }
    }

    // The state as one in range; refused where a field is out of range.
    pub fn valid(self) -> Result<ValidState, Refusal>
        ensures told { unit_of result ≡ checked (defs.check_state self) }
        ensures value { IfOk result (λ valid. valid.state ≡ self) }
    {
        self.check()?;
        Ok(ValidState { state: self })
    }
}
