// Rounds: the tasks' counts, and whether a turn closes a round. specs/Least.antt defines each.
ghost use Rattle.std.specs.Prelude.{◌≡◌, ◌<◌};
ghost use Rattle.counts.specs.Counts.{least_among, closes_of};
ghost use Rattle.machine.specs.Least as defs;

use crate::State;
use crate::valid::ValidState;

impl State {
    // The counts of all 64 tasks, of a state that is lent. A loop and no `map`, which takes the tasks by value and copies them: a turn that raises a
    // count goes over them.
    pub fn all_counts(&self) -> [u32; 64]
        ensures { result ≡ defs.counts_of self.now }
    {
        let mut all = [0; 64];
        for q in 0..64 {
            all[q] = self.tasks[q].count;
        }
        all
    }

    // The counts of all 64 tasks; from n on they are 0 in a state in range.
    pub fn counts(self) -> [u32; 64]
        ensures { result ≡ defs.counts_of self }
    {
        self.all_counts()
    }
}

impl ValidState {
    // 1 if a known task whose count goes to `next` closes a round, else 0. The counts are gone over only where it rises.
    pub(crate) fn closes(&self, task: usize, next: u32) -> u8
        requires { task < self.now.state.n }
        ensures { result ≡ closes_of (least_among (defs.count_of self.now.state) self.now.state.n) (defs.count_of self.now.state task) next }
    {
        let state = &self.state;
        let count = state.tasks[task].count;
        if next == count {
            return 0;
        }
        let all = state.all_counts();
        let n = state.n as usize;
        let least = counts::least_of(&all[..n]);
        least.closes(count, next)
    }
}
