// The least of the tasks' counts, how many tasks stand at it, and what it becomes as a count rises. There is no machine in it. What each
// function answers is defined in specs/Counts.antt, and every function is total.
#![tactic(auto)]

ghost use Rattle.std.specs.Prelude.{◌≡◌, ◌+◌, ◌<◌, ◌^◌, length, get_or};
ghost use Rattle.counts.specs.Counts as defs;

use std::cmp::Ordering;

// The least count, and how many tasks stand at it.
#[derive(Clone, Copy)]
pub struct Least {
    pub count: u32,
    pub tasks: usize,
}

impl Least {
    // 1 if a task whose count goes from `count` to `next` takes the least count with it: it stood there, and no other did; else 0. A number,
    // since `closes_of` is one: a move carries it.
    pub fn closes(self, count: u32, next: u32) -> u8
        ensures { result ≡ defs.closes_of self count next }
    {
        ((next != count) & (count == self.count) & (self.tasks == 1)) as u8
    }

    // The least of the tasks' counts once one of them has gone from `count` to `next`, and these are the counts. They are gone over only where the
    // last task that stood at the least has risen. The loop over turns asks it at every turn, and so the
    // test stands here, and what follows it in a function of its own.
    #[inline(always)]
    pub fn after(self, counts: &[u32], count: u32, next: u32) -> Least
        ensures { result ≡ defs.least_after self count next (λ q. get_or counts.now q 0) (length counts.now) }
    {
        if (next != count) & (count == self.count) {
            return risen(self, counts);
        }
        self
    }

    // The least count with one task more, which has this count.
    fn joined(self, count: u32) -> Least
        requires { self.tasks + 1 < 2 ^ 64 }
        ensures { result ≡ defs.joined_of self count }
    {
        match count.cmp(&self.count) {
            Ordering::Less => Least { count, tasks: 1 },
            Ordering::Equal => Least {
                count,
                tasks: self.tasks + 1,
            },
            Ordering::Greater => self,
        }
    }
}

// The least of the counts, one a task. Of none it is 0, and nobody stands there.
pub fn least_of(counts: &[u32]) -> Least
    ensures { result ≡ defs.least_among (λ q. get_or counts.now q 0) (length counts.now) }
{
    let first = counts.first().copied().unwrap_or(0);
    let mut least = Least {
        count: first,
        tasks: 0,
    };
    for count in counts {
        least = least.joined(*count);
    }
    least
}

// The least count once a task that stood at it has risen, and the counts are these: one task fewer stands at it; where that was the last,
// the counts are gone over.
pub fn risen(least: Least, counts: &[u32]) -> Least
    ensures { result ≡ defs.risen_of least (λ q. get_or counts.now q 0) (length counts.now) }
{
    if 1 < least.tasks {
        Least {
            count: least.count,
            tasks: least.tasks - 1,
        }
    } else {
        least_of(counts)
    }
}
