// What a write makes of each word that it can reach, so that a caller stores all of them and need not ask which.
// specs/Words.antt defines each.
ghost use Rattle.std.specs.Prelude.{◌≡◌};
ghost use Rattle.lines.specs.Words as defs;

use crate::{Task, Write};

impl Write {
    // Whether it writes anything: most lines write their own task alone.
    pub fn writes(self) -> bool
        ensures { result ≡ defs.writes self }
    {
        match self {
            Write::Nothing => false,
            Write::Arrivals(_) | Write::Sense(_) | Write::Toggle(_, _) | Write::Flag(_, _) => true,
        }
    }

    // The arrivals after it.
    pub fn arrivals(self, old: u8) -> u8
        ensures { result ≡ defs.arrivals_after self old }
    {
        match self {
            Write::Arrivals(x) => x,
            Write::Nothing | Write::Sense(_) | Write::Toggle(_, _) | Write::Flag(_, _) => old,
        }
    }

    // The sense after it.
    pub fn sense(self, old: u8) -> u8
        ensures { result ≡ defs.sense_after self old }
    {
        match self {
            Write::Sense(x) => x,
            Write::Nothing | Write::Arrivals(_) | Write::Toggle(_, _) | Write::Flag(_, _) => old,
        }
    }

    // The task that it writes to: the own one where it is to none.
    pub fn place(self, own: usize) -> usize
        ensures { result ≡ defs.place_of self own }
    {
        match self {
            Write::Toggle(q, _) => q,
            Write::Flag(q, _) => q,
            Write::Nothing | Write::Arrivals(_) | Write::Sense(_) => own,
        }
    }

    // That task after it.
    pub fn task(self, mut old: Task) -> Task
        ensures { result ≡ defs.task_after self old }
    {
        match self {
            Write::Toggle(_, x) => {
                old.toggle = x;
                old
            }
            Write::Flag(_, x) => {
                old.flag = x;
                old
            }
            Write::Nothing | Write::Arrivals(_) | Write::Sense(_) => old,
        }
    }
}
