// The barrier that counts down, line by line: the sense-reversing centralized barrier. specs/Centralized.antt defines each.
ghost use Rattle.std.specs.Prelude.{◌≡◌};
ghost use Rattle.lines.specs.Centralized as defs;

use crate::{Effect, Task, Write, common};
use reason::Reason;

// 12: the task's sense is the one that the round ends with.
#[inline(always)]
fn line12(mut task: Task) -> Effect
    ensures { result ≡ defs.centralized12 task }
{
    task.own = common::negated(task.own);
    common::to(task, 13)
}

// 13: the task arrives, which is refused for reason 7 where all have arrived already.
#[inline(always)]
fn line13(arrivals: u8, task: Task) -> Effect
    ensures { result ≡ defs.centralized13 arrivals task }
{
    if arrivals == 0 {
        return common::refuses(Reason::Range, task);
    }
    let mut next = task;
    next.line = common::after_arrival(arrivals == 1);
    common::counts(task, next, Write::Arrivals(arrivals - 1))
}

// 14: all n tasks are to arrive again. This, 15 and 16 differ from increment's in a word only; each barrier has a function a line,
// as `centralized14` defines one.
#[inline(always)]
fn line14(n: u8, task: Task) -> Effect
    ensures { result ≡ defs.centralized14 n task }
{
    common::set_back(n, task)
}

// 15: the shared sense turns to the task's own.
#[inline(always)]
fn line15(task: Task) -> Effect
    ensures { result ≡ defs.centralized15 task }
{
    common::turn_sense(task.own, task)
}

// 16: awaits that the shared sense is the task's own.
#[inline(always)]
fn line16(sense: u8, task: Task) -> Effect
    ensures { result ≡ defs.centralized16 sense task }
{
    common::await_sense(sense, task.own, task)
}

// What the line does.
#[tactic(auto, unfolding(crate::specs::Centralized::centralized_line))]
#[inline(always)]
pub fn line(line: u8, n: u8, arrivals: u8, sense: u8, task: Task) -> Effect
    ensures { result ≡ defs.centralized_line line n arrivals sense task }
{
    match line {
        11 => common::work(task),
        12 => line12(task),
        13 => line13(arrivals, task),
        14 => line14(n, task),
        15 => line15(task),
        16 => line16(sense, task),
        0..=10 | 17..=255 => common::waits(task),
    }
}
