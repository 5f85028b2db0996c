// The fetch-and-increment barrier, line by line. specs/Increment.antt defines each.
ghost use Rattle.std.specs.Prelude.{◌≡◌};
ghost use Rattle.lines.specs.Increment as defs;

use crate::{Effect, Task, Write, common};
use reason::Reason;

// 12: the aim is the sense that the round ends with.
#[inline(always)]
fn line12(sense: u8, mut task: Task) -> Effect
    ensures { result ≡ defs.increment12 sense task }
{
    task.aim = common::negated(sense);
    common::to(task, 13)
}

// 13: the task arrives, which is refused for reason 7 where all have arrived already.
#[inline(always)]
fn line13(n: u8, arrivals: u8, task: Task) -> Effect
    ensures { result ≡ defs.increment13 n arrivals task }
{
    if n <= arrivals {
        return common::refuses(Reason::Range, task);
    }
    let arrived = arrivals + 1;
    let mut next = task;
    next.line = common::after_arrival(arrived == n);
    common::counts(task, next, Write::Arrivals(arrived))
}

// 14: the arrivals are cleared. This, 15 and 16 differ from centralized's in a word only; each barrier has a function a line, as
// `increment14` defines one.
#[inline(always)]
fn line14(task: Task) -> Effect
    ensures { result ≡ defs.increment14 task }
{
    common::set_back(0, task)
}

// 15: the sense turns to the aim.
#[inline(always)]
fn line15(task: Task) -> Effect
    ensures { result ≡ defs.increment15 task }
{
    common::turn_sense(task.aim, task)
}

// 16: awaits that the sense is the aim.
#[inline(always)]
fn line16(sense: u8, task: Task) -> Effect
    ensures { result ≡ defs.increment16 sense task }
{
    common::await_sense(sense, task.aim, task)
}

// What the line does.
#[tactic(auto, unfolding(crate::specs::Increment::increment_line))]
#[inline(always)]
pub fn line(line: u8, n: u8, arrivals: u8, sense: u8, task: Task) -> Effect
    ensures { result ≡ defs.increment_line line n arrivals sense task }
{
    match line {
        11 => common::work(task),
        12 => line12(sense, task),
        13 => line13(n, arrivals, task),
        14 => line14(task),
        15 => line15(task),
        16 => line16(sense, task),
        0..=10 | 17..=255 => common::waits(task),
    }
}
