// What the lines of the five barriers have in common. specs/Common.antt defines each.
ghost use Rattle.std.specs.Prelude.{◌≡◌, ◌+◌, eqb};
ghost use Rattle.bitset.specs.Choice.{pick};
ghost use Rattle.bitset.specs.Set.{least_of, first_from};
ghost use Rattle.reason.specs.Numbers.{number_of};
ghost use Rattle.lines.specs.Setters.{with_line, with_count};
ghost use Rattle.lines.specs.declared.Write.TheVariants.{Nothing, Arrivals, Sense};
ghost use Rattle.lines.specs.Common as defs;

use crate::{Act, Effect, MAX_COUNT, Task, Write};
use reason::Reason;

// The other of 0 and 1.
pub(crate) fn negated(b: u8) -> u8
    ensures { result ≡ defs.negated b }
{
    u8::from(b == 0)
}

// A move: the task as it is then, and the shared word that is written.
pub(crate) fn moves(task: Task, write: Write) -> Effect
    ensures { result ≡ defs.moves task write }
{
    Effect {
        act: Act::Moves,
        task,
        write,
    }
}

// A move to a line that writes no shared word.
pub(crate) fn to(mut task: Task, line: u8) -> Effect
    ensures { result ≡ defs.moves (with_line task line) Nothing }
{
    task.line = line;
    moves(task, Write::Nothing)
}

// A wait, which changes nothing.
pub(crate) fn waits(task: Task) -> Effect
    ensures { result ≡ defs.waits task }
{
    Effect {
        act: Act::Waits,
        task,
        write: Write::Nothing,
    }
}

// A refusal, which changes nothing.
pub(crate) fn refuses(reason: Reason, task: Task) -> Effect
    ensures { result ≡ defs.refuses (number_of reason) task }
{
    Effect {
        act: Act::Refuses(reason.into()),
        task,
        write: Write::Nothing,
    }
}

// An await: the move where the condition holds, else a wait.
pub(crate) fn awaits(condition: bool, task: Task, effect: Effect) -> Effect
    ensures { result ≡ defs.awaits condition task effect }
{
    if condition { effect } else { waits(task) }
}

// The move of a task to `next`, in which its count rises by 1; refused 11 where the count is at its limit.
#[inline(always)]
pub(crate) fn counts(task: Task, mut next: Task, write: Write) -> Effect
    ensures { result ≡ defs.counts task (defs.moves (with_count next (task.count + 1)) write) }
{
    if task.count < MAX_COUNT {
        next.count = task.count + 1;
        moves(next, write)
    } else {
        refuses(Reason::CountLimit, task)
    }
}

// 11: own work. One move of it less is left, and the task stays; the last one leads on, and all of them are left again.
pub(crate) fn work(mut task: Task) -> Effect
    ensures { result ≡ defs.work task }
{
    if task.left > 1 {
        task.left -= 1;
    } else {
        task.left = task.work;
        task.line = 12;
    }
    moves(task, Write::Nothing)
}

// Where line 13 of the kinds that count arrivals leads: the last task to arrive sets them back at 14, another awaits the sense at 16.
#[inline(always)]
pub(crate) fn after_arrival(last: bool) -> u8
    ensures { result ≡ pick last 14 16 }
{
    if last { 14 } else { 16 }
}

// 14 of the kinds that count arrivals: so many tasks have arrived, or are still to, as before the round.
#[inline(always)]
pub(crate) fn set_back(arrivals: u8, mut task: Task) -> Effect
    ensures { result ≡ defs.moves (with_line task 15) (Arrivals arrivals) }
{
    task.line = 15;
    moves(task, Write::Arrivals(arrivals))
}

// 15 of the kinds that count arrivals: the shared sense is turned to this one.
#[inline(always)]
pub(crate) fn turn_sense(sense: u8, mut task: Task) -> Effect
    ensures { result ≡ defs.moves (with_line task 11) (Sense sense) }
{
    task.line = 11;
    moves(task, Write::Sense(sense))
}

// 16 of the kinds that count arrivals: awaits that the shared sense is the one that the round ends with.
#[inline(always)]
pub(crate) fn await_sense(shared: u8, ended: u8, task: Task) -> Effect
    ensures { result ≡ defs.awaits (eqb shared ended) task (defs.moves (with_line task 11) Nothing) }
{
    awaits(shared == ended, task, to(task, 11))
}

// The least task of a list, as a byte; 64 for the empty list, as `least_of` defines it.
pub(crate) fn least(list: u64) -> u8
    ensures { result ≡ least_of list }
{
    bitset::least(list) as u8
}

// The first task of a list at or above the start, going round, as a byte; 64 for the empty list, as `first_from` defines it.
#[tactic(auto, using(bitset::specs::SetLaws::first_le))]
pub(crate) fn first(list: u64, start: u8) -> u8
    ensures { result ≡ first_from list start }
{
    bitset::first(list, start as usize) as u8
}

// Line 13 of symmetric and tree: to the line `exit` where the list is empty, else the task `taken` is looked at next.
pub(crate) fn choose(exit: u8, taken: u8, mut task: Task) -> Effect
    ensures { result ≡ defs.choose exit taken task }
{
    if task.list == 0 {
        to(task, exit)
    } else {
        task.looked = taken;
        to(task, 14)
    }
}

// 14 of symmetric and tree: the looked-at task is taken off the list, and no word of it is written.
pub(crate) fn take_off(task: Task) -> Effect
    ensures { result ≡ defs.take_off task }
{
    let looked = task.looked as usize;
    let mut next = task;
    next.list = bitset::without(task.list, looked);
    next.line = 13;
    moves(next, Write::Nothing)
}
