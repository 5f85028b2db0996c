// The ring barrier, line by line. specs/Ring.antt defines each. The task is the one with the number p.
ghost use Rattle.std.specs.Prelude.{◌≡◌};
ghost use Rattle.lines.specs.Ring as defs;

use crate::{Effect, Task, Write, common};

// 0 for task 0, and 1 for every other.
fn nz(p: usize) -> u8
    ensures { result ≡ defs.nz p }
{
    u8::from(p != 0)
}

// The next task round the ring.
fn next_task(n: u8, p: usize) -> usize
    ensures { result ≡ defs.next_task n p }
{
    match p.checked_add(1) {
        Some(next) if next < n as usize => next,
        _ => 0,
    }
}

// 12: awaits that the toggle has come.
#[inline(always)]
fn line12(p: usize, task: Task) -> Effect
    ensures { result ≡ defs.ring12 p task }
{
    common::awaits(task.toggle == nz(p), task, common::to(task, 13))
}

// 13: hands it on to the next task.
#[inline(always)]
fn line13(n: u8, p: usize, task: Task) -> Effect
    ensures { result ≡ defs.ring13 n p task }
{
    let mut next = task;
    next.line = 14;
    common::counts(task, next, Write::Toggle(next_task(n, p), 1))
}

// 14: awaits that it has gone again, once round the ring.
#[inline(always)]
fn line14(p: usize, task: Task) -> Effect
    ensures { result ≡ defs.ring14 p task }
{
    common::awaits(task.toggle != nz(p), task, common::to(task, 15))
}

// 15: hands that on to the next task.
#[inline(always)]
fn line15(n: u8, p: usize, mut task: Task) -> Effect
    ensures { result ≡ defs.ring15 n p task }
{
    task.line = 11;
    common::moves(task, Write::Toggle(next_task(n, p), 0))
}

// What the line does.
#[tactic(auto, unfolding(crate::specs::Ring::ring_line))]
#[inline(always)]
pub fn line(line: u8, n: u8, p: usize, task: Task) -> Effect
    ensures { result ≡ defs.ring_line line n p task }
{
    match line {
        11 => common::work(task),
        12 => line12(p, task),
        13 => line13(n, p, task),
        14 => line14(p, task),
        15 => line15(n, p, task),
        0..=10 | 16..=255 => common::waits(task),
    }
}
