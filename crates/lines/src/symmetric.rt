// The symmetric barrier, line by line. specs/Symmetric.antt defines each.
ghost use Rattle.std.specs.Prelude.{◌≡◌};
ghost use Rattle.lines.specs.Symmetric as defs;

use crate::{Effect, Task, Write, common};

// (old + 1) mod R; 0 where R is 0.
fn next_tag(modulus: u8, old: u8) -> u8
    ensures { result ≡ defs.next_tag modulus old }
{
    if modulus == 0 {
        return 0;
    }
    ((old as u16 + 1) % (modulus as u16)) as u8
}

// 12: the tag goes on to the next, and every task is listed.
#[inline(always)]
fn line12(n: u8, modulus: u8, task: Task) -> Effect
    ensures { result ≡ defs.symmetric12 n modulus task }
{
    let mut next = task;
    next.old = task.tag;
    next.tag = next_tag(modulus, task.tag);
    next.list = bitset::all(n as usize);
    next.line = 13;
    common::counts(task, next, Write::Nothing)
}

// 13: the first task of the list from the own start on is looked at next; back to work when nobody is left.
#[inline(always)]
fn line13(task: Task) -> Effect
    ensures { result ≡ defs.symmetric13 task }
{
    common::choose(11, common::first(task.list, task.start), task)
}

// 14: awaits that the looked-at task's tag is another than the own old one.
#[inline(always)]
fn line14(tag: u8, task: Task) -> Effect
    ensures { result ≡ defs.symmetric14 tag task }
{
    common::awaits(tag != task.old, task, common::take_off(task))
}

// What the line does. `tag` is that of the looked-at task.
#[tactic(auto, unfolding(crate::specs::Symmetric::symmetric_line))]
#[inline(always)]
pub fn line(line: u8, n: u8, modulus: u8, tag: u8, task: Task) -> Effect
    ensures { result ≡ defs.symmetric_line line n modulus tag task }
{
    match line {
        11 => common::work(task),
        12 => line12(n, modulus, task),
        13 => line13(task),
        14 => line14(tag, task),
        0..=10 | 15..=255 => common::waits(task),
    }
}
