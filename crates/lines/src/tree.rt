// The tree barrier, line by line, in the order of the note's text (001, section 2.4.1), whose line is quoted at each. There aa is the flag, lis the
// list, kk the looked-at task and cnt the count; rear, which only the note's proof needs, is not kept. specs/Tree.antt defines each line. The task is
// the one with the number p; task 0 is the root.
ghost use Rattle.std.specs.Prelude.{◌≡◌};
ghost use Rattle.parents.specs.Parents.{children_of};
ghost use Rattle.lines.specs.declared.Write.TheVariants.{Nothing};
ghost use Rattle.lines.specs.Setters.{with_line, with_list};
ghost use Rattle.lines.specs.Common.{moves};
ghost use Rattle.lines.specs.Tree as defs;

use crate::{Effect, Task, Write, common};

// The own children are listed, and the task goes on to a line that goes through them.
#[inline(always)]
fn list_children(table: &[u8], p: usize, mut task: Task, line: u8) -> Effect
    ensures { result ≡ moves (with_line (with_list task (children_of table.now p)) line) Nothing }
{
    task.list = parents::children(table, p);
    common::to(task, line)
}

// 11  NCS ;
// Own work.
#[inline(always)]
fn line11(task: Task) -> Effect
    ensures { result ≡ defs.tree11 task }
{
    common::work(task)
}

// 12  lis_p := children(p) ;
// The own children are looked for here and at 17 alone.
#[inline(always)]
fn line12(table: &[u8], p: usize, task: Task) -> Effect
    ensures { result ≡ defs.tree12 table.now p task }
{
    list_children(table, p, task, 13)
}

// 13  while exists kk_p in lis_p do
// The least child of the list is looked at next; on to 15 when all have been seen.
#[inline(always)]
fn line13(task: Task) -> Effect
    ensures { result ≡ defs.tree13 task }
{
    common::choose(15, common::least(task.list), task)
}

// 14    await (aa[kk_p]) ; remove kk_p from lis_p endwhile ;
// The flag of the looked-at child is left as it is.
#[inline(always)]
fn line14(flag: u8, task: Task) -> Effect
    ensures { result ≡ defs.tree14 flag task }
{
    common::awaits(flag == 1, task, common::take_off(task))
}

// 15  if p != 0 then aa[p] := true else rear := allthreads endif ; cnt_p ++ ;
// The root has no parent that would see its flag.
#[inline(always)]
fn line15(p: usize, task: Task) -> Effect
    ensures { result ≡ defs.tree15 p task }
{
    let mut next = task;
    if p != 0 {
        next.flag = 1;
    }
    next.line = 16;
    common::counts(task, next, Write::Nothing)
}

// 16  await (p = 0 or not aa[p]) ;
// The parent clears the flag.
#[inline(always)]
fn line16(p: usize, task: Task) -> Effect
    ensures { result ≡ defs.tree16 p task }
{
    common::awaits((p == 0) | (task.flag == 0), task, common::to(task, 17))
}

// 17  lis_p := children(p) ;
// As at 12, and yet a function of its own: each line has one, and `tree12` and `tree17` define both.
#[inline(always)]
fn line17(table: &[u8], p: usize, task: Task) -> Effect
    ensures { result ≡ defs.tree17 table.now p task }
{
    list_children(table, p, task, 18)
}

// 18  while exists k in lis_p do aa[k] := false ; remove k from lis_p endwhile ; remove p from rear
// One child a turn, the least of the list; back to work when none is left.
#[inline(always)]
fn line18(mut task: Task) -> Effect
    ensures { result ≡ defs.tree18 task }
{
    if task.list == 0 {
        return common::to(task, 11);
    }
    let child = bitset::least(task.list);
    task.list = bitset::without(task.list, child);
    common::moves(task, Write::Flag(child, 0))
}

// What the lines 11 to 13 do.
#[tactic(auto, unfolding(crate::specs::Tree::tree_gather))]
#[inline(always)]
pub fn gather(line: u8, table: &[u8], p: usize, task: Task) -> Effect
    ensures { result ≡ defs.tree_gather line table.now p task }
{
    match line {
        11 => line11(task),
        12 => line12(table, p, task),
        13 => line13(task),
        0..=10 | 14..=255 => common::waits(task),
    }
}

// What the lines 14 to 16 do. `flag` is that of the looked-at task.
#[tactic(auto, unfolding(crate::specs::Tree::tree_meet))]
#[inline(always)]
pub fn meet(line: u8, p: usize, flag: u8, task: Task) -> Effect
    ensures { result ≡ defs.tree_meet line p flag task }
{
    match line {
        14 => line14(flag, task),
        15 => line15(p, task),
        16 => line16(p, task),
        0..=13 | 17..=255 => common::waits(task),
    }
}

// What the lines 17 and 18 do.
#[tactic(auto, unfolding(crate::specs::Tree::tree_release))]
#[inline(always)]
pub fn release(line: u8, table: &[u8], p: usize, task: Task) -> Effect
    ensures { result ≡ defs.tree_release line table.now p task }
{
    match line {
        17 => line17(table, p, task),
        18 => line18(task),
        0..=16 | 19..=255 => common::waits(task),
    }
}

// What the line does, by the three parts. `flag` is that of the looked-at task.
#[inline(always)]
pub fn line(line: u8, table: &[u8], p: usize, flag: u8, task: Task) -> Effect
    ensures { result ≡ defs.tree_line line table.now p flag task }
{
    match line {
        0..=13 => gather(line, table, p, task),
        14..=16 => meet(line, p, flag, task),
        17..=255 => release(line, table, p, task),
    }
}
