// The range of a task, and of what all tasks share. specs/Range.antt defines each.
// The kind is a number, as a caller's state has it; what all share, the table and q are given one by one, as `task_ok` and `place_ok` take them.
ghost use Rattle.std.specs.Prelude.{◌≡◌};
ghost use Rattle.setup.specs.Range as defs;

use crate::kinds;
use kind::Kind;
use lines::{MAX_COUNT, Shared, Task};

// A field that the kind uses is below its bound; another is 0.
pub fn field_ok(used: bool, bound: usize, x: u8) -> bool
    ensures { result ≡ defs.field_ok used bound x }
{
    if used { (x as usize) < bound } else { x == 0 }
}

// What the list of task q may hold.
pub fn list_room(shared: Shared, table: &[u8], q: usize) -> u64
    ensures { result ≡ defs.list_room shared table.now q }
{
    match Kind::try_from(shared.kind as usize) {
        Ok(Kind::Symmetric) => bitset::all(shared.n as usize),
        Ok(Kind::Tree) => parents::children(table, q),
        _ => 0,
    }
}

// Whether the task q is in range.
#[tactic(auto, unfolding(crate::specs::Range::task_ok))]
pub fn task_ok(shared: Shared, table: &[u8], q: usize, task: Task) -> bool
    ensures { result ≡ defs.task_ok shared table.now q task }
{
    let kind = shared.kind as usize;
    let symmetric = kind == Kind::Symmetric.number();
    let tree = kind == Kind::Tree.number();
    let n = shared.n as usize;
    let modulus = shared.modulus as usize;
    (11 <= task.line)
        & (task.line <= kinds::last_line(shared.kind))
        & (task.count <= MAX_COUNT)
        & field_ok(symmetric, modulus, task.tag)
        & field_ok(symmetric, modulus, task.old)
        & field_ok(symmetric | tree, n, task.looked)
        & bitset::within(task.list, list_room(shared, table, q))
        & field_ok(kind == Kind::Increment.number(), 2, task.aim)
        & field_ok(kind == Kind::Ring.number(), 2, task.toggle)
        & field_ok(tree, 2, task.flag)
        & field_ok(symmetric, n, task.start)
        & (1 <= task.left)
        & (task.left <= task.work)
        & field_ok(kind == Kind::Centralized.number(), 2, task.own)
}

// Whether every field of a task is 0.
#[tactic(auto, unfolding(crate::specs::Range::task_zero))]
pub fn task_zero(task: Task) -> bool
    ensures { result ≡ defs.task_zero task }
{
    task == Task::default()
}

// Whether the task at q is as it must be there: in range below N, and all zero from N on.
pub fn place_ok(shared: Shared, table: &[u8], q: usize, task: Task) -> bool
    ensures { result ≡ defs.place_ok shared table.now q task }
{
    if q < shared.n as usize {
        task_ok(shared, table, q, task)
    } else {
        task_zero(task)
    }
}

// Whether what all tasks share is in range.
#[tactic(auto, unfolding(crate::specs::Range::shared_ok))]
pub fn shared_ok(shared: Shared) -> bool
    ensures { result ≡ defs.shared_ok shared }
{
    let kind = shared.kind as usize;
    let n = shared.n as usize;
    let shares = kinds::has_sense(kind);
    kinds::is_kind(kind)
        & bitset::is_count(n)
        & kinds::modulus_ok(kind, shared.modulus as usize)
        & field_ok(shares, n + 1, shared.arrivals)
        & field_ok(shares, 2, shared.sense)
}
