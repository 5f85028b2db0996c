// The numbers of a run, written to a lent list: six of each turn that it made, or four of each task at its end. They are made from the
// schedule and the log of one run, so that no turn is made twice. What each call answers and writes is defined in specs/Rows.antt.
#![tactic(auto)]

ghost use Rattle.std.specs.Prelude.{◌≡◌, ◌++◌, false, ℕ, ◌+◌, ◌*◌, ◌≤◌, length, drop};
ghost use Rattle.std.proofs.Math.Seq.{paste};
ghost use Rattle.runner.specs.Trace.{nothing, trace_of};
ghost use Rattle.runner.specs.Run.{log_of};
ghost use Rattle.rows.specs.Counting.{counting_line, rise_at};
ghost use Rattle.rows.specs.Rows as defs;

use kind::Kind;
use machine::State;
use machine::valid::ValidState;
use reason::Reason;
use runner::{Ending, Ran};

// Whether the whole run was refused.
pub fn refused(ending: Ending) -> bool
    ensures { result ≡ defs.is_refused ending }
{
    matches!(ending, Ending::Refused(_))
}

// The answer where the list is short: the run's own refusal if there is one, else that of a short list. A run with an allowance of 0 makes no
// turn and needs no log, so it tells just that.
fn short(state: State, schedule: &[u8], log: &mut [u8]) -> Ran
    ensures by_index { (allowance : ℕ) → result ≡ defs.listed_of state schedule.now allowance log.old false }
    ensures log_unchanged { log.new ≡ log.old }
{
    let idle = runner::run(state, schedule, 0, log);
    if refused(idle.ending) {
        return idle;
    }
    runner::refused(state, Reason::Room.into())
}

// Runs the schedule where the list has room. The four of a run stay parameters, since the definition `listed_of` takes them so, as `runner::run` does.
fn listed(state: State, schedule: &[u8], allowance: usize, log: &mut [u8], room: bool) -> Ran
    ensures value { result ≡ defs.listed_of state schedule.now allowance log.old room }
    ensures log_after { log.new ≡ defs.listed_log state schedule.now allowance log.old room }
{
    if room {
        return runner::run(state, schedule, allowance, log);
    }
    short(state, schedule, log)
}

// Writes the numbers to the list, from the place on. snapshot/src/save.rt has the same for 64 bits: one generic function would need a crate below
// both, for one line.
fn write(rows: &mut [u32], place: usize, numbers: &[u32])
    requires { place + length numbers.now ≤ length rows.old }
    ensures { rows.new ≡ paste rows.old place numbers.now (length numbers.now) }
{
    rows[place..place + numbers.len()].copy_from_slice(numbers);
}

// Writes four numbers for each task below n. By places, here and in `write_turns`: what `chunks_exact_mut` promises tells nothing of the numbers
// that are written through it. `n ≤ 64` is asked for in this clause alone.
fn write_tasks(ran: &Ran, n: usize, rows: &mut [u32])
    requires { (n ≤ 64) × (4 * n ≤ length rows.old) }
    ensures { rows.new ≡ defs.task_numbers ran.now n ++ drop (4 * n) rows.old }
{
    for q in 0..n {
        let task = ran.state.tasks[q];
        let numbers = [u32::from(task.line), task.count, ran.moves[q], ran.waits[q]];
        write(rows, 4 * q, &numbers);
    }
}

// Runs the schedule as `runner::run` does, and writes four numbers a task. What it shares with `by_turn` is `listed`; the room and the writing
// differ, and a closure for them would take all that `write_tasks` and `write_turns` do, with a contract that says both.
pub fn by_task(
    state: State,
    schedule: &[u8],
    allowance: usize,
    log: &mut [u8],
    rows: &mut [u32],
) -> Ran
    ensures value { result ≡ defs.listed_of state schedule.now allowance log.old (defs.task_room state (length rows.old)) }
    ensures log_after { log.new ≡ defs.listed_log state schedule.now allowance log.old (defs.task_room state (length rows.old)) }
    ensures rows_after { rows.new ≡ defs.task_rows_after state schedule.now allowance log.old rows.old }
{
    let n = state.n as usize;
    let room = 4 * n <= rows.len();
    let ran = listed(state, schedule, allowance, log, room);
    if refused(ran.ending) {
        return ran;
    }
    write_tasks(&ran, n, rows);
    ran
}

// The line whose move raises a task's count: 12 of the symmetric barrier, 15 of the tree, 13 of the others. By the kind's number, as the definition
// `counting_line` has it and the state too: with a `Kind`, `write_turns` would need a branch that never runs.
fn counting_line(kind: u8) -> u8
    ensures { result ≡ counting_line kind }
{
    match Kind::try_from(kind as usize) {
        Ok(Kind::Symmetric) => 12,
        Ok(Kind::Tree) => 15,
        _ => 13,
    }
}

// By how much a turn raises its task's count: 1 for a move at the counting line, else 0.
fn rise(kind: u8, line: u8, moved: u8) -> u32
    ensures { result ≡ rise_at kind line moved }
{
    u32::from(line == counting_line(kind) && moved == 1)
}

// Writes six numbers for each turn of these tasks from the state, all of which were made and logged. The counts are kept as the moves at the
// counting line go by; a turn closes a round by as much as it raises the least of them. The log is read by places: zipped with
// `chunks_exact(2)`, the invariant `Going` would have to speak of what the iterator has left too.
fn write_turns(begin: ValidState, tasks: &[u8], log: &[u8], rows: &mut [u32])
    requires tasks_value { (trace_of begin.state tasks.now).stop ≡ nothing }
    requires log_value { log.now ≡ log_of (trace_of begin.state tasks.now).made }
    requires tasks_in_bounds { 6 * length tasks.now ≤ length rows.old }
    ensures { rows.new ≡ defs.row_numbers begin.state tasks.now ++ drop (6 * length tasks.now) rows.old }
{
    let kind = begin.state.kind;
    let n = begin.state.n as usize;
    let mut counts = begin.state.all_counts();
    let mut least = counts::least_of(&counts[..n]);
    for (i, &turn) in tasks.iter().enumerate() {
        let task = turn as usize;
        let line = log[2 * i];
        let moved = log[2 * i + 1];
        let count = counts[task];
        let next = count + rise(kind, line, moved);
        counts[task] = next;
        let after = least.after(&counts[..n], count, next);
        let closed = after.count - least.count;
        let numbers = [
            u32::from(turn),
            u32::from(line),
            u32::from(moved),
            next,
            after.count,
            closed,
        ];
        write(rows, 6 * i, &numbers);
        least = after;
    }
}

// Runs the schedule as `runner::run` does, and writes six numbers a turn. The room is told by a quotient, since six times the allowance may be too
// large a number.
pub fn by_turn(
    state: State,
    schedule: &[u8],
    allowance: usize,
    log: &mut [u8],
    rows: &mut [u32],
) -> Ran
    ensures value { result ≡ defs.listed_of state schedule.now allowance log.old (defs.turn_room schedule.now allowance (length rows.old)) }
    ensures log_after { log.new ≡ defs.listed_log state schedule.now allowance log.old (defs.turn_room schedule.now allowance (length rows.old)) }
    ensures rows_after { rows.new ≡ defs.turn_rows_after state schedule.now allowance log.old rows.old }
{
    let count = allowance.min(schedule.len());
    let room = count <= rows.len() / 6;
    let ran = listed(state, schedule, allowance, log, room);
    if refused(ran.ending) {
        return ran;
    }
    let turns = ran.turns;
    let begin = ValidState { state };
    write_turns(begin, &schedule[..turns], &log[..2 * turns], rows);
    ran
}
