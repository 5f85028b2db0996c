// The library for programs in C and Rust: numbers, slices and lent buffers only. What each function answers is defined in specs/Entry.antt over
// the definitions of the crates below. A state that a caller keeps between calls is a list of 64-bit numbers (`snapshot`).
#![tactic(auto)]

ghost use Rattle.std.specs.Prelude.{◌≡◌, length};
ghost use Rattle.schedule.specs.FirstPass.{first_pass_of};
ghost use Rattle.machine.specs.Fresh.{inputs_of, zero_state};
ghost use Rattle.runner.specs.Run.{refused_run};
ghost use Rattle.bound.specs.Bound.{limit_of};
ghost use Rattle.tungwaff.specs.Entry as defs;

use machine::{Setup, State, Tables, Turned};
use playback::{Played, Verdict};
use reason::Refusal;
use runner::Ran;
use snapshot::load::load;
use snapshot::save::save;

// The fresh state, or why it is refused. The inputs are spelled out: no other clause here reads them off `Tables`, so a word for them is no plainer.
fn freshly(setup: Setup, tables: Tables<'_>) -> Result<State, Refusal>
    ensures { result ≡ defs.freshly (inputs_of setup tables.entry.parents.now tables.entry.starts.now tables.entry.works.now) }
{
    let fresh = setup.fresh(tables);
    fresh.made?;
    Ok(fresh.state)
}

// Writes a fresh state with these tables of parents, starts and work lengths to the list. Answers the reason that refused it, or 10 for a
// short list; 0 if nothing was refused.
pub fn tungwaff_fresh(
    kind: usize,
    n: usize,
    modulus: usize,
    parents: &[u8],
    starts: &[u8],
    works: &[u8],
    list: &mut [u64],
) -> u8
    ensures { defs.fresh_told (defs.inputs_from kind n modulus parents.now starts.now works.now) list.old
        ≡ record { reason = result; list = list.new } }
{
    let setup = Setup { kind, n, modulus };
    let tables = Tables {
        parents,
        starts,
        works,
    };
    match freshly(setup, tables) {
        Ok(state) => numbers::refused_reason(&save(state, list)),
        Err(refusal) => refusal.number(),
    }
}

// The answer of a run that has no state to begin with.
fn unrun(refusal: Refusal) -> Ran
    ensures { result ≡ refused_run zero_state refusal 0 }
{
    runner::refused(State::zero(), refusal.into())
}

// Runs the schedule, at most as many turns as the allowance, and writes two bytes a turn to the log and four numbers a task to the list.
// Schedule, allowance and log are no struct: the C interface lends them one by one, and `rows::by_task` takes them so.
fn run_tasks(
    begun: Result<State, Refusal>,
    schedule: &[u8],
    allowance: usize,
    log: &mut [u8],
    tasks: &mut [u32],
) -> Ran
    ensures value { result ≡ defs.tasks_ran begun schedule.now allowance log.old tasks.old }
    ensures log_after { log.new ≡ defs.tasks_log begun schedule.now allowance log.old tasks.old }
    ensures tasks_after { tasks.new ≡ defs.tasks_from begun schedule.now allowance log.old tasks.old }
{
    match begun {
        Ok(state) => rows::by_task(state, schedule, allowance, log, tasks),
        Err(refusal) => unrun(refusal),
    }
}

// Runs the schedule as `run_tasks` does, and writes six numbers a turn to the list.
// Its match is not shared with `run_tasks` by a closure: no plainer, since the definitions differ (`tasks_ran`, `rows_ran`), and each closure would
// state them again.
fn run_rows(
    begun: Result<State, Refusal>,
    schedule: &[u8],
    allowance: usize,
    log: &mut [u8],
    rows: &mut [u32],
) -> Ran
    ensures value { result ≡ defs.rows_ran begun schedule.now allowance log.old rows.old }
    ensures log_after { log.new ≡ defs.rows_log begun schedule.now allowance log.old rows.old }
    ensures rows_after { rows.new ≡ defs.rows_from begun schedule.now allowance log.old rows.old }
{
    match begun {
        Ok(state) => rows::by_turn(state, schedule, allowance, log, rows),
        Err(refusal) => unrun(refusal),
    }
}

// Writes the state after a run to the list that keeps it. The list has room, since the state came from it; a refused run leaves it.
fn keep(ran: &Ran, list: &mut [u64])
    ensures { list.new ≡ defs.kept_after ran.now list.old }
{
    if rows::refused(ran.ending) {
        return;
    }
    let _ = save(ran.state, list);
}

// Tells a run's answer: the turns made, the place of reason 9, else 0, the rounds closed, and the reason.
fn tell(ran: &Ran, turns: &mut usize, place: &mut usize, rounds: &mut u32) -> u8
    ensures { defs.numbers_of ran.now
        ≡ record { reason = result; turns = turns.new; place = place.new; rounds = rounds.new } }
{
    *turns = ran.turns;
    *place = numbers::ending_place(&ran.ending);
    *rounds = ran.rounds;
    numbers::ending_reason(&ran.ending)
}

// Runs the schedule from a fresh state with these tables of parents, starts and work lengths, at most as many turns as the allowance. Writes two
// bytes a turn to the log, and to `tasks` four numbers a task: its line and its count at the end, its moves and its waits. Answers the reason
// that refused the fresh state, the run or a turn; 0 if nothing was refused. The turns are those made, the place is that of reason 9, else 0, and
// the rounds are those that the turns closed.
pub fn tungwaff_run(
    kind: usize,
    n: usize,
    modulus: usize,
    parents: &[u8],
    starts: &[u8],
    works: &[u8],
    schedule: &[u8],
    allowance: usize,
    log: &mut [u8],
    tasks: &mut [u32],
    turns: &mut usize,
    place: &mut usize,
    rounds: &mut u32,
) -> u8
    ensures { defs.run_told (defs.inputs_from kind n modulus parents.now starts.now works.now)
        schedule.now allowance log.old tasks.old
        ≡ record {
          numbers = record { reason = result; turns = turns.new; place = place.new; rounds = rounds.new };
          log = log.new;
          tasks = tasks.new;
        } }
{
    let setup = Setup { kind, n, modulus };
    let tables = Tables {
        parents,
        starts,
        works,
    };
    let begun = freshly(setup, tables);
    let ran = run_tasks(begun, schedule, allowance, log, tasks);
    tell(&ran, turns, place, rounds)
}

// Runs the schedule as `tungwaff_run` does, from the state that the list keeps, and writes the state after it to the list. Reason 10 is also that of
// a list that is too short for a state, and 7 that of one whose numbers are no state in range.
pub fn tungwaff_resume(
    list: &mut [u64],
    schedule: &[u8],
    allowance: usize,
    log: &mut [u8],
    tasks: &mut [u32],
    turns: &mut usize,
    place: &mut usize,
    rounds: &mut u32,
) -> u8
    ensures { defs.resume_told list.old schedule.now allowance log.old tasks.old
        ≡ record {
          numbers = record { reason = result; turns = turns.new; place = place.new; rounds = rounds.new };
          log = log.new;
          tasks = tasks.new;
          list = list.new;
        } }
{
    let begun = load(list);
    let ran = run_tasks(begun, schedule, allowance, log, tasks);
    keep(&ran, list);
    tell(&ran, turns, place, rounds)
}

// Runs the schedule as `tungwaff_resume` does, and writes to `rows` six numbers for every turn made: its task, its line before, 1 if it moved or 0 if
// it waited, the task's count after it, the least count after it, and 1 if it closed a round, else 0.
pub fn tungwaff_rows(
    list: &mut [u64],
    schedule: &[u8],
    allowance: usize,
    log: &mut [u8],
    rows: &mut [u32],
    turns: &mut usize,
    place: &mut usize,
    rounds: &mut u32,
) -> u8
    ensures { defs.rows_told list.old schedule.now allowance log.old rows.old
        ≡ record {
          numbers = record { reason = result; turns = turns.new; place = place.new; rounds = rounds.new };
          log = log.new;
          rows = rows.new;
          list = list.new;
        } }
{
    let begun = load(list);
    let ran = run_rows(begun, schedule, allowance, log, rows);
    keep(&ran, list);
    tell(&ran, turns, place, rounds)
}

// A turn of the task; a state that was refused has none.
fn turn_of(begun: Result<State, Refusal>, task: usize) -> Turned
    ensures { result ≡ defs.turned_from begun task }
{
    match begun {
        Ok(state) => state.turn(task),
        Err(refusal) => Turned {
            state: State::zero(),
            outcome: Err(refusal),
        },
    }
}

// Who can move; in a state that was refused nobody is asked.
fn ready_in(begun: Result<State, Refusal>) -> Result<Option<usize>, Refusal>
    ensures { result ≡ defs.ready_kept begun }
{
    match begun {
        Ok(state) => state.ready().ready,
        Err(refusal) => Err(refusal),
    }
}

// Makes a turn of the task from the state that the list keeps, and writes the state after it to the list. Answers the reason that refused the list
// or the turn; 0 if nothing was refused. `moved` is 1 if the turn moved, 0 if it waited or was refused; `closed` is 1 if it closed a round, else 0.
pub fn tungwaff_turn(list: &mut [u64], task: usize, moved: &mut u8, closed: &mut u8) -> u8
    ensures { defs.turn_told list.old task
        ≡ record { reason = result; moved = moved.new; closed = closed.new; list = list.new } }
{
    let turned = turn_of(load(list), task);
    *moved = numbers::turn_number(&turned.outcome);
    *closed = numbers::turn_closed(&turned.outcome);
    // By the number and not by `match`: `turn_list` asks whether it is 0, and a contract sees a refusal as any number, 0 too.
    let reason = numbers::refused_reason(&turned.outcome);
    if reason == 0 {
        let _ = save(turned.state, list);
    }
    reason
}

// Asks who can move in the state that the list keeps. Answers the reason that refused it; 0 if nothing was refused. `task` is the least task that
// can move, 64 if nobody can, and 0 where it was refused.
pub fn tungwaff_ready(list: &[u64], task: &mut usize) -> u8
    ensures { defs.ready_told list.now ≡ record { reason = result; task = task.new } }
{
    let ready = ready_in(load(list));
    *task = numbers::ready_number(&ready);
    numbers::ready_reason(&ready)
}

// Writes the pairs of offset and length of a schedule's passes. Answers the reason that refused the call, 0 if it was not refused. The
// count is that of the passes, and the place that of reason 9, else 0.
pub fn tungwaff_passes(
    n: usize,
    schedule: &[u8],
    pairs: &mut [u32],
    count: &mut usize,
    place: &mut usize,
) -> u8
    ensures { defs.passes_told n schedule.now pairs.old
        ≡ record { reason = result; count = count.new; place = place.new; pairs = pairs.new } }
{
    let answer = schedule::passes(n, schedule, pairs);
    *count = numbers::passes_count(&answer);
    *place = numbers::passes_place(&answer);
    numbers::passes_reason(&answer)
}

// The length of the first whole pass that begins at the place; 0 where there is none.
pub fn tungwaff_first_pass(n: usize, schedule: &[u8], place: usize) -> usize
    ensures { result ≡ length (first_pass_of n place schedule.now) }
{
    let pass = schedule::first_pass(schedule, n, place);
    pass.len()
}

// Writes a shape's table of parents. Answers the reason that refused the call, 0 if it was not refused.
pub fn tungwaff_shape(shape: usize, n: usize, table: &mut [u8]) -> u8
    ensures { defs.shape_told shape n table.old ≡ record { reason = result; table = table.new } }
{
    let shaped = parents::shape(shape, n, table);
    numbers::shape_reason(&shaped)
}

// Tells a play-back's verdict: 1 if every triple is what the defined turn does, else 0; the index of the first triple that is not; and the reason.
fn tell_verdict(verdict: &Result<Verdict, Refusal>, agrees: &mut u8, index: &mut usize) -> u8
    ensures { defs.verdict_told verdict.now ≡ record { reason = result; agrees = agrees.new; index = index.new } }
{
    *agrees = numbers::verdict_agrees(verdict);
    *index = numbers::verdict_index(verdict);
    numbers::verdict_reason(verdict)
}

// Plays a trace from a fresh state with these tables of parents, starts and work lengths. Answers the reason that refused it, 0 if it was not refused. `agrees` is 1
// if every triple is what the defined turn does, else 0; `index` is that of the first triple that is not, from 0, and 0 where none is told.
pub fn tungwaff_play(
    kind: usize,
    n: usize,
    modulus: usize,
    parents: &[u8],
    starts: &[u8],
    works: &[u8],
    trace: &[u8],
    agrees: &mut u8,
    index: &mut usize,
) -> u8
    ensures { defs.play_told (defs.inputs_from kind n modulus parents.now starts.now works.now) trace.now
        ≡ record { reason = result; agrees = agrees.new; index = index.new } }
{
    let setup = Setup { kind, n, modulus };
    let tables = Tables {
        parents,
        starts,
        works,
    };
    let played = playback::play(setup, tables, trace);
    tell_verdict(&played.verdict, agrees, index)
}

// Writes the state of a play-back to the list. Gives its verdict, or 10 for a list that is too short; a play-back that was refused leaves the list.
fn keep_played(played: Played, list: &mut [u64]) -> Result<Verdict, Refusal>
    ensures value { result ≡ defs.kept_verdict played list.old }
    ensures list_after { list.new ≡ defs.kept_played played list.old }
{
    // By the number and not by `?`: `kept_verdict` and `kept_played` ask whether it is 0, and a contract sees a refusal as any number, 0 too.
    if numbers::verdict_reason(&played.verdict) != 0 {
        return played.verdict;
    }
    save(played.state, list)?;
    played.verdict
}

// Plays a trace as `tungwaff_play` does, and writes the state after it, or before the triple that differs, to the list. Reason 10 is that of a list that is too
// short for a state, and comes last.
pub fn tungwaff_play_state(
    kind: usize,
    n: usize,
    modulus: usize,
    parents: &[u8],
    starts: &[u8],
    works: &[u8],
    trace: &[u8],
    list: &mut [u64],
    agrees: &mut u8,
    index: &mut usize,
) -> u8
    ensures { defs.play_state_told (defs.inputs_from kind n modulus parents.now starts.now works.now)
        trace.now list.old
        ≡ record { told = record { reason = result; agrees = agrees.new; index = index.new }; list = list.new } }
{
    let setup = Setup { kind, n, modulus };
    let tables = Tables {
        parents,
        starts,
        works,
    };
    let reported = playback::play(setup, tables, trace);
    let verdict = keep_played(reported, list);
    tell_verdict(&verdict, agrees, index)
}

// The passes that demand 3 promises to raise the least count. Answers the reason that refused the call, 0 if it was not refused.
pub fn tungwaff_limit(kind: usize, n: usize, works: &[u8], passes: &mut usize) -> u8
    ensures { limit_of kind n works.now ≡ record { reason = result; passes = passes.new } }
{
    match bound::limit(kind, n, works) {
        Ok(most) => {
            *passes = most;
            0
        }
        Err(of_limit) => {
            *passes = 0;
            of_limit.number()
        }
    }
}

// What the sheet program reads of a text: parents and schedule go to the first bytes of the buffers, and `entries` and `turns` say how many they are. Answers the
// reason that refused it, 0 if it was not refused; the place is that of reason 9, else 0.
pub fn tungwaff_read(
    text: &[u8],
    parents: &mut [u8],
    schedule: &mut [u8],
    kind: &mut usize,
    n: &mut usize,
    modulus: &mut usize,
    entries: &mut usize,
    turns: &mut usize,
    place: &mut usize,
) -> u8
    ensures { defs.read_told text.now parents.old schedule.old
        ≡ record {
          said = record {
            reason = result;
            place = place.new;
            kind = kind.new;
            n = n.new;
            modulus = modulus.new;
            parents = entries.new;
            turns = turns.new;
          };
          parents = parents.new;
          schedule = schedule.new;
        } }
{
    match reader::read(text, parents, schedule) {
        Ok(said) => {
            *kind = said.setup.kind;
            *n = said.setup.n;
            *modulus = said.setup.modulus;
            *entries = said.parents;
            *turns = said.turns;
            *place = 0;
            0
        }
        Err(refused) => {
            *kind = 0;
            *n = 0;
            *modulus = 0;
            *entries = 0;
            *turns = 0;
            *place = refused.place;
            refused.refusal.number()
        }
    }
}

// Prints the sheet of a text to the page, with zeros after it, and answers how many bytes it has.
pub fn tungwaff_sheet(text: &[u8], page: &mut [u8; 2048]) -> usize
    ensures { defs.sheet_told text.now ≡ record { length = result; page = page.new } }
{
    let sheet = sheet_text::sheet(text);
    let bytes = sheet.bytes;
    *page = bytes;
    sheet.len
}
