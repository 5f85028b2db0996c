// Play-back: from a fresh state, a trace that the watch wrote is held against the defined turns. What is answered is defined in
// specs/Playback.antt. It is made from runs and their logs, so that no state is copied for a turn.
#![tactic(auto)]

ghost use Rattle.std.specs.Prelude.{◌≡◌, ◌*◌, ◌%◌, ◌≤◌, length, take, IfOk};
ghost use Rattle.reason.specs.Checked.{checked, unit_of};
ghost use Rattle.machine.specs.Fresh.{inputs_of, fresh_state};
ghost use Rattle.playback.specs.Playback.{triples_of, play_from, trace_reason, play_reason, refused_play, play_of};
ghost use Rattle.playback.specs.Steps.{known_in, same_in, Reports};

use machine::valid::ValidState;
use machine::{Setup, State, Tables};
use reason::{Reason, Refusal};

// What a play-back that is not refused reports: every triple is what the defined turn does, or the index, from 0, of the first that is not. It is no
// `Option` of an index, since the definition `play_from` and the laws on it name both.
#[derive(Clone, Copy)]
pub enum Verdict {
    Agrees,
    Differs(usize),
}

// A play-back's answer: its verdict or why it is refused, with the state after the trace, before the triple that differs, or all 0 where it is
// refused: the definitions `play_from` and `refused_play` have a state in each case, so it is no part of the `Ok`.
#[derive(Clone, Copy)]
pub struct Played {
    pub state: State,
    pub verdict: Result<Verdict, Refusal>,
}

// How many triples of a part are what the turns do, from the first on, and the state after them.
#[derive(Clone, Copy)]
struct Part {
    same: usize,
    state: State,
}

// The most triples of a part.
const PART: usize = 4096;

// Whether a trace is refused: it is too long, or is not made of whole triples.
fn trace_reason(trace: &[u8]) -> Result<(), Refusal>
    ensures { result ≡ checked (trace_reason trace.now) }
{
    if 65536 < trace.len() {
        return Err(Reason::ScheduleLength.into());
    }
    if trace.len() % 3 != 0 {
        return Err(Reason::TraceLength.into());
    }
    Ok(())
}

// Writes the tasks of a trace's triples, up to the first that names no task, to the buffer, and answers how many they are. No heap: the buffer is
// lent, with its length beside it.
fn known_tasks(n: usize, trace: &[u8], tasks: &mut [u8]) -> usize
    requires { length trace.now ≤ 3 * length tasks.old }
    ensures value { result ≡ length (known_in n (triples_of trace.now)) }
    ensures tasks_after { take result tasks.new ≡ known_in n (triples_of trace.now) }
{
    for (i, triple) in trace.chunks_exact(3).enumerate() {
        let task = triple[0];
        if n <= task as usize {
            return i;
        }
        tasks[i] = task;
    }
    trace.len() / 3
}

// How many of a trace's triples, from the first on, have the two bytes that the log has of their turn.
fn same_rows(trace: &[u8], log: &[u8]) -> usize
    requires { 3 * length log.now ≤ 2 * length trace.now }
    ensures { result ≡ same_in (triples_of trace.now) log.now }
{
    let rows = log.chunks_exact(2);
    for (i, (triple, row)) in trace.chunks_exact(3).zip(rows).enumerate() {
        if triple[1] != row[0] || triple[2] != row[1] {
            return i;
        }
    }
    log.len() / 2
}

// Plays a part of a trace: the tasks up to the first unknown one are run, and the log is compared. For the state before a triple that differs they
// are run once more, with the turns before it as the allowance.
fn play_part(begin: ValidState, trace: &[u8]) -> Part
    requires { length trace.now ≤ 12288 }
    ensures { Reports begin.state (triples_of trace.now) result }
{
    let state = begin.state;
    let mut tasks = [0u8; PART];
    let mut log = [0u8; 2 * PART];
    let known = known_tasks(state.n as usize, trace, &mut tasks);
    let ran = runner::run(state, &tasks[..known], known, &mut log);
    let made = ran.turns;
    let same = same_rows(trace, &log[..2 * made]);
    if same == made {
        return Part {
            same,
            state: ran.state,
        };
    }
    let again = runner::run(state, &tasks[..known], same, &mut log);
    Part {
        same,
        state: again.state,
    }
}

// Plays a trace of whole triples part by part, so that of a trace that differs only one part is run twice.
fn play_from(begin: ValidState, trace: &[u8]) -> Played
    requires trace_len_bound { length trace.now ≤ 65536 }
    requires whole_triples { length trace.now % 3 ≡ 0 }
    ensures { result ≡ play_from begin.state 0 (triples_of trace.now) }
{
    let mut state = begin.state;
    for (i, piece) in trace.chunks(3 * PART).enumerate() {
        let reached = ValidState { state };
        let part = play_part(reached, piece);
        state = part.state;
        if part.same < piece.len() / 3 {
            return Played {
                state,
                verdict: Ok(Verdict::Differs(PART * i + part.same)),
            };
        }
    }
    Played {
        state,
        verdict: Ok(Verdict::Agrees),
    }
}

// The answer of a play-back that is refused.
pub fn refused(refusal: Refusal) -> Played
    ensures { result ≡ refused_play refusal }
{
    Played {
        state: State::zero(),
        verdict: Err(refusal),
    }
}

// The fresh state that a trace is played from, or why the play-back is refused. The inputs are spelled out by `inputs_of` in each clause, as in
// those of the public `play` and `Setup::fresh`, which may not change.
fn admitted(setup: Setup, tables: Tables<'_>, trace: &[u8]) -> Result<ValidState, Refusal>
    ensures told { unit_of result ≡ checked (play_reason (inputs_of setup tables.entry.parents.now tables.entry.starts.now tables.entry.works.now) trace.now) }
    ensures value { IfOk result (λ valid. valid.state ≡ fresh_state (inputs_of setup tables.entry.parents.now tables.entry.starts.now tables.entry.works.now)) }
{
    let fresh = setup.fresh(tables);
    fresh.made?;
    trace_reason(trace)?;
    let state = fresh.state;
    Ok(ValidState { state })
}

// Plays a trace from the fresh state of a setup and its tables.
pub fn play(setup: Setup, tables: Tables<'_>, trace: &[u8]) -> Played
    ensures { result ≡ play_of (inputs_of setup tables.entry.parents.now tables.entry.starts.now tables.entry.works.now) trace.now }
{
    match admitted(setup, tables, trace) {
        Ok(begin) => play_from(begin, trace),
        Err(refusal) => refused(refusal),
    }
}
