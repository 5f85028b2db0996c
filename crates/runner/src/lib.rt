// The run of a schedule: the only loop over turns. What it answers, and what it writes to the log, is defined in specs/Run.antt.
#![tactic(auto)]

mod dispatch;

ghost use Rattle.std.specs.Prelude.{◌≡◌, true, ◌*◌, ◌≤◌, ◌<◌, length, get_or, take, set, IfOk};
ghost use Rattle.reason.specs.Checked.{unit_of};
ghost use Rattle.counts.specs.Counts.{least_among};
ghost use Rattle.counts.specs.CountsLaws.{KeptOrRaised};
ghost use Rattle.machine.specs.Range.{table_of};
ghost use Rattle.machine.specs.Least.{counts_of};
ghost use Rattle.schedule.specs.Passes.{max_turns, all_tasks};
ghost use Rattle.runner.specs.Trace.{trace_of};
ghost use Rattle.runner.specs.Rise.{NoLess, rise_of};
ghost use Rattle.runner.specs.Run as defs;

use counts::Least;
use lines::Shared;
use machine::valid::ValidState;
use machine::{Move, State};
use reason::{PlacedRefusal, Reason, Refusal};

// How a run ended: all turns done; the allowance spent, with turns left; a turn refused; or the whole run refused. No `Result` of two, since the
// definitions `unstopped`, `ending_of` and `refused_run` name the four.
#[derive(Clone, Copy)]
pub enum Ending {
    Done,
    Spent,
    Stopped(Refusal),
    Refused(PlacedRefusal),
}

impl Ending {
    // How a run ended that this turn's answer ended, or else would end so.
    fn stopped_by(outcome: Result<Move, Refusal>, end: Ending) -> Ending
        ensures { result ≡ defs.ending_by outcome end }
    {
        match outcome {
            Ok(_) => end,
            Err(refusal) => Ending::Stopped(refusal),
        }
    }
}

// A run's answer: the state, the ending, the turns made, the rounds that they closed, and each task's moves and waits, in two arrays as the
// definition `ran_of` has them.
#[derive(Clone, Copy)]
pub struct Ran {
    pub state: State,
    pub ending: Ending,
    pub turns: usize,
    pub rounds: u32,
    pub moves: [u32; 64],
    pub waits: [u32; 64],
}

// Writes a turn's two bytes at the front of the log's tail.
fn write_row(tail: &mut [u8], line: u8, moved: u8)
    requires { 2 ≤ length tail.old }
    ensures { tail.new ≡ set (set tail.old 0 line) 1 moved }
{
    tail[0] = line;
    tail[1] = moved;
}

// How far each tally has risen. A loop and no `array::from_fn`: as a closure it would need the laws of snapshot/proofs/FromFn.antt a second time,
// since snapshot stands beside this crate.
fn rises(before: [u32; 64], after: [u32; 64]) -> [u32; 64]
    requires { NoLess before after }
    ensures { result ≡ rise_of before after }
{
    let mut all = [0u32; 64];
    for q in 0..64 {
        all[q] = after[q] - before[q];
    }
    all
}

// The ending of a run that no refusal stopped.
fn ended(allowance: usize, turns: usize) -> Ending
    ensures { result ≡ defs.unstopped allowance turns }
{
    if allowance < turns {
        Ending::Spent
    } else {
        Ending::Done
    }
}

// The answer of a run that is not refused as a whole, where the tallies were `moves` and `waits` before it: its own are how far they have risen.
fn report(
    state: State,
    ending: Ending,
    turns: usize,
    rounds: u32,
    moves: [u32; 64],
    waits: [u32; 64],
) -> Ran
    requires { NoLess moves state.moves × NoLess waits state.waits }
    ensures { result ≡ record { state = state; ending = ending; turns = turns; rounds = rounds; moves = rise_of moves state.moves; waits = rise_of waits state.waits } }
{
    let all_moves = state.moves;
    let all_waits = state.waits;
    Ran {
        state,
        ending,
        turns,
        rounds,
        moves: rises(moves, all_moves),
        waits: rises(waits, all_waits),
    }
}

// Stores a task's count, and answers the least of the counts then.
fn store_count(counts: &mut [u32], least: Least, task: usize, next: u32) -> Least
    requires task_in_bounds { task < length counts.old }
    requires least_value { least ≡ least_among (λ q. get_or counts.old q 0) (length counts.old) }
    requires kept_or_raised { KeptOrRaised (get_or counts.old task 0) next }
    ensures counts_after { counts.new ≡ set counts.old task next }
    ensures value { result ≡ least_among (λ q. get_or counts.new q 0) (length counts.old) }
{
    let count = counts[task];
    counts[task] = next;
    least.after(counts, count, next)
}

// Makes the turns of the schedule, from a state in range, whose parents are lent as `table`: each turn's answer is taken apart,
// moved and waited go on, a refusal ends the run. The state stays where it is: a turn reads two tasks, and stores what its effect has, whether
// it moves or waits (what waits has the task that stood there). Which word is written is not asked, only whether one is: most lines write none.
// Both tallies are stored too: a move adds 1 and 0 to them, a wait 0 and 1. The counts are kept besides, as `counts`, with the least of them: the
// rounds closed are how far that has risen. The steps of `State::turn` stand here again, since it takes the
// state by value: a loop that called it took 5.8 to 11 times the baseline, where the bars are 2.0 and 2.5 (docs/DECISIONS.md). So do the fields of `State::shared`, which is machine's own. The log goes by
// places: what `chunks_exact_mut` promises tells nothing of the bytes that are written through it.
fn turns(
    begin: ValidState,
    table: &[u8],
    schedule: &[u8],
    end: Ending,
    counts: &mut [u32],
    log: &mut [u8],
) -> Ran
    requires table_value { table.now ≡ table_of begin.state }
    requires schedule_value { all_tasks begin.state.n schedule.now ≡ true }
    requires schedule_len_bound { length schedule.now ≤ max_turns }
    requires counts_value { counts.old ≡ take begin.state.n (counts_of begin.state) }
    requires log_len_bound { 2 * length schedule.now ≤ length log.old }
    ensures value { result ≡ defs.ran_of (trace_of begin.state schedule.now) end }
    ensures log_after { log.new ≡ defs.logged_of (trace_of begin.state schedule.now) log.old }
{
    let mut state = begin.state;
    let old_moves = state.moves;
    let old_waits = state.waits;
    let mut least = counts::least_of(counts);
    let old = least.count;
    for (i, &turn) in schedule.iter().enumerate() {
        let task = turn as usize;
        let own = state.tasks[task];
        let looked = own.looked as usize;
        let seen = state.tasks[looked];
        let shared = Shared {
            kind: state.kind,
            n: state.n,
            modulus: state.modulus,
            arrivals: state.arrivals,
            sense: state.sense,
        };
        let effect = dispatch::effect_of(shared, table, task, own, seen);
        let act = effect.act;
        let next = effect.task;
        let moves = state.moves[task];
        let waits = state.waits[task];
        let closed = least.closes(own.count, next.count);
        let outcome = Move::of(act, closed, moves, waits);
        let Ok(how) = outcome else {
            let ended = Ending::stopped_by(outcome, end);
            return report(state, ended, i, least.count - old, old_moves, old_waits);
        };
        let moved = how.number();
        write_row(&mut log[2 * i..], own.line, moved);
        least = store_count(counts, least, task, next.count);
        let write = effect.write;
        state.moves[task] = moves + moved as u32;
        state.waits[task] = waits + (1 - moved) as u32;
        state.tasks[task] = next;
        if write.writes() {
            state.arrivals = write.arrivals(state.arrivals);
            state.sense = write.sense(state.sense);
            let place = write.place(task);
            let there = state.tasks[place];
            state.tasks[place] = write.task(there);
        }
    }
    let made = schedule.len();
    report(state, end, made, least.count - old, old_moves, old_waits)
}

// The answer of a run that is refused as a whole.
pub fn refused(state: State, refusal: PlacedRefusal) -> Ran
    ensures { result ≡ defs.refused_run state refusal.refusal refusal.place }
{
    Ran {
        state,
        ending: Ending::Refused(refusal),
        turns: 0,
        rounds: 0,
        moves: [0u32; 64],
        waits: [0u32; 64],
    }
}

// Why the whole run is refused, if it is, where the log has this room. The state is looked at here alone, before the first turn; it is lent, so that the
// run goes on with it where it stands. The test of unknown turns is that of `reader::check`; as a function it would need a definition of its own, for
// three lines.
fn admitted(
    state: &State,
    schedule: &[u8],
    allowance: usize,
    room: usize,
) -> Result<(), PlacedRefusal>
    ensures { result ≡ defs.admission state.now schedule.now allowance room }
{
    state.check()?;
    if 65536 < schedule.len() {
        return Err(Reason::ScheduleLength.into());
    }
    let place = schedule::unknown_at(state.n as usize, schedule);
    if place < schedule.len() {
        return Err(PlacedRefusal::of_turn(place));
    }
    if room < 2 * allowance.min(schedule.len()) {
        return Err(Reason::Room.into());
    }
    Ok(())
}

// Makes the first turns of a schedule, as many as the allowance, of a run that is not refused as a whole.
fn go(begin: ValidState, schedule: &[u8], allowance: usize, log: &mut [u8]) -> Ran
    requires admitted { defs.run_reason begin.state schedule.now allowance (length log.old) ≡ 0 }
    ensures value { result ≡ defs.run_of begin.state schedule.now allowance log.old }
    ensures log_after { log.new ≡ defs.log_after begin.state schedule.now allowance log.old }
{
    let count = allowance.min(schedule.len());
    let end = ended(allowance, schedule.len());
    let parents = begin.state.parents;
    let n = begin.state.n as usize;
    let mut counts = begin.state.all_counts();
    turns(
        begin,
        &parents[..n],
        &schedule[..count],
        end,
        &mut counts[..n],
        log,
    )
}

// Runs a schedule from a state, at most as many turns as the allowance, and writes two bytes a turn to the log. The four stay parameters, here and
// in the helpers: the clauses of `run` and the definitions `run_of` and `log_after` take them so.
pub fn run(state: State, schedule: &[u8], allowance: usize, log: &mut [u8]) -> Ran
    ensures value { result ≡ defs.run_of state schedule.now allowance log.old }
    ensures log_after { log.new ≡ defs.log_after state schedule.now allowance log.old }
{
    match admitted(&state, schedule, allowance, log.len()) {
        Ok(()) => go(ValidState { state }, schedule, allowance, log),
        Err(refusal) => refused(state, refusal),
    }
}
