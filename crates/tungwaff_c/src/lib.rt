// The exported functions, for programs in C and in Rust: each calls the function of its name of `tungwaff`, and states its clauses again. A crate is a library
// or a static library, and not both, so the exports stand here and all that they promise there.
#![tactic(auto)]

ghost use Rattle.std.specs.Prelude.{◌≡◌, length};
ghost use Rattle.schedule.specs.FirstPass.{first_pass_of};
ghost use Rattle.bound.specs.Bound.{limit_of};
ghost use Rattle.tungwaff.specs.Entry as defs;

// Writes a fresh state with these tables of parents, starts and work lengths to the list. Answers the reason that refused it, or 10 for a
// short list; 0 if nothing was refused.
#[unsafe(no_mangle)]
pub extern "C" fn tungwaff_fresh(
    kind: usize,
    n: usize,
    modulus: usize,
    parents: &[u8],
    starts: &[u8],
    works: &[u8],
    list: &mut [u64],
) -> u8
    ensures { defs.fresh_told (defs.inputs_from kind n modulus parents.now starts.now works.now) list.old
        ≡ record { reason = result; list = list.new } }
{
    tungwaff::tungwaff_fresh(kind, n, modulus, parents, starts, works, list)
}

// Runs the schedule from a fresh state with these tables of parents, starts and work lengths, at most as many turns as the allowance. Writes two
// bytes a turn to the log, and to `tasks` four numbers a task: its line and its count at the end, its moves and its waits. Answers the reason
// that refused the fresh state, the run or a turn; 0 if nothing was refused. The turns are those made, the place is that of reason 9, else 0, and
// the rounds are those that the turns closed.
#[unsafe(no_mangle)]
pub extern "C" fn tungwaff_run(
    kind: usize,
    n: usize,
    modulus: usize,
    parents: &[u8],
    starts: &[u8],
    works: &[u8],
    schedule: &[u8],
    allowance: usize,
    log: &mut [u8],
    tasks: &mut [u32],
    turns: &mut usize,
    place: &mut usize,
    rounds: &mut u32,
) -> u8
    ensures { defs.run_told (defs.inputs_from kind n modulus parents.now starts.now works.now)
        schedule.now allowance log.old tasks.old
        ≡ record {
          numbers = record { reason = result; turns = turns.new; place = place.new; rounds = rounds.new };
          log = log.new;
          tasks = tasks.new;
        } }
{
    tungwaff::tungwaff_run(
        kind, n, modulus, parents, starts, works, schedule, allowance, log, tasks, turns, place,
        rounds,
    )
}

// Runs the schedule as `tungwaff_run` does, from the state that the list keeps, and writes the state after it to the list. Reason 10 is also that of
// a list that is too short for a state, and 7 that of one whose numbers are no state in range.
#[unsafe(no_mangle)]
pub extern "C" fn tungwaff_resume(
    list: &mut [u64],
    schedule: &[u8],
    allowance: usize,
    log: &mut [u8],
    tasks: &mut [u32],
    turns: &mut usize,
    place: &mut usize,
    rounds: &mut u32,
) -> u8
    ensures { defs.resume_told list.old schedule.now allowance log.old tasks.old
        ≡ record {
          numbers = record { reason = result; turns = turns.new; place = place.new; rounds = rounds.new };
          log = log.new;
          tasks = tasks.new;
          list = list.new;
        } }
{
    tungwaff::tungwaff_resume(list, schedule, allowance, log, tasks, turns, place, rounds)
}

// Runs the schedule as `tungwaff_resume` does, and writes to `rows` six numbers for every turn made: its task, its line before, 1 if it moved or 0 if
// it waited, the task's count after it, the least count after it, and 1 if it closed a round, else 0.
#[unsafe(no_mangle)]
pub extern "C" fn tungwaff_rows(
    list: &mut [u64],
    schedule: &[u8],
    allowance: usize,
    log: &mut [u8],
    rows: &mut [u32],
    turns: &mut usize,
    place: &mut usize,
    rounds: &mut u32,
) -> u8
    ensures { defs.rows_told list.old schedule.now allowance log.old rows.old
        ≡ record {
          numbers = record { reason = result; turns = turns.new; place = place.new; rounds = rounds.new };
          log = log.new;
          rows = rows.new;
          list = list.new;
        } }
{
    tungwaff::tungwaff_rows(list, schedule, allowance, log, rows, turns, place, rounds)
}

// Makes a turn of the task from the state that the list keeps, and writes the state after it to the list. Answers the reason that refused the list
// or the turn; 0 if nothing was refused. `moved` is 1 if the turn moved, 0 if it waited or was refused; `closed` is 1 if it closed a round, else 0.
#[unsafe(no_mangle)]
pub extern "C" fn tungwaff_turn(
    list: &mut [u64],
    task: usize,
    moved: &mut u8,
    closed: &mut u8,
) -> u8
    ensures { defs.turn_told list.old task
        ≡ record { reason = result; moved = moved.new; closed = closed.new; list = list.new } }
{
    tungwaff::tungwaff_turn(list, task, moved, closed)
}

// Asks who can move in the state that the list keeps. Answers the reason that refused it; 0 if nothing was refused. `task` is the least task that
// can move, 64 if nobody can, and 0 where it was refused.
#[unsafe(no_mangle)]
pub extern "C" fn tungwaff_ready(list: &[u64], task: &mut usize) -> u8
    ensures { defs.ready_told list.now ≡ record { reason = result; task = task.new } }
{
    tungwaff::tungwaff_ready(list, task)
}

// Writes the pairs of offset and length of a schedule's passes. Answers the reason that refused the call, 0 if it was not refused. The
// count is that of the passes, and the place that of reason 9, else 0.
#[unsafe(no_mangle)]
pub extern "C" fn tungwaff_passes(
    n: usize,
    schedule: &[u8],
    pairs: &mut [u32],
    count: &mut usize,
    place: &mut usize,
) -> u8
    ensures { defs.passes_told n schedule.now pairs.old
        ≡ record { reason = result; count = count.new; place = place.new; pairs = pairs.new } }
{
    tungwaff::tungwaff_passes(n, schedule, pairs, count, place)
}

// The length of the first whole pass that begins at the place; 0 where there is none.
#[unsafe(no_mangle)]
pub extern "C" fn tungwaff_first_pass(n: usize, schedule: &[u8], place: usize) -> usize
    ensures { result ≡ length (first_pass_of n place schedule.now) }
{
    tungwaff::tungwaff_first_pass(n, schedule, place)
}

// Writes a shape's table of parents. Answers the reason that refused the call, 0 if it was not refused.
#[unsafe(no_mangle)]
pub extern "C" fn tungwaff_shape(shape: usize, n: usize, table: &mut [u8]) -> u8
    ensures { defs.shape_told shape n table.old ≡ record { reason = result; table = table.new } }
{
    tungwaff::tungwaff_shape(shape, n, table)
}

// Plays a trace from a fresh state with these tables of parents, starts and work lengths. Answers the reason that refused it, 0 if it was not refused. `agrees` is 1
// if every triple is what the defined turn does, else 0; `index` is that of the first triple that is not, from 0, and 0 where none is told.
#[unsafe(no_mangle)]
pub extern "C" fn tungwaff_play(
    kind: usize,
    n: usize,
    modulus: usize,
    parents: &[u8],
    starts: &[u8],
    works: &[u8],
    trace: &[u8],
    agrees: &mut u8,
    index: &mut usize,
) -> u8
    ensures { defs.play_told (defs.inputs_from kind n modulus parents.now starts.now works.now) trace.now
        ≡ record { reason = result; agrees = agrees.new; index = index.new } }
{
    tungwaff::tungwaff_play(
        kind, n, modulus, parents, starts, works, trace, agrees, index,
    )
}

// Plays a trace as `tungwaff_play` does, and writes the state after it, or before the triple that differs, to the list. Reason 10 is that of a list that is too
// short for a state, and comes last.
#[unsafe(no_mangle)]
pub extern "C" fn tungwaff_play_state(
    kind: usize,
    n: usize,
    modulus: usize,
    parents: &[u8],
    starts: &[u8],
    works: &[u8],
    trace: &[u8],
    list: &mut [u64],
    agrees: &mut u8,
    index: &mut usize,
) -> u8
    ensures { defs.play_state_told (defs.inputs_from kind n modulus parents.now starts.now works.now)
        trace.now list.old
        ≡ record { told = record { reason = result; agrees = agrees.new; index = index.new }; list = list.new } }
{
    tungwaff::tungwaff_play_state(
        kind, n, modulus, parents, starts, works, trace, list, agrees, index,
    )
}

// The passes that demand 3 promises to raise the least count. Answers the reason that refused the call, 0 if it was not refused.
#[unsafe(no_mangle)]
pub extern "C" fn tungwaff_limit(kind: usize, n: usize, works: &[u8], passes: &mut usize) -> u8
    ensures { limit_of kind n works.now ≡ record { reason = result; passes = passes.new } }
{
    tungwaff::tungwaff_limit(kind, n, works, passes)
}

// What the sheet program reads of a text: parents and schedule go to the first bytes of the buffers, and `entries` and `turns` say how many they are. Answers the
// reason that refused it, 0 if it was not refused; the place is that of reason 9, else 0.
#[unsafe(no_mangle)]
pub extern "C" fn tungwaff_read(
    text: &[u8],
    parents: &mut [u8],
    schedule: &mut [u8],
    kind: &mut usize,
    n: &mut usize,
    modulus: &mut usize,
    entries: &mut usize,
    turns: &mut usize,
    place: &mut usize,
) -> u8
    ensures { defs.read_told text.now parents.old schedule.old
        ≡ record {
          said = record {
            reason = result;
            place = place.new;
            kind = kind.new;
            n = n.new;
            modulus = modulus.new;
            parents = entries.new;
            turns = turns.new;
          };
          parents = parents.new;
          schedule = schedule.new;
        } }
{
    tungwaff::tungwaff_read(
        text, parents, schedule, kind, n, modulus, entries, turns, place,
    )
}

// Prints the sheet of a text to the page, with zeros after it, and answers how many bytes it has.
#[unsafe(no_mangle)]
pub extern "C" fn tungwaff_sheet(text: &[u8], page: &mut [u8; 2048]) -> usize
    ensures { defs.sheet_told text.now ≡ record { length = result; page = page.new } }
{
    tungwaff::tungwaff_sheet(text, page)
}
