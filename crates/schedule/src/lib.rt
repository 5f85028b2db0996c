// Lists of turns: the first that is no task, their passes, and the first pass from a place. What each function answers is defined in specs/Passes.antt and
// specs/FirstPass.antt; the laws of both, and of the stretches that turns are cut into, stand in the files beside them. The number of tasks and the
// turns stay two parameters: callers have them apart, the one from a state, the other lent, and the definitions take them so.
// `n ≤ 64` is asked for in two private clauses: a type of counts that has it would be longer.
#![tactic(auto)]

ghost use Rattle.std.specs.Prelude.{◌≡◌, true, ◌+◌, ◌*◌, ◌≤◌, min, length};
ghost use Rattle.schedule.specs.Passes.{passes_of, max_turns, unknown_at, all_tasks, count_answer, passes_answer, with_pairs, pairs_after};
ghost use Rattle.schedule.specs.FirstPass.{first_pass_of};

use reason::{PlacedRefusal, Reason};

// The place of the first turn that is no task; the schedule's length if there is none, and no `Option`, as the definition `unknown_at` has it.
pub fn unknown_at(n: usize, schedule: &[u8]) -> usize
    ensures { result ≡ unknown_at n schedule.now }
{
    schedule
        .iter()
        .position(|task| n <= *task as usize)
        .unwrap_or(schedule.len())
}

// How many passes a schedule for n tasks has; or the refusal of the first turn that is no task. The set of named tasks is a local, here and in the
// two loops below, and no struct behind `&mut`: that was tried and measured, and passes then took 1.62 times the baseline where the bar is 1.2.
fn count(n: usize, schedule: &[u8]) -> Result<usize, PlacedRefusal>
    requires { n ≤ 64 }
    ensures { result ≡ count_answer n schedule.now }
{
    let every = bitset::all(n);
    let mut seen: u64 = 0;
    let mut count = 0;
    for i in 0..schedule.len() {
        let task = schedule[i] as usize;
        if n <= task {
            return Err(PlacedRefusal::of_turn(i));
        }
        seen = bitset::with(seen, task);
        if seen == every {
            count += 1;
            seen = 0;
        }
    }
    Ok(count)
}

// Writes the pairs of offset and length of a schedule's passes, where every turn is a task and there is room for the pairs. They are numbers in
// one list, since the C interface lends it so. `at` goes on where a pass ends and not with the loop, and by hand: what `chunks_exact_mut` promises
// tells nothing of the numbers that are written through it. The set is a local, for speed as in `count`.
fn write(n: usize, schedule: &[u8], pairs: &mut [u32])
    requires n_bound { n ≤ 64 }
    requires schedule_len_bound { length schedule.now ≤ max_turns }
    requires schedule_value { all_tasks n schedule.now ≡ true }
    requires schedule_in_bounds { 2 * length (passes_of n schedule.now) ≤ length pairs.old }
    ensures { pairs.new ≡ with_pairs n schedule.now pairs.old }
{
    let every = bitset::all(n);
    let mut seen: u64 = 0;
    let mut begin = 0;
    let mut at = 0;
    for i in 0..schedule.len() {
        seen = bitset::with(seen, schedule[i] as usize);
        if seen == every {
            pairs[at] = begin as u32;
            pairs[at + 1] = (i + 1 - begin) as u32;
            at += 2;
            begin = i + 1;
            seen = 0;
        }
    }
}

// Cuts a schedule into passes: a pass ends at the first turn by which every task has been named since it began. Writes each as
// its offset and its length, if there is room for all, and leaves the numbers after the last pair as they were.
pub fn passes(n: usize, schedule: &[u8], pairs: &mut [u32]) -> Result<usize, PlacedRefusal>
    ensures value { result ≡ passes_answer n schedule.now (length pairs.old) }
    ensures pairs_after { pairs.new ≡ pairs_after n schedule.now pairs.old }
{
    // Two tests and not `is_count`: after that one the compiler does not know in the loop that a task is below 64, and passes take a third more time.
    if n < 1 {
        return Err(Reason::Count.into());
    }
    if 64 < n {
        return Err(Reason::Count.into());
    }
    if 65536 < schedule.len() {
        return Err(Reason::ScheduleLength.into());
    }
    let k = count(n, schedule)?;
    if pairs.len() / 2 < k {
        return Err(Reason::Room.into());
    }
    write(n, schedule, pairs);
    Ok(k)
}

// Whether every turn is a task.
fn known(n: usize, turns: &[u8]) -> bool
    ensures { result ≡ all_tasks n turns.now }
{
    turns.iter().all(|task| (*task as usize) < n)
}

// The end of the first pass that begins at the place; the place itself if there is none, and no `Option`: `first_pass` hands back an empty part
// there all the same (its clause `ref_ptr_value`). By index, since the ends are places of the whole schedule. The set is a local, as in `count`.
fn first_end(n: usize, schedule: &[u8], place: usize) -> usize
    ensures { result ≡ place + length (first_pass_of n place schedule.now) }
{
    if !bitset::is_count(n) {
        return place;
    }
    let every = bitset::all(n);
    let mut seen: u64 = 0;
    for i in place..schedule.len() {
        let task = schedule[i] as usize;
        if n <= task {
            return place;
        }
        seen = bitset::with(seen, task);
        if seen == every {
            return if known(n, &schedule[i + 1..]) {
                i + 1
            } else {
                place
            };
        }
    }
    place
}

// The first whole pass that begins at the place, as a part of the schedule. It is empty, and begins there all the same, exactly if
// there is none, the place is past the end, n is not 1 to 64, or a byte from the place on is no task.
pub fn first_pass(schedule: &[u8], n: usize, place: usize) -> &[u8]
    ensures result_value { result.now ≡ first_pass_of n place schedule.now }
    ensures ref_ptr_value { (result.ref_ptr.0 ≡ schedule.entry.ref_ptr.0) × (result.ref_ptr.1 ≡ schedule.entry.ref_ptr.1 + min place (length schedule.now)) }
{
    let at = place.min(schedule.len());
    let end = first_end(n, schedule, at);
    &schedule[at..end]
}
