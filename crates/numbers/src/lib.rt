// The numbers that a program outside is told an answer by: of each its reason, 0 where nothing was refused, and what else it carries. The
// definitions stand with those of the answers, or in specs/Numbers.antt.
#![tactic(auto)]

ghost use Rattle.std.specs.Prelude.{◌≡◌};
ghost use Rattle.machine.specs.Ready.{ready_reason, ready_number};
ghost use Rattle.runner.specs.Run.{ending_reason};
ghost use Rattle.playback.specs.Playback.{verdict_reason, verdict_agrees, verdict_index};
ghost use Rattle.schedule.specs.Passes.{passes_reason, passes_count, passes_place};
ghost use Rattle.numbers.specs.Numbers as defs;

use machine::Move;
use playback::Verdict;
use reason::{PlacedRefusal, Refusal};
use runner::Ending;

// The number of the reason that refused a call; 0 where nothing was refused. Here and below an answer is lent: tried, the borrow checker does not
// cover a function that passes a `Result` by value twice, though it is `Copy`.
pub fn refused_reason<T: Copy>(answer: &Result<T, Refusal>) -> u8
    ensures { result ≡ defs.refused_reason answer.now }
{
    match *answer {
        Ok(_) => 0,
        Err(refusal) => refusal.number(),
    }
}

// The reason that an ending gives.
pub fn ending_reason(ending: &Ending) -> u8
    ensures { result ≡ ending_reason ending.now }
{
    match *ending {
        Ending::Done | Ending::Spent => 0,
        Ending::Stopped(refusal) => refusal.number(),
        Ending::Refused(refused) => refused.refusal.number(),
    }
}

// The place that an ending gives; 0 but for reason 9.
pub fn ending_place(ending: &Ending) -> usize
    ensures { result ≡ defs.ending_place ending.now }
{
    match *ending {
        Ending::Done | Ending::Spent | Ending::Stopped(_) => 0,
        Ending::Refused(refused) => refused.place,
    }
}

// 1 if a turn moved, 0 if it waited or was refused.
pub fn turn_number(outcome: &Result<Move, Refusal>) -> u8
    ensures { result ≡ defs.turn_number outcome.now }
{
    match *outcome {
        Ok(how) => how.number(),
        Err(_) => 0,
    }
}

// 1 if a turn closed a round, 0 if it did not or was refused.
pub fn turn_closed(outcome: &Result<Move, Refusal>) -> u8
    ensures { result ≡ defs.turn_closed outcome.now }
{
    match *outcome {
        Ok(Move::Moved(closed)) => closed,
        Ok(Move::Waited) | Err(_) => 0,
    }
}

// The reason that refused to say who is ready. It, `shape_reason` and `verdict_reason` are but `refused_reason`, and stay since they are public.
pub fn ready_reason(ready: &Result<Option<usize>, Refusal>) -> u8
    ensures { result ≡ ready_reason ready.now }
{
    refused_reason(ready)
}

// The task that is ready, 64 for nobody.
pub fn ready_number(ready: &Result<Option<usize>, Refusal>) -> usize
    ensures { result ≡ ready_number ready.now }
{
    match *ready {
        Ok(Some(task)) => task,
        Ok(None) => 64,
        Err(_) => 0,
    }
}

// The reason that refused passes.
pub fn passes_reason(passes: &Result<usize, PlacedRefusal>) -> u8
    ensures { result ≡ passes_reason passes.now }
{
    match *passes {
        Ok(_) => 0,
        Err(refused) => refused.refusal.number(),
    }
}

// The number of passes; 0 where they were refused.
pub fn passes_count(passes: &Result<usize, PlacedRefusal>) -> usize
    ensures { result ≡ passes_count passes.now }
{
    passes.unwrap_or(0)
}

// The place of a refusal; 0 but for reason 9.
pub fn passes_place(passes: &Result<usize, PlacedRefusal>) -> usize
    ensures { result ≡ passes_place passes.now }
{
    match passes {
        Ok(_) => 0,
        Err(refused) => refused.place,
    }
}

// The reason that refused a shape.
pub fn shape_reason(shaped: &Result<(), Refusal>) -> u8
    ensures { result ≡ defs.refused_reason shaped.now }
{
    refused_reason(shaped)
}

// The reason that refused a play-back.
pub fn verdict_reason(verdict: &Result<Verdict, Refusal>) -> u8
    ensures { result ≡ verdict_reason verdict.now }
{
    refused_reason(verdict)
}

// 1 for a trace that agrees, else 0.
pub fn verdict_agrees(verdict: &Result<Verdict, Refusal>) -> u8
    ensures { result ≡ verdict_agrees verdict.now }
{
    match *verdict {
        Ok(Verdict::Agrees) => 1,
        Ok(Verdict::Differs(_)) | Err(_) => 0,
    }
}

// The index of the first triple that differs; 0 where none is told.
pub fn verdict_index(verdict: &Result<Verdict, Refusal>) -> usize
    ensures { result ≡ verdict_index verdict.now }
{
    match *verdict {
        Ok(Verdict::Differs(index)) => index,
        Ok(Verdict::Agrees) | Err(_) => 0,
    }
}
