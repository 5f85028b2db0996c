// The answer to each request, from what the libraries answer.
use crate::fields::Kept;
use crate::print::{Output, Said, Word};
use crate::request::{MOST_TABLE, Request};
use machine::{Move, Setup, Tables};
use playback::Verdict;
use reason::{PlacedRefusal, Reason, Refusal};
use runner::Ending;

// The most bytes of a log and numbers of a list.
const MOST_LOG: usize = 131072;

const MOST_LIST: usize = 131072;

impl From<Refusal> for Said {
    fn from(refusal: Refusal) -> Said {
        Said::Refused(refusal)
    }
}

// A refusal, for a turn that is no task with its place.
impl From<PlacedRefusal> for Said {
    fn from(refused: PlacedRefusal) -> Said {
        match refused.refusal.reason() {
            Reason::Task => Said::RefusedAt(refused.place),
            _ => refused.refusal.into(),
        }
    }
}

impl From<Word> for Said {
    fn from(word: Word) -> Said {
        Said::Plain(word)
    }
}

impl From<Move> for Said {
    fn from(how: Move) -> Said {
        match how {
            Move::Moved(closed) => Said::Moved(closed),
            Move::Waited => Said::Number(0),
        }
    }
}

// Who is ready.
impl From<Option<usize>> for Said {
    fn from(ready: Option<usize>) -> Said {
        match ready {
            Some(task) => Said::Task(task),
            None => Said::Plain(Word::Nobody),
        }
    }
}

impl From<Verdict> for Said {
    fn from(verdict: Verdict) -> Said {
        match verdict {
            Verdict::Agrees => Said::Plain(Word::Agrees),
            Verdict::Differs(index) => Said::Differs(index),
        }
    }
}

impl From<Ending> for Said {
    fn from(how: Ending) -> Said {
        match how {
            Ending::Done => Said::Plain(Word::Done),
            Ending::Spent => Said::Plain(Word::Spent),
            Ending::Stopped(refusal) => Said::Stopped(refusal),
            Ending::Refused(refused) => refused.into(),
        }
    }
}

// What a call answered, or why it was refused.
fn said<T: Into<Said>, E: Into<Said>>(answer: Result<T, E>) -> Said {
    match answer {
        Ok(value) => value.into(),
        Err(refused) => refused.into(),
    }
}

fn fresh(kept: &mut Kept, setup: Setup, tables: Tables<'_>) -> Said {
    let fresh = setup.fresh(tables);
    kept.keep(fresh.state);
    said(fresh.made.map(|()| Said::Number(0)))
}

fn turn(kept: &mut Kept, task: usize) -> Said {
    let turned = kept.state().turn(task);
    kept.keep(turned.state);
    said(turned.outcome)
}

fn ready(kept: &Kept) -> Said {
    said(kept.state().ready().ready)
}

fn play(kept: &mut Kept, setup: Setup, tables: Tables<'_>, trace: &[u8]) -> Said {
    let played = playback::play(setup, tables, trace);
    kept.keep(played.state);
    said(played.verdict)
}

fn run(
    kept: &mut Kept,
    schedule: &[u8],
    allowance: usize,
    room: usize,
    out: &mut Output,
) -> Option<()> {
    let mut log = [255u8; MOST_LOG];
    let log = log.get_mut(..room)?;
    let ran = runner::run(kept.state(), schedule, allowance, log);
    kept.keep(ran.state);
    out.say(Said::from(ran.ending));
    out.next(ran.turns);
    out.next(ran.rounds);
    out.list(&ran.moves);
    out.list(&ran.waits);
    out.list(log);
    Some(())
}

fn passes(n: usize, schedule: &[u8], room: usize, out: &mut Output) -> Option<()> {
    let mut list = [u32::MAX; MOST_LIST];
    let list = list.get_mut(..room)?;
    let answer = schedule::passes(n, schedule, list);
    out.say(said(answer.map(|count| Said::Number(count as u64))));
    out.list(list);
    Some(())
}

fn first_pass(n: usize, schedule: &[u8], place: usize, out: &mut Output) {
    let pass = schedule::first_pass(schedule, n, place);
    out.say(pass.len());
    out.list(pass);
}

fn shape(shape: usize, n: usize, room: usize, out: &mut Output) -> Option<()> {
    let mut table = [255u8; MOST_TABLE];
    let table = table.get_mut(..room)?;
    let answer = parents::shape(shape, n, table);
    out.say(said(answer.map(|()| Word::Ok)));
    out.list(table);
    Some(())
}

// Prints the answer to a request, with no line feed. None where a lent list would be too long or a field cannot be changed, with nothing printed.
pub(crate) fn answer(kept: &mut Kept, request: Request<'_>, out: &mut Output) -> Option<()> {
    match request {
        Request::Fresh { setup, tables } => out.say(fresh(kept, setup, tables)),
        Request::Turn { task } => out.say(turn(kept, task)),
        Request::Ready => out.say(ready(kept)),
        Request::Run {
            allowance,
            room,
            schedule,
        } => run(kept, schedule, allowance, room, out)?,
        Request::State => kept.show(out),
        Request::Change { field, task, value } => {
            kept.change(field, task, value)?;
            out.say(Said::Plain(Word::Ok));
        }
        Request::Passes { n, room, schedule } => passes(n, schedule, room, out)?,
        Request::FirstPass { n, place, schedule } => first_pass(n, schedule, place, out),
        Request::Shape {
            shape: kind,
            n,
            room,
        } => shape(kind, n, room, out)?,
        Request::PlayBack {
            setup,
            tables,
            trace,
        } => out.say(play(kept, setup, tables, trace)),
    }
    Some(())
}
