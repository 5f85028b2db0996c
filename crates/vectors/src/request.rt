// Which request a line makes, and what it is given.
use crate::text::Numbers;
use machine::{Setup, Tables};

// The most entries of a table.
pub const MOST_TABLE: usize = 4096;

// The most turns of a schedule, and the most bytes of a trace.
const MOST_TURNS: usize = 70000;

// A request; main.rt has the lines that make them.
#[derive(Clone, Copy)]
pub enum Request<'a> {
    Fresh {
        setup: Setup,
        tables: Tables<'a>,
    },
    Turn {
        task: usize,
    },
    Ready,
    Run {
        allowance: usize,
        room: usize,
        schedule: &'a [u8],
    },
    State,
    Change {
        field: u64,
        task: usize,
        value: u64,
    },
    Passes {
        n: usize,
        room: usize,
        schedule: &'a [u8],
    },
    FirstPass {
        n: usize,
        place: usize,
        schedule: &'a [u8],
    },
    Shape {
        shape: usize,
        n: usize,
        room: usize,
    },
    PlayBack {
        setup: Setup,
        tables: Tables<'a>,
        trace: &'a [u8],
    },
}

// A table of so many entries, and what comes after it.
fn table(entries: &[u8], length: u64) -> Option<(&[u8], &[u8])> {
    if (MOST_TABLE as u64) < length {
        return None;
    }
    entries.split_at_checked(length as usize)
}

// The three tables whose lengths stand in the line, and so many entries at most after them.
fn three_tables(line: &Numbers, most: usize) -> Option<(Tables<'_>, &[u8])> {
    let [_, _, _, _, parents, starts, works] = line.head;
    let entries = line.after(7, 3 * MOST_TABLE + MOST_TURNS)?;
    let (parents, entries) = table(entries, parents)?;
    let (starts, entries) = table(entries, starts)?;
    let (works, rest) = table(entries, works)?;
    if most < rest.len() {
        return None;
    }
    let tables = Tables {
        parents,
        starts,
        works,
    };
    Some((tables, rest))
}

fn setup(line: &Numbers) -> Setup {
    let [_, kind, n, modulus, ..] = line.head;
    Setup {
        kind: kind as usize,
        n: n as usize,
        modulus: modulus as usize,
    }
}

fn fresh(line: &Numbers) -> Option<Request<'_>> {
    let tables = Tables::of_parents(line.after(4, MOST_TABLE)?);
    Some(Request::Fresh {
        setup: setup(line),
        tables,
    })
}

fn fresh_tables(line: &Numbers) -> Option<Request<'_>> {
    let (tables, _) = three_tables(line, 0)?;
    Some(Request::Fresh {
        setup: setup(line),
        tables,
    })
}

fn play_back(line: &Numbers) -> Option<Request<'_>> {
    let (tables, trace) = three_tables(line, MOST_TURNS)?;
    Some(Request::PlayBack {
        setup: setup(line),
        tables,
        trace,
    })
}

// A request that is its number alone.
fn alone<'a>(line: &Numbers, request: Request<'a>) -> Option<Request<'a>> {
    line.after(1, 0)?;
    Some(request)
}

fn turn(line: &Numbers) -> Option<Request<'_>> {
    let [_, task, ..] = line.head;
    line.after(2, 0)?;
    Some(Request::Turn {
        task: task as usize,
    })
}

fn run(line: &Numbers) -> Option<Request<'_>> {
    let [_, allowance, room, ..] = line.head;
    Some(Request::Run {
        allowance: allowance as usize,
        room: room as usize,
        schedule: line.after(3, MOST_TURNS)?,
    })
}

fn change(line: &Numbers) -> Option<Request<'_>> {
    let [_, field, task, value, ..] = line.head;
    line.after(4, 0)?;
    Some(Request::Change {
        field,
        task: task as usize,
        value,
    })
}

fn passes(line: &Numbers) -> Option<Request<'_>> {
    let [_, n, room, ..] = line.head;
    Some(Request::Passes {
        n: n as usize,
        room: room as usize,
        schedule: line.after(3, MOST_TURNS)?,
    })
}

fn first_pass(line: &Numbers) -> Option<Request<'_>> {
    let [_, n, place, ..] = line.head;
    Some(Request::FirstPass {
        n: n as usize,
        place: place as usize,
        schedule: line.after(3, MOST_TURNS)?,
    })
}

fn shape(line: &Numbers) -> Option<Request<'_>> {
    let [_, shape, n, room, ..] = line.head;
    line.after(4, 0)?;
    Some(Request::Shape {
        shape: shape as usize,
        n: n as usize,
        room: room as usize,
    })
}

impl<'a> Request<'a> {
    // The request of a line; none where it is unknown, or has too few or too many numbers, or one above 255 among its tables, turns or trace.
    pub(crate) fn of(line: &'a Numbers) -> Option<Request<'a>> {
        match line.head[0] {
            1 => fresh(line),
            2 => turn(line),
            3 => alone(line, Request::Ready),
            4 => run(line),
            5 => alone(line, Request::State),
            6 => change(line),
            7 => passes(line),
            8 => first_pass(line),
            9 => shape(line),
            10 => fresh_tables(line),
            11 => play_back(line),
            _ => None,
        }
    }
}
