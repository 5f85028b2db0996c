// The reader of a sheet's text: from its bytes to kind, N, R, parents and schedule in lent buffers, or the refusal. What it answers is defined
// in specs/Read.antt.
#![tactic(auto)]

ghost use Rattle.std.specs.Prelude.{◌≡◌, [], map, ◌+◌, min, ◌≤◌, length, take, drop};
ghost use Rattle.text.specs.Numbers.{low, over};
ghost use Rattle.machine.specs.Fresh.{inputs_of};
ghost use Rattle.reader.specs.Read as defs;

use kind::Kind;
use machine::{Setup, Tables};
use reason::{PlacedRefusal, Reason};

// What a text says: kind, N and R, and how many parents and turns there are. No heap: they stand in lent buffers, and the definition `answer_of` has
// their lengths.
#[derive(Clone, Copy)]
pub struct Said {
    pub setup: Setup,
    pub parents: usize,
    pub turns: usize,
}

// How many of `count` numbers are parents. By the kind's number, as the definition `parent_count` has it: what a text gives may be no kind.
fn parent_count(kind: usize, n: usize, count: usize) -> usize
    ensures { result ≡ min (defs.parent_count kind n) count }
{
    if kind == Kind::Tree.number() {
        n.min(count)
    } else {
        0
    }
}

// What is said of these five things: 2 to 6, which refuse the fresh state, then 9. The test for 9 stands in `runner` too, for the reason there.
fn check(setup: Setup, parents: &[u8], turns: &[u8]) -> Result<Said, PlacedRefusal>
    ensures { result ≡ defs.answer_of (defs.checked (record { inputs = inputs_of setup parents.now [] []; schedule = turns.now })) }
{
    setup.fresh(Tables::of_parents(parents)).made?;
    let place = schedule::unknown_at(setup.n, turns);
    if place < turns.len() {
        return Err(PlacedRefusal::of_turn(place));
    }
    Ok(Said {
        setup,
        parents: parents.len(),
        turns: turns.len(),
    })
}

// What is said of a text's numbers. No heap, here and in `read`: an array of all that a text may have, and how many are used.
fn check_numbers(numbers: &[u32]) -> Result<Said, PlacedRefusal>
    requires { length numbers.now ≤ 32768 }
    ensures { result ≡ defs.answer_of (defs.read_numbers numbers.now) }
{
    let [kind, n, modulus, rest @ ..] = numbers else {
        return Err(Reason::Text.into());
    };
    let setup = Setup {
        kind: *kind as usize,
        n: *n as usize,
        modulus: *modulus as usize,
    };
    let mut bytes = [0u8; 32768];
    text::read::bytes(rest, 255, &mut bytes);
    let first = parent_count(setup.kind, setup.n, rest.len());
    let (parents, turns) = bytes[..rest.len()].split_at(first);
    check(setup, parents, turns)
}

// Writes so many numbers after the third to one buffer, and the rest to the other. One list and a count, as the definition `five_of` cuts them.
fn write(numbers: &[u32], first: usize, parents: &mut [u8], schedule: &mut [u8])
    requires { (3 + first ≤ length numbers.now) × (length numbers.now ≤ 32768) }
    ensures parents_after { parents.new ≡ over (map low (take first (drop 3 numbers.now))) parents.old }
    ensures schedule_after { schedule.new ≡ over (map low (drop (3 + first) numbers.now)) schedule.old }
{
    let turns = 3 + first;
    text::read::bytes(&numbers[3..turns], 255, parents);
    text::read::bytes(&numbers[turns..], 255, schedule);
}

// What is said of a text's numbers; where nothing refuses them, they are written to the buffers. That there are at most 32,768 stands in three
// private clauses: a type that carries it would be longer.
fn read_numbers(
    numbers: &[u32],
    parents: &mut [u8],
    schedule: &mut [u8],
) -> Result<Said, PlacedRefusal>
    requires { length numbers.now ≤ 32768 }
    ensures value { result ≡ defs.answer_of (defs.within (defs.read_numbers numbers.now) (length parents.old) (length schedule.old)) }
    ensures parents_after { parents.new ≡ defs.parents_in (defs.within (defs.read_numbers numbers.now) (length parents.old) (length schedule.old)) parents.old }
    ensures schedule_after { schedule.new ≡ defs.turns_in (defs.within (defs.read_numbers numbers.now) (length parents.old) (length schedule.old)) schedule.old }
{
    let said = check_numbers(numbers)?;
    if parents.len() < said.parents || schedule.len() < said.turns {
        return Err(Reason::Room.into());
    }
    write(numbers, said.parents, parents, schedule);
    Ok(said)
}

// What any text says: parents and schedule are written to the first bytes of the buffers.
pub fn read(text: &[u8], parents: &mut [u8], schedule: &mut [u8]) -> Result<Said, PlacedRefusal>
    ensures value { result ≡ defs.answer_of (defs.read_within text.now (length parents.old) (length schedule.old)) }
    ensures parents_after { parents.new ≡ defs.parents_in (defs.read_within text.now (length parents.old) (length schedule.old)) parents.old }
    ensures schedule_after { schedule.new ≡ defs.turns_in (defs.read_within text.now (length parents.old) (length schedule.old)) schedule.old }
{
    let mut numbers = [0u32; 32768];
    let count = text::read::numbers(text, &mut numbers).ok_or(Reason::Text)?;
    read_numbers(&numbers[..count], parents, schedule)
}
