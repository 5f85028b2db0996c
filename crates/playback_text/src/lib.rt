// Play-back from a setup text and a trace's bytes: from both to what is printed. What a setup says is defined in specs/Setup.antt, and what is
// printed in specs/Answer.antt.
#![tactic(auto)]

ghost use Rattle.std.specs.Prelude.{◌≡◌, ◌≤◌, ◌<◌, length, get_or};
ghost use Rattle.text.specs.Page.{Puts};
ghost use Rattle.machine.specs.Setters.{task_at};
ghost use Rattle.machine.specs.Turn.{turn_of};
ghost use Rattle.playback_text.specs.Setup.{setup_in};
ghost use Rattle.playback_text.specs.Answer as defs;
ghost use Rattle.playback_text.specs.Steps.{Within};

use machine::{Setup, State, Tables};
use playback::{Played, Verdict};
use reason::{Reason, Refusal};
use text::print::Page;

// What is printed, with zeros after it: the bytes of the verdict's line, and those of both lines. They stand in a buffer with the lengths beside it:
// no heap, and `printed_of` names these fields.
#[derive(Clone, Copy)]
pub struct Printed {
    pub bytes: [u8; 128],
    pub verdict: usize,
    pub len: usize,
}

// Plays a trace from the numbers of a setup, six before the entries of the tables. A work length that no byte holds is none, and becomes 0, which is
// none either. The bound of the length is the caller's: a slice of that buffer carries none. No heap: the bytes stand in buffers of that length.
fn play_numbers(numbers: &[u32], trace: &[u8]) -> Played
    requires { length numbers.now ≤ 32768 }
    ensures { result ≡ defs.play_in (setup_in numbers.now) trace.now }
{
    let [kind, n, modulus, parents, starts, works, entries @ ..] = numbers else {
        return playback::refused(Reason::Text.into());
    };
    let setup = Setup {
        kind: *kind as usize,
        n: *n as usize,
        modulus: *modulus as usize,
    };
    let parents = *parents as usize;
    let works = *works as usize;
    let tables = parents + *starts as usize;
    if entries.len() != tables + works {
        return playback::refused(Reason::Text.into());
    }
    let mut bytes = [0u8; 32768];
    text::read::bytes(&entries[..tables], 255, &mut bytes);
    let mut work = [0u8; 32768];
    text::read::bytes(&entries[tables..], 0, &mut work);
    let tables = Tables {
        parents: &bytes[..parents],
        starts: &bytes[parents..tables],
        works: &work[..works],
    };
    playback::play(setup, tables, trace)
}

// Plays a trace from a setup text. It reads as `reader::read` does, which is no plainer to share: a refusal here is a `Played`, there has a place.
fn play_text(setup: &[u8], trace: &[u8]) -> Played
    ensures { result ≡ defs.play_text setup.now trace.now }
{
    let mut numbers = [0u32; 32768];
    let Some(count) = text::read::numbers(setup, &mut numbers) else {
        return playback::refused(Reason::Text.into());
    };
    play_numbers(&numbers[..count], trace)
}

// A word, a space, a number and a line feed. Here and below there is no `write!`, which promises what it writes only where all of it is written:
// `Puts` says also what a short page gets.
fn print_counted(page: &mut Page, word: &[u8], x: usize)
    ensures { Puts (defs.counted_line word.now x) page.old page.new }
{
    page.word(word);
    page.spaced(x);
    page.byte(b'\n');
}

// The line of a verdict.
fn print_verdict(page: &mut Page, verdict: Result<Verdict, Refusal>)
    ensures { Puts (defs.verdict_line verdict) page.old page.new }
{
    match verdict {
        Ok(Verdict::Agrees) => page.word(b"agrees\n"),
        Ok(Verdict::Differs(index)) => print_counted(page, b"differs", index),
        Err(refusal) => print_counted(page, b"refused", refusal.number() as usize),
    }
}

// The line that a task is at.
fn line_of(state: State, task: usize) -> u8
    requires { task < 64 }
    ensures { result ≡ (task_at state task).line }
{
    state.tasks[task].line
}

// The line of what a turn does.
fn print_turn(page: &mut Page, state: State, task: usize)
    ensures { Puts (defs.turn_line state task (turn_of state task).outcome) page.old page.new }
{
    let turned = state.turn(task);
    page.number(task);
    match turned.outcome {
        Ok(how) => {
            page.spaced(line_of(state, task) as usize);
            print_counted(page, b"", how.number() as usize);
        }
        Err(refusal) => {
            page.byte(b' ');
            print_counted(page, b"refused", refusal.number() as usize);
        }
    }
}

// The byte at a place; 0 past the last.
fn byte_at(bytes: &[u8], at: usize) -> u8
    ensures { result ≡ get_or bytes.now at 0 }
{
    bytes.get(at).copied().unwrap_or_default()
}

// Where a triple differs, the line of what the turn of its task does from the state before it.
fn print_told(page: &mut Page, verdict: Result<Verdict, Refusal>, state: State, trace: &[u8])
    requires { Within verdict trace.now }
    ensures { Puts (defs.told_line verdict state trace.now) page.old page.new }
{
    if let Ok(Verdict::Differs(index)) = verdict {
        print_turn(page, state, byte_at(trace, 3 * index) as usize);
    }
}

// Plays a trace from a setup text, and prints what is reported.
pub fn play(setup: &[u8], trace: &[u8]) -> Printed
    ensures value { result ≡ defs.printed_of (defs.play_text setup.now trace.now) trace.now }
    ensures within { (result.verdict ≤ result.len) × (result.len ≤ 128) }
{
    let mut bytes = [0u8; 128];
    let mut page = Page::new(&mut bytes);
    let played = play_text(setup, trace);
    print_verdict(&mut page, played.verdict);
    let verdict = page.place();
    print_told(&mut page, played.verdict, played.state, trace);
    let len = page.place();
    Printed {
        bytes,
        verdict,
        len,
    }
}
