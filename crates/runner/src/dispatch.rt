// Which rule applies, for the loop of a run: the answer of `lines::rule::effect_of`, from the same pieces. That loop is its only caller, so the
// compiler inlines it there with all its pieces; a function with several callers is inlined only where it is small, and `effect_of` is not.
// That the lines are inlined was found by measuring to be part of how a run meets its bars, 2.0 and 2.5 times the baseline (docs/performance.md).
ghost use Rattle.std.specs.Prelude.{◌≡◌};
ghost use Rattle.lines.specs.Rule.{effect_from};

use kind::Kind;
use lines::{Act, Effect, Shared, Task, Write, centralized, increment, ring, symmetric, tree};

// What the line of a task does, where `own` is the task and `seen` the one that it looks at. A match and no table of functions: these aren't inlined.
pub(crate) fn effect_of(shared: Shared, table: &[u8], task: usize, own: Task, seen: Task) -> Effect
    ensures { result ≡ effect_from shared table.now task own seen }
{
    let line = own.line;
    match Kind::try_from(shared.kind as usize) {
        Ok(Kind::Symmetric) => symmetric::line(line, shared.n, shared.modulus, seen.tag, own),
        Ok(Kind::Increment) => increment::line(line, shared.n, shared.arrivals, shared.sense, own),
        Ok(Kind::Ring) => ring::line(line, shared.n, task, own),
        Ok(Kind::Tree) => match line {
            0..=13 => tree::gather(line, table, task, own),
            14..=16 => tree::meet(line, task, seen.flag, own),
            17..=255 => tree::release(line, table, task, own),
        },
        Ok(Kind::Centralized) => centralized::line(
            line,
            shared.n,
            shared.arrivals,
            shared.sense,
            own,
        ),
        Err(_) => Effect {
            act: Act::Waits,
            task: own,
            write: Write::Nothing,
        },
    }
}
