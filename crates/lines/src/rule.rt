// Which rule applies. specs/Rule.antt defines it.
ghost use Rattle.std.specs.Prelude.{◌≡◌};
ghost use Rattle.lines.specs.Rule as defs;

use crate::{Effect, Shared, Task, centralized, common, increment, ring, symmetric, tree};
use kind::Kind;

// What the line of a task does, where `own` is the task and `seen` the one that it looks at. A match, as the customer asked for, and no trait or table of
// functions: each barrier gets only the words that its lines read.
pub fn effect_of(shared: Shared, table: &[u8], task: usize, own: Task, seen: Task) -> Effect
    ensures { result ≡ defs.effect_from shared table.now task own seen }
{
    match Kind::try_from(shared.kind as usize) {
        Ok(Kind::Symmetric) => symmetric::line(own.line, shared.n, shared.modulus, seen.tag, own),
        Ok(Kind::Increment) => increment::line(
            own.line,
            shared.n,
            shared.arrivals,
            shared.sense,
            own,
        ),
        Ok(Kind::Ring) => ring::line(own.line, shared.n, task, own),
        Ok(Kind::Tree) => tree::line(own.line, table, task, seen.flag, own),
        Ok(Kind::Centralized) => centralized::line(
            own.line,
            shared.n,
            shared.arrivals,
            shared.sense,
            own,
        ),
        Err(_) => common::waits(own),
    }
}
