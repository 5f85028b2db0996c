// The bound of demand 3: how many passes, each of which names every task, surely raise the least count. specs/Bound.antt defines it.
#![tactic(auto)]

ghost use Rattle.std.specs.Prelude.{◌≡◌, ◌≤◌};
ghost use Rattle.bitset.specs.Sum.{sum};
ghost use Rattle.kind.specs.Numbers.{kind_number};
ghost use Rattle.setup.specs.Tables.{work_of};
ghost use Rattle.bound.specs.Bound as defs;

use kind::Kind;
use reason::Refusal;
use setup::{reasons, tables};

// The moves of a round, all tasks together, where the work of each is one move. n is a number within bounds and no type, here and below: `limit_of`
// takes any, and `accepted_limit` gives the bounds.
fn round_moves(kind: Kind, n: usize) -> usize
    requires { (1 ≤ n) × (n ≤ 64) }
    ensures { (result ≡ defs.M₁ (kind_number kind) n) × (result ≤ 8384) }
{
    match kind {
        Kind::Symmetric => n * (2 * n + 3),
        Kind::Tree => 10 * n - 3,
        Kind::Increment | Kind::Ring | Kind::Centralized => 5 * n,
    }
}

// The work lengths of n tasks, together. A loop: with `map` and `sum`, which was tried, the proof that the sum fits did not close.
fn work_sum(works: &[u8], n: usize) -> usize
    requires { n ≤ 64 }
    ensures { (result ≡ sum n (work_of works.now)) × (result ≤ 16320) }
{
    let mut all = 0;
    for q in 0..n {
        all += tables::work_of(works, q) as usize;
    }
    all
}

// The passes that demand 3 promises; refused for the kind (2), n (3) and the work lengths (15). The kind is a number, since `limit_of`
// refuses one that there is not; where `limit_reason` has passed it, `try_from` refuses nothing.
pub fn limit(kind: usize, n: usize, works: &[u8]) -> Result<usize, Refusal>
    ensures { result ≡ defs.answered (defs.limit_of kind n works.now) }
{
    reasons::limit_reason(kind, n, works)?;
    let moves = round_moves(Kind::try_from(kind)?, n);
    let work = work_sum(works, n) - n;
    Ok(2 * (moves + work))
}
