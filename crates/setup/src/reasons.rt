// The reasons that refuse a setup. specs/Reasons.antt defines each, by number, where 0 is none. A table is looked at only where what comes before it
// is accepted. The kind is a number, since these refuse one that there is not; it, n and R are given one by one, as `setup_reason` takes them.
ghost use Rattle.std.specs.Prelude.{◌≡◌};
ghost use Rattle.reason.specs.Checked.{checked};
ghost use Rattle.setup.specs.Reasons as defs;

use crate::{kinds, tables};
use kind::Kind;
use reason::{Reason, Refusal};

// The reason that refuses the kind or the number of tasks, if one does: 2 or 3.
pub fn count_reason(kind: usize, n: usize) -> Result<(), Refusal>
    ensures { result ≡ checked (defs.count_reason kind n) }
{
    Kind::try_from(kind)?;
    if !bitset::is_count(n) {
        return Err(Reason::Count.into());
    }
    Ok(())
}

// The first reason that refuses a setup without starts and work lengths, if one does: 2, 3, 4, 5 or 6.
#[tactic(auto, unfolding(crate::specs::Reasons::setup_reason))]
pub fn setup_reason(kind: usize, n: usize, modulus: usize, parents: &[u8]) -> Result<(), Refusal>
    ensures { result ≡ checked (defs.setup_reason kind n modulus parents.now) }
{
    count_reason(kind, n)?;
    if !kinds::modulus_ok(kind, modulus) {
        return Err(Reason::Modulus.into());
    }
    tables::parents_reason(kind, n, parents)
}

// The first reason that refuses a kind, a number of tasks and their work lengths, where nothing else is given, if one does: 2, 3 or 15.
#[tactic(auto, unfolding(crate::specs::Reasons::limit_reason))]
pub fn limit_reason(kind: usize, n: usize, works: &[u8]) -> Result<(), Refusal>
    ensures { result ≡ checked (defs.limit_reason kind n works.now) }
{
    count_reason(kind, n)?;
    tables::works_reason(n, works)
}
