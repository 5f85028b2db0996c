// The tables of parents, of starts and of work lengths. specs/Tables.antt defines each. A table is refused by its length before any of its entries is
// looked at: a loop over entries runs only where there are n of them. The kind is a number, since `parents_reason` and `starts_reason` take any.
ghost use Rattle.std.specs.Prelude.{◌≡◌, ◌&&◌, ◌||◌, eqb, get_or, length};
ghost use Rattle.reason.specs.Checked.{checked};
ghost use Rattle.setup.specs.Tables as defs;

use kind::Kind;
use reason::{Reason, Refusal};

// Whether every entry of a table is `low` or more, and below the bound. A loop over all and no `all`, which ends at the first entry that isn't: so the compiler makes
// several tests at once, and `bound::limit` takes a fifth less time.
pub fn all_within(low: usize, bound: usize, table: &[u8]) -> bool
    ensures { result ≡ defs.all_within low bound table.now }
{
    let mut ok = true;
    for i in 0..table.len() {
        let x = table[i] as usize;
        ok = ok & ((low <= x) & (x < bound));
    }
    ok
}

// Whether a table is absent, or has n entries, each `low` or more and below the bound.
fn absent_or_within(n: usize, low: usize, bound: usize, table: &[u8]) -> bool
    ensures { result ≡ (eqb (length table.now) 0 || (eqb (length table.now) n && defs.all_within low bound table.now)) }
{
    table.is_empty() || (table.len() == n && all_within(low, bound, table))
}

// The reason that refuses the table of parents, if one does: 5 or 6.
pub fn parents_reason(kind: usize, n: usize, parents: &[u8]) -> Result<(), Refusal>
    ensures { result ≡ checked (defs.parents_reason kind n parents.now) }
{
    if kind == Kind::Tree.number() {
        return parents::check(parents, n);
    }
    if !parents.is_empty() {
        return Err(Reason::TableLength.into());
    }
    Ok(())
}

// The reason that refuses the table of starts, if one does: 12. Only the symmetric kind takes one.
pub fn starts_reason(kind: usize, n: usize, starts: &[u8]) -> Result<(), Refusal>
    ensures { result ≡ checked (defs.starts_reason kind n starts.now) }
{
    let taken = starts.is_empty() || kind == Kind::Symmetric.number();
    if !taken || !absent_or_within(n, 0, n, starts) {
        return Err(Reason::Starts.into());
    }
    Ok(())
}

// The reason that refuses the table of work lengths, if one does: 15. Every kind takes one.
pub fn works_reason(n: usize, works: &[u8]) -> Result<(), Refusal>
    ensures { result ≡ checked (defs.works_reason n works.now) }
{
    if !absent_or_within(n, 1, 256, works) {
        return Err(Reason::Works.into());
    }
    Ok(())
}

// The entry of a task; past the table the default.
fn entry_or(table: &[u8], q: usize, default: u8) -> u8
    ensures { result ≡ get_or table.now q default }
{
    table.get(q).copied().unwrap_or(default)
}

// The start of a task; 0 past the table.
pub fn start_of(starts: &[u8], q: usize) -> u8
    ensures { result ≡ defs.start_of starts.now q }
{
    entry_or(starts, q, 0)
}

// The work length of a task; 1 past the table.
pub fn work_of(works: &[u8], q: usize) -> u8
    ensures { result ≡ defs.work_of works.now q }
{
    entry_or(works, q, 1)
}
