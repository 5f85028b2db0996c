// Parent tables of the tree barrier: their check, the children of a task, and the four shapes. What each function answers is
// defined in specs/Parents.antt and specs/Shapes.antt.
#![tactic(auto)]

ghost use Rattle.std.specs.Prelude.{◌≡◌, ◌≤◌, ◌<◌, ◌++◌, MatchResult, eqb, ltb, length, drop};
ghost use Rattle.reason.specs.Checked.{checked};
ghost use Rattle.bitset.specs.Choice.{pick};
ghost use Rattle.parents.specs.Parents.{check_of, children_of};
ghost use Rattle.parents.specs.Shapes.{number_of, shape_parent, shape_table, shape_of, table_after};

use reason::{Reason, Refusal};

// Whether p may be the parent of task q: 0 for the root, a lower number for every other.
fn entry_ok(q: usize, p: usize) -> bool
    ensures { result ≡ pick (eqb q 0) (eqb p 0) (ltb p q) }
{
    if q == 0 { p == 0 } else { p < q }
}

// Checks a table for n tasks: its length (5), and each entry (6).
pub fn check(table: &[u8], n: usize) -> Result<(), Refusal>
    ensures { result ≡ checked (check_of table.now n) }
{
    if table.len() != n {
        return Err(Reason::TableLength.into());
    }
    for (q, p) in table.iter().enumerate() {
        if !entry_ok(q, *p as usize) {
            return Err(Reason::Parent.into());
        }
    }
    Ok(())
}

// The children of a task, as a set: the tasks but the root whose parent it is. One pass over the table. By index: in a loop over
// `enumerate().skip(1)`, which was tried, the proof has no index.
pub fn children(table: &[u8], task: usize) -> u64
    ensures { result ≡ children_of table.now task }
{
    let mut list: u64 = 0;
    for r in 1..table.len() {
        if table[r] as usize == task {
            list = bitset::with(list, r);
        }
    }
    list
}

// The shapes, in the order of their numbers, 0 to 3.
#[derive(Clone, Copy, Debug, PartialEq, Eq, Hash)]
pub enum TreeShape {
    Flat,
    Linear,
    Binary,
    LowPower,
}

impl TryFrom<usize> for TreeShape {
    type Error = Refusal;

    // 2 where there is no such shape.
    ghost try_from_gives = { λ n r. MatchResult r (λ s. number_of s ≡ n) (λ e. (e ≡ 2) × (3 < n)) };

    fn try_from(number: usize) -> Result<TreeShape, Refusal> {
        match number {
            0 => Ok(TreeShape::Flat),
            1 => Ok(TreeShape::Linear),
            2 => Ok(TreeShape::Binary),
            3 => Ok(TreeShape::LowPower),
            _ => Err(Reason::Kind.into()),
        }
    }
}

// The parent of task q in a shape; the root's is 0.
fn parent_in(shape: TreeShape, q: usize) -> usize
    ensures { result ≡ shape_parent (number_of shape) q }
{
    if q == 0 {
        return 0;
    }
    match shape {
        TreeShape::Flat => 0,
        TreeShape::Linear => q - 1,
        TreeShape::Binary => (q - 1) / 2,
        TreeShape::LowPower => bitset::without(q as u64, bitset::least(q as u64)) as usize,
    }
}

// Writes the parents of the tasks 0 to n - 1 to the first n bytes of the table. By index: after a loop over `iter_mut` nothing is known
// of the elements. The bound on n is a clause and no type, since this function alone asks it.
fn fill(shape: TreeShape, n: usize, table: &mut [u8])
    requires { (n ≤ 64) × (n ≤ length table.old) }
    ensures { table.new ≡ shape_table (number_of shape) n ++ drop n table.old }
{
    for q in 0..n {
        table[q] = parent_in(shape, q) as u8;
    }
}

// Writes a shape's table for n tasks to the first n bytes of the table; refused for the shape (2), n (3) and the room (10).
// The shape is a number, since `shape_of` refuses one that there is not.
#[tactic(auto, unfolding(crate::specs::Shapes::shape_of, crate::specs::Shapes::table_after))]
pub fn shape(shape: usize, n: usize, table: &mut [u8]) -> Result<(), Refusal>
    ensures result_value { result ≡ checked (shape_of shape n (length table.old)) }
    ensures table_after { table.new ≡ table_after shape n table.old }
{
    let shape = TreeShape::try_from(shape)?;
    if !bitset::is_count(n) {
        return Err(Reason::Count.into());
    }
    if table.len() < n {
        return Err(Reason::Room.into());
    }
    fill(shape, n, table);
    Ok(())
}
