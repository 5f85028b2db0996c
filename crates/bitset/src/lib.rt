// Sets of tasks 0 to 63 in a u64, a bit a task. Every function is total: a task of 64 or more is in no set, and putting it on
// changes nothing. What each answers is defined in specs/Set.antt; the laws are in specs/SetLaws.antt. A set is no struct round the u64,
// since the definitions of the other crates have numbers for sets, as the list of a `Task`.
#![tactic(auto)]

ghost use Rattle.std.specs.Prelude.{◌≡◌};
ghost use Rattle.bitset.specs.Tasks.{is_count};
ghost use Rattle.bitset.specs.Set.{member_of, least_of, first_from, without_of, with_of, all_of, within_of, size_of};

// Whether there can be n tasks: 1 to 64.
pub fn is_count(n: usize) -> bool
    ensures { result ≡ is_count n }
{
    (1..=64).contains(&n)
}

// Whether the task is in the set.
pub fn member(list: u64, task: usize) -> bool
    ensures { result ≡ member_of list task }
{
    if 64 <= task {
        return false;
    }
    (list >> task) % 2 == 1
}

// The least task of the set; 64 for the empty set, and no `Option`, since `least_of` is a number.
pub fn least(list: u64) -> usize
    ensures { result ≡ least_of list }
{
    u64::trailing_zeros(list) as usize
}

// The first task of the set at or above the start, going round to 0 after the last; 64 for the empty set. A start of 64 or more is taken by its
// remainder. No `Option`, since `first_from` is a number.
pub fn first(list: u64, start: usize) -> usize
    ensures { result ≡ first_from list start }
{
    let above = list & (!0u64 << (start % 64));
    if above == 0 {
        least(list)
    } else {
        least(above)
    }
}

// The set with the task taken off.
pub fn without(list: u64, task: usize) -> u64
    ensures { result ≡ without_of list task }
{
    if 64 <= task {
        return list;
    }
    list & !(1u64 << task)
}

// The set with the task put on, if it is a task of 0 to 63.
pub fn with(list: u64, task: usize) -> u64
    ensures { result ≡ with_of list task }
{
    if 64 <= task {
        return list;
    }
    list | (1u64 << task)
}

// The first n tasks, 64 at most.
pub fn all(n: usize) -> u64
    ensures { result ≡ all_of n }
{
    if 64 <= n {
        return !0u64;
    }
    (1u64 << n) - 1
}

// Whether every task of the set is in the other one.
pub fn within(list: u64, other: u64) -> bool
    ensures { result ≡ within_of list other }
{
    list & other == list
}

// How many tasks are in the set.
pub fn size(list: u64) -> usize
    ensures { result ≡ size_of list }
{
    u64::count_ones(list) as usize
}
