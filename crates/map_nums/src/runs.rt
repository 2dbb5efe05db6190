//! The values of a list by how often they occur, over the runs of equal values in ascending order.
ghost use Rattle.std.specs.Prelude.{◌≡◌, ◌↔◌, ◌<◌, length, IsPermutation, IsSorted, IsTrue};
ghost use Rattle.std.specs.Ordering.{int_cmp};
ghost use Rattle.map_nums.specs.Leaders.{prefers, leader_of, better_run, IsSameAsNext};
ghost use Rattle.map_nums.specs.Stats.{majority_of, minority_of, variety_of};

use crate::Value;

/// Which number of occurrences leads.
#[derive(Clone, Copy)]
enum Wanted {
    Most,
    Least,
}

impl Wanted {
    /// Whether so many occurrences lead the other number of them.
    fn prefers(self, count: usize, other: usize) -> bool
        ensures { result ≡ prefers self count other }
    {
        match self {
            Wanted::Most => count > other,
            Wanted::Least => count < other,
        }
    }
}

/// A value and how often it occurs.
#[derive(Clone, Copy)]
struct Run {
    value: Value,
    count: usize,
}

/// The value that occurs most often, the least of such. The values are brought into ascending order.
pub(crate) fn majority(values: &mut [Value]) -> Option<Value>
    ensures majority { result ≡ majority_of values.old }
    ensures order { IsPermutation values.old values.new }
{
    values.sort_unstable();
    leader(values, Wanted::Most)
}

/// The value that occurs least often, the least of such. The values are brought into ascending order.
pub(crate) fn minority(values: &mut [Value]) -> Option<Value>
    ensures minority { result ≡ minority_of values.old }
    ensures order { IsPermutation values.old values.new }
{
    values.sort_unstable();
    leader(values, Wanted::Least)
}

/// How many different values there are. They are brought into ascending order.
pub(crate) fn variety(values: &mut [Value]) -> usize
    ensures variety { result ≡ variety_of values.old }
    ensures order { IsPermutation values.old values.new }
{
    values.sort_unstable();
    run_count(values)
}

/// The value whose run leads, the least of such.
fn leader(sorted: &[Value], wanted: Wanted) -> Option<Value>
    requires { IsSorted int_cmp sorted.now }
    ensures { result ≡ leader_of wanted sorted.now }
{
    let mut best: Option<Run> = None;
    let mut count = 0;
    for (i, value) in sorted.iter().enumerate() {
        count += 1;
        if goes_on(sorted, i) {
            continue;
        }
        let run = Run {
            value: *value,
            count,
        };
        best = better(wanted, best, run);
        count = 0;
    }
    best.map(|run| run.value)
}

/// The new run where it leads the best one so far.
fn better(wanted: Wanted, best: Option<Run>, run: Run) -> Option<Run>
    ensures { result ≡ better_run wanted best run }
{
    match best {
        Some(old) if !wanted.prefers(run.count, old.count) => Some(old),
        _ => Some(run),
    }
}

/// How many runs there are.
fn run_count(sorted: &[Value]) -> usize
    requires { IsSorted int_cmp sorted.now }
    ensures { result ≡ variety_of sorted.now }
{
    let mut count = 0;
    for i in 0..sorted.len() {
        if !goes_on(sorted, i) {
            count += 1;
        }
    }
    count
}

/// Whether the next value is the same.
fn goes_on(sorted: &[Value], i: usize) -> bool
    requires { i < length sorted.now }
    ensures { IsTrue result ↔ IsSameAsNext sorted.now i }
{
    i + 1 < sorted.len() && sorted[i + 1] == sorted[i]
}
