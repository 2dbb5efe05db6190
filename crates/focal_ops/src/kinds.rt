//! The statistics of a short list of numbers by how often each occurs, with no sort.
ghost use Rattle.std.specs.Prelude.{◌≡◌, ◌≢◌, ℕ, pos, ◌+◌, ◌*◌, ◌<◌, ◌≤◌, Some, length, slice_index, slice_index_or};
ghost use Rattle.map_nums.specs.Exact.{IsExact};
ghost use Rattle.map_nums.specs.Stats.{statistic_of};
ghost use Rattle.map_nums.specs.declared.Stat.TheVariants.{Variety};
ghost use Rattle.focal_ops.specs.Kinds.{AreKinds, HaveSlots, IsKey, by_counts, slot_at};

use layer_tiles::Value;
use map_nums::{Stat, Wide, exact, statistic_in};

/// The most numbers of a short list.
const MOST: usize = 64;

/// What stands in a slot that no number has taken.
const FREE: u8 = 255;

/// By how much a key grows from one rank to the next.
const RANK: u128 = 18_446_744_073_709_551_616;

/// The negative of the least number of 64 bits.
const SHIFT: i128 = 9_223_372_036_854_775_808;

/// Different numbers, and how often each occurs.
#[derive(Drop)]
pub(crate) struct Kinds {
    pub(crate) values: [Value; 64],
    pub(crate) counts: [u32; 64],
}

impl Kinds {
    pub(crate) fn new() -> Self {
        Kinds {
            values: [0; 64],
            counts: [0; 64],
        }
    }
}

/// A statistic of the numbers, none of an empty list. Where they are many, or their order matters, they are sorted in place.
///
/// # Errors
///
/// `Wide` exactly where no cell may hold the statistic.
pub(crate) fn statistic_by_kinds(
    stat: Stat,
    numbers: &mut [Value],
    kinds: &mut Kinds,
) -> Result<Option<Value>, Wide>
    ensures { IsExact (statistic_of stat numbers.old) result }
{
    if numbers.len() > MOST {
        return statistic_in(stat, numbers);
    }
    match stat {
        Stat::Majority => leader_of(false, numbers, kinds),
        Stat::Minority => leader_of(true, numbers, kinds),
        Stat::Variety => variety_of(numbers, kinds),
        _ => statistic_in(stat, numbers),
    }
}

/// The number that occurs most often, or least often; the least of such.
fn leader_of(least: bool, numbers: &[Value], kinds: &mut Kinds) -> Result<Option<Value>, Wide>
    requires { length numbers.now ≤ 64 }
    ensures { IsExact (statistic_of (by_counts least) numbers.now) result }
{
    let count = count_kinds(numbers, kinds);
    if count == 0 {
        return Ok(None);
    }
    let key = least_key(least, kinds, count);
    exact((key % RANK) as i128 - SHIFT)
}

/// How many different numbers there are.
fn variety_of(numbers: &[Value], kinds: &mut Kinds) -> Result<Option<Value>, Wide>
    requires { length numbers.now ≤ 64 }
    ensures { IsExact (statistic_of Variety numbers.now) result }
{
    let count = count_kinds(numbers, kinds);
    if count == 0 {
        return Ok(None);
    }
    exact(count as i128)
}

/// Puts the different numbers and how often each occurs to the front of `kinds`, and says how many there are.
fn count_kinds(numbers: &[Value], kinds: &mut Kinds) -> usize
    requires { length numbers.now ≤ 64 }
    ensures { AreKinds numbers.now (length numbers.now) kinds.new.values kinds.new.counts result }
{
    let mut slots = [FREE; 512];
    let mut count = 0;
    for i in 0..numbers.len() {
        count = count_at(numbers, i, &mut slots, kinds, count);
    }
    count
}

/// Counts the number at `i`, after the first `count` kinds.
fn count_at(
    numbers: &[Value],
    i: usize,
    slots: &mut [u8; 512],
    kinds: &mut Kinds,
    count: usize,
) -> usize
    requires here { i < length numbers.now }
    requires short { length numbers.now ≤ 64 }
    requires kinds { AreKinds numbers.now i kinds.old.values kinds.old.counts count }
    requires slots { HaveSlots slots.old kinds.old.values count }
    ensures kinds { AreKinds numbers.now (i + 1) kinds.new.values kinds.new.counts result }
    ensures slots { HaveSlots slots.new kinds.new.values result }
{
    let number = numbers[i];
    let k = kind_of(number, slots, kinds, count);
    if k < count {
        kinds.counts[k] += 1;
        return count;
    }
    kinds.values[count] = number;
    kinds.counts[count] = 1;
    slots[slot_of(number)] = count as u8;
    count + 1
}

/// Which of the first `count` kinds a number is, or `count`.
fn kind_of(number: Value, slots: &[u8; 512], kinds: &Kinds, count: usize) -> usize
    requires few { count ≤ 64 }
    requires slots { HaveSlots slots.now kinds.now.values count }
    ensures within { result ≤ count }
    ensures found { result < count → slice_index_or kinds.now.values result (pos 0) ≡ number }
    ensures absent { result ≡ count → (k : ℕ) → k < count → slice_index_or kinds.now.values k (pos 0) ≢ number }
{
    let slot = slots[slot_of(number)];
    if slot == FREE {
        return count;
    }
    let k = slot as usize;
    if k < count && kinds.values[k] == number {
        return k;
    }
    place_of(number, &kinds.values[..count])
}

/// The slot of a number.
fn slot_of(number: Value) -> usize
    ensures slot { result ≡ slot_at number }
    ensures within { result < 512 }
{
    (number.unsigned_abs() % 512) as usize
}

/// The first place of a number, or the list's length.
fn place_of(number: Value, values: &[Value]) -> usize
    ensures within { result ≤ length values.now }
    ensures before { (k : ℕ) → k < result → slice_index_or values.now k (pos 0) ≢ number }
    ensures found { result < length values.now → slice_index_or values.now result (pos 0) ≡ number }
{
    for (k, value) in values.iter().enumerate() {
        if *value == number {
            return k;
        }
    }
    values.len()
}

/// The least key of the first `count` kinds.
fn least_key(least: bool, kinds: &Kinds, count: usize) -> u128
    requires some { 0 < count }
    requires few { count ≤ 64 }
    requires counts { (k : ℕ) → k < count → slice_index kinds.now.counts k ≤ 64 }
    ensures first { (k : ℕ) → k < count → (key : ℕ) × IsKey least (slice_index_or kinds.now.values k (pos 0)) (slice_index kinds.now.counts k) key × (result ≤ key) }
    ensures reached { (k : ℕ) × (k < count) × IsKey least (slice_index_or kinds.now.values k (pos 0)) (slice_index kinds.now.counts k) result }
{
    let mut best = key_of(least, kinds.values[0], kinds.counts[0]);
    for k in 1..count {
        best = best.min(key_of(least, kinds.values[k], kinds.counts[k]));
    }
    best
}

/// The key of a number that occurs so many times.
fn key_of(least: bool, value: Value, times: u32) -> u128
    requires { times ≤ 64 }
    ensures { IsKey least value times result }
{
    let rank = if least { times } else { 64 - times };
    rank as u128 * RANK + (value as i128 + SHIFT) as u128
}
