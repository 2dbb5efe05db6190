//! The values of a list by their order: the greatest, the least and the one in the middle.
ghost use Rattle.std.specs.Prelude.{◌≡◌, IsPermutation};
ghost use Rattle.map_nums.specs.Stats.{maximum_of, minimum_of, median_of};

use crate::Value;

/// The greatest value.
pub(crate) fn maximum(values: &[Value]) -> Option<Value>
    ensures { result ≡ maximum_of values.now }
{
    values.iter().copied().max()
}

/// The least value.
pub(crate) fn minimum(values: &[Value]) -> Option<Value>
    ensures { result ≡ minimum_of values.now }
{
    values.iter().copied().min()
}

/// The value at the lower middle of the ascending order, into which the values are brought.
pub(crate) fn median(values: &mut [Value]) -> Option<Value>
    ensures median { result ≡ median_of values.old }
    ensures order { IsPermutation values.old values.new }
{
    if values.is_empty() {
        return None;
    }
    values.sort_unstable();
    Some(values[(values.len() - 1) / 2])
}
