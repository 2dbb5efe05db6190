//! An edit that leaves the plan is put in place, without memory.

ghost use Rattle.std.specs.Prelude.{◌≡◌};
ghost use Rattle.live_engine.specs.Settles.{CanSettle, IsSettled};

use kept_map::{KeptMap, Prepared};
use map_waves::renew_all;

/// Puts what was made of the statements in place, each where it is kept, and counts the edit.
pub(crate) fn settle(map: &mut KeptMap, mut prepared: Prepared)
    requires { CanSettle map.old prepared }
    ensures { IsSettled map.old map.new prepared }
{
    let number = map.number.saturating_add(1);
    renew_all(
        map.kept.as_mut_slice(),
        prepared.made.as_mut_slice(),
        map.extent,
        number,
    );
    map.number = number;
}
