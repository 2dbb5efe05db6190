//! The sums of a reply.
ghost use Rattle.std.specs.Prelude.{◌≡◌, ◌^◌, ◌<◌, ◌+◌, length};
ghost use Rattle.map_waves.specs.Plans.{changed_to, evaluated_to, worked_to};
ghost use Rattle.map_waves.specs.Bases.{plan_of};
ghost use Rattle.map_waves.specs.Prepared.{ArePrepared, changed_in, evaluated_in, worked_in};

use crate::jobs::Maker;
use crate::keeping::Made;
use crate::plans::{Base, Step};

/// Tiles that changed and tiles that were damaged, and the work, of all statements.
#[derive(Clone, Copy, Debug, PartialEq, Eq)]
pub struct Counts {
    pub changed: u64,
    pub evaluated: u64,
    pub worked: u64,
}

/// The sums with those of one statement more.
fn with<B>(counts: Counts, one: &Option<Made<B>>) -> Counts
    requires changed { counts.changed < 2 ^ 63 }
    requires evaluated { counts.evaluated < 2 ^ 63 }
    requires worked { counts.worked + worked_in one.now < 2 ^ 64 }
    ensures changed { result.changed ≡ counts.changed + changed_in one.now }
    ensures evaluated { result.evaluated ≡ counts.evaluated + evaluated_in one.now }
    ensures worked { result.worked ≡ counts.worked + worked_in one.now }
    ensures few_changed { changed_in one.now < 2 ^ 32 }
    ensures few_evaluated { evaluated_in one.now < 2 ^ 32 }
{
    match one {
        None => counts,
        Some(made) => {
            let changed = made.patch.len();
            let evaluated = made.evaluated;
            Counts {
                changed: counts.changed + u64::from(changed),
                evaluated: counts.evaluated + u64::from(evaluated),
                worked: counts.worked + made.worked,
            }
        }
    }
}

/// The sums over all statements, each of which is prepared.
pub fn count_all<K: Maker>(
    base: &Base<'_, K::Beside>,
    steps: &[Step<K::Op>],
    prepared: &[Option<Made<K::Beside>>],
) -> Counts
    requires all { length prepared.now ≡ length steps.now }
    requires few { length steps.now < 2 ^ 31 }
    requires prepared { ArePrepared K.means K.suits base.now steps.now 0 prepared.now }
    ensures changed { result.changed ≡ changed_to (plan_of K.means base.now steps.now) (length steps.now) }
    ensures evaluated { result.evaluated ≡ evaluated_to (plan_of K.means base.now steps.now) (length steps.now) }
    ensures worked { result.worked ≡ worked_to (plan_of K.means base.now steps.now) (length steps.now) }
{
    let mut counts = Counts {
        changed: 0,
        evaluated: 0,
        worked: 0,
    };
    for one in prepared {
        counts = with(counts, one);
    }
    counts
}
