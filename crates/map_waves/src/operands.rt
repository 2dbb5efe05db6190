//! The operands of a statement, before and after an edit.
ghost use Rattle.std.specs.Prelude.{◌≡◌, ◌≢◌, ℕ, ◌+◌, ◌<◌, ◌≤◌, length, map, slice_get, Some, None, true, false, []};
ghost use Rattle.std.specs.List.{All};
ghost use Rattle.map_waves.specs.Plans.{operand_in, changes_to};
ghost use Rattle.map_waves.specs.Keeping.{kept_now};
ghost use Rattle.map_waves.specs.Bases.{source_in, new_sources, IsBase, IsRef, kept_by, plan_of};
ghost use Rattle.map_waves.specs.Prepared.{shown, IsReady, ArePrepared};

use crate::jobs::Maker;
use crate::keeping::{Kept, Made};
use crate::plans::{Base, Ref, Shift, Step};
use layer_tiles::{Change, Layer, Operands};

/// The layer of a source.
fn held_source<'a, B>(base: &Base<'a, B>, place: usize, layer: &'a Layer) -> Change<'a>
    requires base { IsBase base.now }
    requires layer { slice_get base.now.sources.now place ≡ Some layer.now }
    ensures { result ≡ source_in base.now place }
{
    match base.shift {
        Shift::Nothing => Change::same(layer),
        Shift::Painted(own, patch) => {
            if own == place {
                Change::patched(layer, patch)
            } else {
                Change::same(layer)
            }
        }
        Shift::Loaded(_) => Change::same(layer),
    }
}

/// The source at a place.
fn source_change<'a, B>(base: &Base<'a, B>, place: usize) -> Change<'a>
    requires base { IsBase base.now }
    requires there { place < length base.now.sources.now + new_sources base.now.shift }
    ensures { result ≡ source_in base.now place }
{
    match base.sources.get(place) {
        Some(layer) => held_source(base, place, layer),
        None => match base.shift {
            Shift::Loaded(layer) => Change::same(layer),
            _ => unreachable!(),
        },
    }
}

/// What is kept of a statement.
pub(crate) fn kept_of<'a, B>(base: &Base<'a, B>, kept: Option<usize>) -> Option<&'a Kept<B>>
    ensures { kept_now result ≡ kept_by base.now kept }
{
    match kept {
        None => None,
        Some(place) => base.kept.get(place),
    }
}

/// The change of a statement that is prepared.
fn step_change<'a, B>(
    base: &Base<'a, B>,
    kept: Option<usize>,
    prepared: &'a Option<Made<B>>,
) -> Change<'a>
    requires { IsReady base.now.extent (kept_by base.now kept) prepared.now }
    ensures { result ≡ shown base.now.extent (kept_by base.now kept) prepared.now }
{
    match kept_of(base, kept) {
        None => match prepared {
            None => unreachable!(),
            Some(made) => Change::fresh(&made.patch),
        },
        Some(own) => match prepared {
            None => Change::same(&own.layer),
            Some(made) => Change::patched(&own.layer, &made.patch),
        },
    }
}

/// An operand. The statements before it are prepared.
fn operand_of<'a, K: Maker>(
    base: &Base<'a, K::Beside>,
    steps: &[Step<K::Op>],
    prepared: &'a [Option<Made<K::Beside>>],
    place: Ref,
) -> Change<'a>
    requires base { IsBase base.now }
    requires prepared { ArePrepared K.means K.suits base.now steps.now 0 prepared.now }
    requires few { length prepared.now ≤ length steps.now }
    requires within { IsRef base.now (length prepared.now) place }
    ensures { (k : ℕ) → length prepared.now ≤ k → result ≡ operand_in (plan_of K.means base.now steps.now) (changes_to (plan_of K.means base.now steps.now) k) place }
{
    match place {
        Ref::Source(own) => source_change(base, own),
        Ref::Statement(own) => step_change(base, steps[own].kept, &prepared[own]),
        Ref::Number(cell) => Change::constant(base.extent, cell),
    }
}

/// The operands of a statement. The statements before them are prepared.
pub(crate) fn operands_of<'a, K: Maker>(
    base: &Base<'a, K::Beside>,
    steps: &[Step<K::Op>],
    prepared: &'a [Option<Made<K::Beside>>],
    step: &Step<K::Op>,
) -> Operands<'a>
    requires base { IsBase base.now }
    requires prepared { ArePrepared K.means K.suits base.now steps.now 0 prepared.now }
    requires few { length prepared.now ≤ length steps.now }
    requires within { All (IsRef base.now (length prepared.now)) step.now.refs.items }
    requires count { length step.now.refs.items ≤ 8 }
    ensures { (k : ℕ) → length prepared.now ≤ k → result ≡ map (operand_in (plan_of K.means base.now steps.now) (changes_to (plan_of K.means base.now steps.now) k)) step.now.refs.items }
{
    let mut operands = Operands::new();
    for place in &step.refs {
        operands.push(operand_of::<K>(base, steps, prepared, *place));
    }
    operands
}
