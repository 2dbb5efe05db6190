//! Statements that an edit leaves as they were.
ghost use Rattle.std.specs.Prelude.{◌≡◌, ◌≢◌, ℕ, ◌≤◌, length, map, Some, None, true, false, [], Option};
ghost use Rattle.std.specs.List.{All};
ghost use Rattle.map_waves.specs.Plans.{operand_in, changes_to};
ghost use Rattle.map_waves.specs.Bases.{source_in, IsRef, plan_of};
ghost use Rattle.map_waves.specs.Prepared.{shown, ArePrepared};
ghost use Rattle.map_waves.specs.declared.keeping.Kept.{Kept};
ghost use Rattle.map_nums.specs.Grids.{Size};

use crate::jobs::Maker;
use crate::keeping::Made;
use crate::plans::{Base, Ref, Shift, Step};

/// Whether a source gets a tile.
fn is_painted<B>(base: &Base<'_, B>, place: usize) -> bool
    ensures { result ≡ false → (source_in base.now place).touched ≡ [] }
{
    match base.shift {
        Shift::Painted(own, patch) => own == place && patch.len() > 0,
        _ => false,
    }
}

/// Whether a statement that is prepared has a tile that changed.
fn has_tiles<B>(prepared: &Option<Made<B>>) -> bool
    ensures { result ≡ false → (s : Size) (own : Option (Kept B)) → (shown s own prepared.now).touched ≡ [] }
{
    match prepared {
        None => false,
        Some(made) => made.patch.len() > 0,
    }
}

/// Whether an operand has a tile that changed. The statements before it are prepared.
fn has_changed<K: Maker>(
    base: &Base<'_, K::Beside>,
    steps: &[Step<K::Op>],
    prepared: &[Option<Made<K::Beside>>],
    place: Ref,
) -> bool
    requires prepared { ArePrepared K.means K.suits base.now steps.now 0 prepared.now }
    requires few { length prepared.now ≤ length steps.now }
    requires within { IsRef base.now (length prepared.now) place }
    ensures { result ≡ false → (k : ℕ) → length prepared.now ≤ k → (operand_in (plan_of K.means base.now steps.now) (changes_to (plan_of K.means base.now steps.now) k) place).touched ≡ [] }
{
    match place {
        Ref::Source(own) => is_painted(base, own),
        Ref::Statement(own) => has_tiles(&prepared[own]),
        Ref::Number(_) => false,
    }
}

/// Whether a statement was there, the edit didn't write it, and none of its operands has a tile that changed. No cell is read.
pub(crate) fn stays<K: Maker>(
    base: &Base<'_, K::Beside>,
    steps: &[Step<K::Op>],
    prepared: &[Option<Made<K::Beside>>],
    step: &Step<K::Op>,
) -> bool
    requires prepared { ArePrepared K.means K.suits base.now steps.now 0 prepared.now }
    requires few { length prepared.now ≤ length steps.now }
    requires within { All (IsRef base.now (length prepared.now)) step.now.refs.items }
    ensures left { result ≡ true → step.now.written ≡ false }
    ensures there { result ≡ true → step.now.kept ≢ None }
    ensures same { result ≡ true → (k : ℕ) → length prepared.now ≤ k → All (λ c. c.touched ≡ []) (map (operand_in (plan_of K.means base.now steps.now) (changes_to (plan_of K.means base.now steps.now) k)) step.now.refs.items) }
{
    if step.written || step.kept.is_none() {
        return false;
    }
    for place in &step.refs {
        if has_changed::<K>(base, steps, prepared, *place) {
            return false;
        }
    }
    true
}
