//! Nearest sources, and the least costs beside them, repaired whole.
ghost use Rattle.std.specs.Prelude.{◌≡◌, ◌*◌, ◌∷◌, [], length, IfOk};
ghost use Rattle.std.specs.Option.{option_copied};
ghost use Rattle.map_defs.specs.Ops.{Term, nearest_op};
ghost use Rattle.layer_tiles.specs.Tallies.{RisesBy};
ghost use Rattle.tile_work.specs.Working.{before_of};
ghost use Rattle.friction_neighbor.specs.Results.{costs_of, values_of};
ghost use Rattle.map_waves.specs.Keeping.{kept_now};
ghost use Rattle.map_waves.specs.Statements.{damage_by, work_by};
ghost use Rattle.op_jobs.specs.Beside.{costs_in, costs_aside, layer_in};
ghost use Rattle.op_jobs.specs.Nearest.{HasCosts, AreHanded, CanTake, costs_made, IsNearestMade};
ghost use Rattle.op_jobs.specs.Pieces.{IsWholeRepaired};

use crate::beside::Beside;
use damage_sets::{TileSet, count_any};
use friction_neighbor::{Nearest, NearestRepair, neighbor_repair};
use layer_tiles::{Change, Layer, Patch, Tally, Value};
use map_nums::NoMemory;
use map_waves::{Aside, Kept, Made, Renewal};
use std::alloc::Global;

/// The stamps of what stands beside a layer are asked by no one.
pub(crate) const NO_STAMP: u64 = 0;

/// Both layers that are kept, where they are.
pub(crate) fn nearest_of(kept: Option<&Kept<Beside>>) -> Option<Nearest<'_>>
    requires { HasCosts (kept_now kept) }
    ensures costs { costs_of result ≡ costs_in (kept_now kept.entry) }
    ensures values { values_of result ≡ layer_in (kept_now kept.entry) }
{
    let Some(kept) = kept else {
        return None;
    };
    match &kept.beside {
        Aside::Layer(cost) => Some(Nearest {
            cost,
            value: &kept.layer,
        }),
        Aside::Other(_) => None,
    }
}

/// The old costs, where there are any.
fn costs_before<'a>(old: &Option<Nearest<'a>>) -> Option<&'a Layer>
    ensures { option_copied result ≡ costs_of old.now }
{
    match old {
        Some(layers) => Some(layers.cost),
        None => None,
    }
}

/// What the tiles of the costs that changed make of those that stand beside the layer; all tiles are new where there are none.
fn costs_made(old: Option<&Layer>, patch: Patch) -> Renewal<Beside>
    requires { CanTake (option_copied old) patch }
    ensures { result ≡ costs_made (option_copied old.entry) patch }
{
    match old {
        Some(_) => Renewal::Patched(patch),
        None => Renewal::Anew(Aside::Layer(Layer::fresh(patch, NO_STAMP))),
    }
}

/// What is made of the tiles that changed.
fn made_nearest(old: Option<&Layer>, touched: &TileSet, repair: NearestRepair) -> Made<Beside>
    requires size { touched.now.size ≡ repair.value.size }
    requires cost { touched.now.size ≡ repair.cost.size }
    requires old { CanTake (option_copied old) repair.cost }
    ensures { IsNearestMade touched.now (option_copied old.entry) repair result }
{
    let evaluated = count_any(touched, &repair.value, Some(&repair.cost));
    Made {
        patch: repair.value,
        beside: costs_made(old, repair.cost),
        evaluated,
        worked: repair.worked,
    }
}

/// Repairs the numbers of the nearest sources, and the least costs that stand beside them. `touched` are the tiles in which an
/// operand changed, all of them where nothing is kept.
///
/// # Errors
///
/// `NoMemory` alone: no number and no cost is out of range.
pub(crate) fn repair_nearest<M: Tally>(
    alloc: Global,
    old: Option<Nearest<'_>>,
    touched: &TileSet,
    sources: &Change<'_>,
    friction: &Change<'_>,
    limit: u64,
    tally: &mut M,
) -> Result<Made<Beside>, NoMemory>
    requires { AreHanded sources.now friction.now limit old touched.now }
    ensures made { IfOk result (λ m. (t u : Term) → IsWholeRepaired sources.now.size (nearest_op limit t u) (before_of (values_of old.entry)) (costs_aside (costs_of old.entry)) (sources.now ∷ friction.now ∷ []) m) }
    ensures tally { (t u : Term) → RisesBy (32 * length (damage_by sources.now.size (nearest_op limit t u) (before_of (values_of old.entry)) (sources.now ∷ friction.now ∷ []))) (1000 * work_by sources.now.size (nearest_op limit t u) (before_of (values_of old.entry)) (sources.now ∷ friction.now ∷ [])) (M.counts tally.old) (M.counts tally.new) }
{
    let _sources = sources.extent();
    let _friction = friction.extent();
    let costs = costs_before(&old);
    let repair = neighbor_repair(alloc, old, sources, friction, limit as Value, tally)?;
    let _cost = repair.cost.extent();
    let _value = repair.value.extent();
    Ok(made_nearest(costs, touched, repair))
}
