//! Region labels put right after a change.
ghost use Rattle.std.specs.Prelude.{◌≡◌, ◌<◌, ◌≤◌, ◌+◌, ◌-◌, ◌*◌, ◌∷◌, length, OnOk, OnErr, IfOk, Some, None, ℕ, [], slice_index_or, filter, min};
ghost use Rattle.std.specs.List.{All};
ghost use Rattle.std.specs.Option.{option_copied};
ghost use Rattle.map_nums.specs.Grids.{Cells, cells_in, places};
ghost use Rattle.map_defs.specs.Regions.{AreRegions};
ghost use Rattle.layer_tiles.specs.Tallies.{KeepsParts, RisesBy};
ghost use Rattle.layer_tiles.specs.Changes.{cells_before};
ghost use Rattle.layer_tiles.specs.Patches.{patched, HoldsAll};
ghost use Rattle.tile_work.specs.Working.{IsSameWork, before_of, base_of, copies};
ghost use Rattle.map_defs.specs.Damage.{op_damage};
ghost use Rattle.map_defs.specs.Differences.{differs, tile_has};
ghost use Rattle.map_nums.specs.Tiles.{tiles};
ghost use Rattle.layer_tiles.specs.Tiles.{tiles_in};
ghost use Rattle.layer_tiles.specs.ChangeFacts.{HoldsNoUnchanged};
ghost use Rattle.map_defs.specs.Work.{is_touched, first_work, op_work};
ghost use Rattle.map_defs.specs.Ops.{Term, region_op};
ghost use Rattle.region_labels.specs.Touched.{IsMarkedFor, IsTouchedBy};
ghost use Rattle.region_labels.specs.Flood.{marks_in};
ghost use Rattle.region_labels.specs.Copies.{IsCopiedAt, IsCopiedWith, CopiesWith};
ghost use Rattle.region_labels.specs.Repairs.{IsClearedAt, IsCleared, IsLabelStep, AreHandledRound, HoldsChanged, HoldsExactly, IsPickedBy, IsLookedBy, IsBaseFor, IsPatchFor};

use crate::cuts::patch_of;
use crate::first::labels_of;
use crate::floods::Flood;
use crate::labels::label_round;
use changed_cells::changed_places;
use flat_cells::cells_of;
use layer_tiles::{Cell, Change, Layer, NoMemory, Patch, Tally};
use std::alloc::Global;
use tile_work::Working;

/// Takes the label from a place that has no number any more.
fn clear_label<M: Tally>(
    of: &Change<'_>,
    at: u32,
    labels: &mut Working<'_>,
    tally: &mut M,
) -> Result<(), NoMemory>
    requires within { at < cells_in of.now.size }
    requires size { labels.old.size ≡ of.now.size }
    ensures same { IsSameWork labels.old labels.new }
    ensures ok { OnOk result (IsClearedAt of.now.cells at labels.old.cells labels.new.cells) }
    ensures more { copies labels.old.copied ≤ copies labels.new.copied }
    ensures picks { OnOk result (RisesBy (copies labels.new.copied - copies labels.old.copied) 2 (M.counts tally.old) (M.counts tally.new)) }
    ensures copied { IsCopiedAt of.now.size of.now.cells at labels.old.cells labels.old.copied labels.new.copied }
    ensures wanted { OnErr result (RisesBy (copies labels.new.copied - copies labels.old.copied + 1) 2 (M.counts tally.old) (M.counts tally.new)) }
{
    if of.cell(at, tally).get().is_some() {
        return Ok(());
    }
    labels.put(at, Cell::null(), tally)
}

/// Takes the labels from the places that have no number any more.
fn clear_labels<M: Tally>(
    of: &Change<'_>,
    changed: &[u32],
    labels: &mut Working<'_>,
    tally: &mut M,
) -> Result<(), NoMemory>
    requires within { All (λ at. at < cells_in of.now.size) changed.now }
    requires size { labels.old.size ≡ of.now.size }
    ensures same { IsSameWork labels.old labels.new }
    ensures ok { OnOk result (IsCleared of.now.cells changed.now labels.old.cells labels.new.cells) }
    ensures more { copies labels.old.copied ≤ copies labels.new.copied }
    ensures picks { OnOk result (RisesBy (copies labels.new.copied - copies labels.old.copied) (2 * length changed.now) (M.counts tally.old) (M.counts tally.new)) }
    ensures copied { IsCopiedWith of.now.size of.now.cells labels.old.cells labels.old.copied labels.new.copied }
    ensures wanted { OnErr result (RisesBy (copies labels.new.copied - copies labels.old.copied + 1) (2 * length changed.now) (M.counts tally.old) (M.counts tally.new)) }
    ensures some { OnErr result (0 < length changed.now) }
{
    for at in changed {
        clear_label(of, *at, labels, tally)?;
    }
    Ok(())
}

/// Labels the regions that hold one of some places or have one for a neighbour.
fn label_rounds<M: Tally>(
    of: &Change<'_>,
    changed: &[u32],
    flood: &mut Flood,
    labels: &mut Working<'_>,
    tally: &mut M,
) -> Result<(), NoMemory>
    requires within { All (λ at. at < cells_in of.now.size) changed.now }
    requires extent { flood.old.size ≡ of.now.size }
    requires marks { length flood.old.marks ≡ cells_in of.now.size }
    requires size { labels.old.size ≡ of.now.size }
    ensures same { IsSameWork labels.old labels.new }
    ensures extent { flood.new.size ≡ flood.old.size }
    ensures ok { OnOk result (IsLabelStep of.now.size of.now.cells labels.old.cells flood.old.marks labels.new.cells flood.new.marks) }
    ensures handled { OnOk result ((k : ℕ) → k < length changed.now → AreHandledRound of.now.size of.now.cells flood.new.marks (slice_index_or changed.now k 0)) }
    ensures caused { IsMarkedFor (IsTouchedBy of.now.size of.now.cells changed.now) flood.old.marks flood.new.marks }
    ensures grows { marks_in flood.old.marks ≤ marks_in flood.new.marks }
    ensures copied { CopiesWith of.now.size of.now.cells labels.old.cells flood.old.marks labels.old.copied labels.new.copied }
    ensures more { copies labels.old.copied ≤ copies labels.new.copied }
    ensures picks { OnOk result (RisesBy (copies labels.new.copied - copies labels.old.copied) (9 * length changed.now + 10 * (marks_in flood.new.marks - marks_in flood.old.marks)) (M.counts tally.old) (M.counts tally.new)) }
    ensures wanted { OnErr result (RisesBy (copies labels.new.copied - copies labels.old.copied + 1) (9 * length changed.now + 10 * (marks_in flood.new.marks - marks_in flood.old.marks)) (M.counts tally.old) (M.counts tally.new)) }
    ensures some { OnErr result (0 < length changed.now) }
{
    for at in changed {
        label_round(of, *at, flood, labels, tally)?;
    }
    Ok(())
}

/// A patch, and the work that it took.
#[derive(Drop)]
pub struct Repair {
    pub patch: Patch,
    pub worked: u64,
}

/// The labels of a map that had none.
fn first_labels<M: Tally>(alloc: Global, of: &Change<'_>, tally: &mut M) -> Result<Repair, NoMemory>
    ensures size { IfOk result (λ r. r.patch.size ≡ of.now.size) }
    ensures regions { IfOk result (λ r. AreRegions of.now.size of.now.cells (patched of.now.size [] r.patch.tiles)) }
    ensures all { IfOk result (λ r. HoldsAll r.patch) }
    ensures worked { IfOk result (λ r. r.worked ≡ first_work of.now.size (patched of.now.size [] r.patch.tiles)) }
    ensures picks { (labels : Cells) → AreRegions of.now.size of.now.cells labels → IsPickedBy (10 * first_work of.now.size labels) (M.counts tally.old) (M.counts tally.new) }
    ensures looks { IsLookedBy (2 * tiles_in of.now.size + 1) (M.counts tally.old) (M.counts tally.new) }
    ensures parts { KeepsParts (M.counts tally.old) (M.counts tally.new) }
{
    let extent = of.extent();
    let cells = cells_of(alloc, of, tally)?;
    let (labels, count) = labels_of(alloc, extent, &cells)?;
    let worked = extent.cells() as u64 + count;
    let patch = patch_of(alloc, extent, &labels)?;
    Ok(Repair { patch, worked })
}

/// Labels that were right, put right after their numbers changed at some places.
fn repaired_labels<M: Tally>(
    alloc: Global,
    base: &Layer,
    of: &Change<'_>,
    changed: &[u32],
    tally: &mut M,
) -> Result<Repair, NoMemory>
    requires size { base.now.size ≡ of.now.size }
    requires right { AreRegions of.now.size (cells_before of.now) base.now.cells }
    requires within { All (λ at. at < cells_in of.now.size) changed.now }
    requires few { length changed.now ≤ cells_in of.now.size }
    requires changed { HoldsChanged of.now.size (cells_before of.now) of.now.cells changed.now }
    ensures size { IfOk result (λ r. r.patch.size ≡ of.now.size) }
    ensures regions { IfOk result (λ r. AreRegions of.now.size of.now.cells (patched of.now.size base.now.cells r.patch.tiles)) }
    ensures exact { IfOk result (λ r. HoldsExactly of.now.size base.now.cells r.patch.tiles) }
    ensures worked { IfOk result (λ r. r.worked ≡ length changed.now + length (filter (is_touched of.now.size (patched of.now.size base.now.cells r.patch.tiles) changed.now) (places of.now.size))) }
    ensures bounds { (labels : Cells) → AreRegions of.now.size of.now.cells labels → RisesBy (2 * length (filter (tile_has of.now.size (differs base.now.cells labels)) (tiles of.now.size)) + min 1 (length changed.now)) (11 * length changed.now + 10 * length (filter (is_touched of.now.size labels changed.now) (places of.now.size))) (M.counts tally.old) (M.counts tally.new) }
    ensures parts { KeepsParts (M.counts tally.old) (M.counts tally.new) }
{
    let extent = of.extent();
    let _base = base.extent();
    let mut labels = Working::new(alloc, extent, Some(base))?;
    let mut flood = Flood::new(alloc, extent)?;
    clear_labels(of, changed, &mut labels, tally)?;
    label_rounds(of, changed, &mut flood, &mut labels, tally)?;
    let worked = changed.len() as u64 + flood.count();
    let patch = labels.into_patch(tally)?;
    Ok(Repair { patch, worked })
}

/// The labels of a map's regions: all of them where there were none, else those that were right before put right. At most 11 picks for
/// each unit of work and, where the operand's patch holds no unchanged tile, 5 looks for each damaged tile.
///
/// # Errors
///
/// `NoMemory` alone.
pub fn label_repair<M: Tally>(
    alloc: Global,
    base: Option<&Layer>,
    of: &Change<'_>,
    tally: &mut M,
) -> Result<Repair, NoMemory>
    requires { IsBaseFor of.now (option_copied base) }
    ensures size { IfOk result (λ r. r.patch.size ≡ of.now.size) }
    ensures regions { IfOk result (λ r. AreRegions of.now.size of.now.cells (patched of.now.size (base_of (before_of (option_copied base.entry))) r.patch.tiles)) }
    ensures exact { IfOk result (λ r. IsPatchFor of.now.size (option_copied base.entry) r.patch.tiles) }
    ensures worked { IfOk result (λ r. (t : Term) → r.worked ≡ op_work (region_op t) of.now.size (cells_before of.now ∷ []) (of.now.cells ∷ []) (before_of (option_copied base.entry)) (patched of.now.size (base_of (before_of (option_copied base.entry))) r.patch.tiles)) }
    ensures picks { (labels : Cells) → AreRegions of.now.size of.now.cells labels → (t : Term) → IsPickedBy (11 * op_work (region_op t) of.now.size (cells_before of.now ∷ []) (of.now.cells ∷ []) (before_of (option_copied base.entry)) labels) (M.counts tally.old) (M.counts tally.new) }
    ensures looks { (labels : Cells) → AreRegions of.now.size of.now.cells labels → HoldsNoUnchanged of.now → (t : Term) → IsLookedBy (5 * length (op_damage (region_op t) of.now.size (cells_before of.now ∷ []) (of.now.cells ∷ []) (before_of (option_copied base.entry)) labels)) (M.counts tally.old) (M.counts tally.new) }
    ensures parts { KeepsParts (M.counts tally.old) (M.counts tally.new) }
{
    let _kept = of.extent();
    match base {
        Some(layer) => repair_layer(alloc, layer, of, tally),
        None => first_labels(alloc, of, tally),
    }
}

/// Labels that were right, put right.
fn repair_layer<M: Tally>(
    alloc: Global,
    base: &Layer,
    of: &Change<'_>,
    tally: &mut M,
) -> Result<Repair, NoMemory>
    requires { IsBaseFor of.now (Some base.now) }
    ensures size { IfOk result (λ r. r.patch.size ≡ of.now.size) }
    ensures regions { IfOk result (λ r. AreRegions of.now.size of.now.cells (patched of.now.size base.now.cells r.patch.tiles)) }
    ensures exact { IfOk result (λ r. HoldsExactly of.now.size base.now.cells r.patch.tiles) }
    ensures worked { IfOk result (λ r. (t : Term) → r.worked ≡ op_work (region_op t) of.now.size (cells_before of.now ∷ []) (of.now.cells ∷ []) (Some base.now.cells) (patched of.now.size base.now.cells r.patch.tiles)) }
    ensures picks { (labels : Cells) → AreRegions of.now.size of.now.cells labels → (t : Term) → IsPickedBy (11 * op_work (region_op t) of.now.size (cells_before of.now ∷ []) (of.now.cells ∷ []) (Some base.now.cells) labels) (M.counts tally.old) (M.counts tally.new) }
    ensures looks { (labels : Cells) → AreRegions of.now.size of.now.cells labels → HoldsNoUnchanged of.now → (t : Term) → IsLookedBy (5 * length (op_damage (region_op t) of.now.size (cells_before of.now ∷ []) (of.now.cells ∷ []) (Some base.now.cells) labels)) (M.counts tally.old) (M.counts tally.new) }
    ensures parts { KeepsParts (M.counts tally.old) (M.counts tally.new) }
{
    let _base = base.extent();
    let _kept = of.extent();
    let changed = changed_places(alloc, of, tally)?;
    repaired_labels(alloc, base, of, &changed, tally)
}
