//! Edits are taken back.

ghost use Rattle.std.specs.Prelude.{◌≡◌, ◌<◌, false};
ghost use Rattle.layer_tiles.specs.Tallies.{IsUndivided};
ghost use Rattle.map_edits.specs.Pasts.{parts_of};
ghost use Rattle.map_edits.specs.WholeEdits.{put_back};
ghost use Rattle.kept_map.specs.Maps.{seen};
ghost use Rattle.kept_map.specs.Keeps.{IsKept};
ghost use Rattle.live_engine.specs.Accepts.{ReadsWithin};
ghost use Rattle.live_engine.specs.Inverses.{Fits, IsReverted, past_of};
ghost use Rattle.live_engine.specs.declared.inverses.Inverse.TheVariants as inverses;

use crate::drafts::{Draft, carry as carry_draft};
use crate::edits::Accepted;
use crate::inverses::Inverse;
use crate::noting::take_back;
use crate::repainting::{Repaint, carry as carry_repaint};
use kept_map::KeptMap;
use layer_tiles::Tally;
use std::thread::Threads;
use tile_workers::{Crew, Gate};

/// Takes back an edit of a name.
fn name_back<M: Tally + Send, G: Gate + Sync, R: Threads + Sync>(
    map: &mut KeptMap,
    crew: &Crew<'_, R, G>,
    draft: Draft,
    tally: &mut M,
) -> Result<Accepted, Inverse>
    requires kept { IsKept map.old }
    requires fits { Fits map.old.extent (parts_of (seen map.old)) (inverses.Name draft) }
    requires whole { 1 < crew.now.workers → IsUndivided (M.counts tally.old) }
    ensures reverted { IsReverted (seen map.old) (seen map.new) (inverses.Name draft) result }
    ensures kept { IsKept map.new }
    ensures reads { ReadsWithin (seen map.old) (put_back (past_of (inverses.Name draft) (parts_of (seen map.old)))) (M.counts tally.old) (M.counts tally.new) }
{
    if map.reserve().is_err() {
        return Err(Inverse::Name(draft));
    }
    match carry_draft(map, crew, draft, tally) {
        Ok((accepted, _)) => Ok(accepted),
        Err(left) => Err(Inverse::Name(left.draft)),
    }
}

/// Takes back a paint.
fn tiles_back<M: Tally + Send, G: Gate + Sync, R: Threads + Sync>(
    map: &mut KeptMap,
    crew: &Crew<'_, R, G>,
    repaint: Repaint,
    tally: &mut M,
) -> Result<Accepted, Inverse>
    requires kept { IsKept map.old }
    requires fits { Fits map.old.extent (parts_of (seen map.old)) (inverses.Tiles repaint) }
    requires whole { 1 < crew.now.workers → IsUndivided (M.counts tally.old) }
    ensures reverted { IsReverted (seen map.old) (seen map.new) (inverses.Tiles repaint) result }
    ensures kept { IsKept map.new }
    ensures reads { ReadsWithin (seen map.old) (put_back (past_of (inverses.Tiles repaint) (parts_of (seen map.old)))) (M.counts tally.old) (M.counts tally.new) }
{
    match carry_repaint(map, crew, repaint, tally) {
        Ok((accepted, _)) => Ok(accepted),
        Err(left) => Err(Inverse::Tiles(left.repaint)),
    }
}

/// Takes an edit back. Where memory is wanted the map is as before, and what takes the edit back is handed back.
pub(crate) fn revert<M: Tally + Send, G: Gate + Sync, R: Threads + Sync>(
    map: &mut KeptMap,
    crew: &Crew<'_, R, G>,
    inverse: Inverse,
    tally: &mut M,
) -> Result<Accepted, Inverse>
    requires kept { IsKept map.old }
    requires fits { Fits map.old.extent (parts_of (seen map.old)) inverse }
    requires whole { 1 < crew.now.workers → IsUndivided (M.counts tally.old) }
    ensures reverted { IsReverted (seen map.old) (seen map.new) inverse result }
    ensures kept { IsKept map.new }
    ensures reads { ReadsWithin (seen map.old) (put_back (past_of inverse (parts_of (seen map.old)))) (M.counts tally.old) (M.counts tally.new) }
{
    match inverse {
        Inverse::Name(draft) => name_back(map, crew, draft, tally),
        Inverse::Tiles(repaint) => tiles_back(map, crew, repaint, tally),
        Inverse::Note(back) => take_back(map, back),
    }
}
