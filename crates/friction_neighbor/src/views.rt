//! Sources, frictions and least costs after an edit, read cell by cell.
ghost use Rattle.std.specs.Prelude.{◌≡◌, ◌<◌, ◌≤◌, ◌^◌, IsSome};
ghost use Rattle.map_nums.specs.Grids.{cells_in};
ghost use Rattle.map_nums.specs.Numbers.{greatest_value};
ghost use Rattle.map_defs.specs.Differences.{differs};
ghost use Rattle.map_defs.specs.Spread.{IsSpread, friction_at};
ghost use Rattle.layer_tiles.specs.Tallies.{RisesBy};
ghost use Rattle.friction_neighbor.specs.Fields.{IsField, cost_at, own_at};
ghost use Rattle.friction_spread.specs.Spots.{IsSpot};
ghost use Rattle.friction_neighbor.specs.Spots.{IsFront};
ghost use Rattle.friction_neighbor.specs.Views.{ViewState, view_of};

use crate::fields::Front;
use friction_spread::{Spot, cost_of, friction_of, spot_at_in, spot_in};
use layer_tiles::{Cell, Change, Extent, Tally};
use std::marker::Model;

/// The sources, frictions and least costs of a map after an edit, the costs before it, and the greatest cost that counts.
#[derive(Drop)]
pub struct FieldView<'a> {
    sources: &'a Change<'a>,
    friction: &'a Change<'a>,
    costs: &'a Change<'a>,
    extent: Extent,
    limit: u64,
}

impl<'a> Model for FieldView<'a> {
    ghost use Rattle.std.specs.Prelude.{◌≡◌, IsSome};
    ghost use Rattle.friction_neighbor.specs.Fields.{IsField};
    ghost use Rattle.friction_neighbor.specs.Views.{ViewState, view_of};

    ghost Value = { ViewState };

    ghost view = { λ v. view_of v.sources.now v.friction.now v.costs.now v.limit };

    ghost invariant = { λ v. (v.friction.now.size ≡ v.sources.now.size) × (v.costs.now.size ≡ v.sources.now.size) × (v.extent ≡ v.sources.now.size) × IsSome v.costs.now.before × IsField (view_of v.sources.now v.friction.now v.costs.now v.limit).field };
}

impl<'a> FieldView<'a> {
    pub fn new(
        sources: &'a Change<'a>,
        friction: &'a Change<'a>,
        costs: &'a Change<'a>,
        limit: u64,
    ) -> FieldView<'a>
        requires friction { friction.now.size ≡ sources.now.size }
        requires size { costs.now.size ≡ sources.now.size }
        requires there { IsSome costs.now.before }
        requires limit { limit ≤ greatest_value }
        requires costs { IsSpread sources.now.size sources.now.cells friction.now.cells limit costs.now.cells }
        ensures { result ≡ view_of sources.now friction.now costs.now limit }
    {
        let extent = sources.extent();
        let _friction = friction.extent();
        FieldView {
            sources,
            friction,
            costs,
            extent,
            limit,
        }
    }

    pub fn extent(&self) -> Extent
        ensures extent { result ≡ self.now.field.ground.size }
        ensures field { IsField self.now.field }
    {
        self.extent
    }

    /// The greatest cost that counts.
    pub fn limit(&self) -> u64
        ensures limit { result ≡ self.now.field.ground.limit }
        ensures low { result ≤ greatest_value }
    {
        self.limit
    }

    /// A place with its row and column.
    pub fn spot(&self, at: u32) -> Spot
        requires { at < cells_in self.now.field.ground.size }
        ensures spot { IsSpot self.now.field.ground.size result }
        ensures at { result.at ≡ at }
    {
        spot_in(self.extent(), at)
    }

    /// The place of a row and a column.
    pub fn spot_at(&self, row: u32, column: u32) -> Spot
        requires row { row < self.now.field.ground.size.rows }
        requires column { column < self.now.field.ground.size.columns }
        ensures spot { IsSpot self.now.field.ground.size result }
        ensures row { result.row ≡ row }
        ensures column { result.column ≡ column }
    {
        spot_at_in(self.extent(), row, column)
    }

    /// The cell of a place among the sources. One pick.
    pub fn source<M: Tally>(&self, at: u32, tally: &mut M) -> Cell
        requires { at < cells_in self.now.field.ground.size }
        ensures cell { result ≡ own_at self.now.field at }
        ensures pick { RisesBy 0 1 (M.counts tally.old) (M.counts tally.new) }
    {
        self.sources.cell(at, tally)
    }

    /// The friction of a place, 0 for a barrier. One pick.
    pub fn friction<M: Tally>(&self, at: u32, tally: &mut M) -> u64
        requires { at < cells_in self.now.field.ground.size }
        ensures value { result ≡ friction_at self.now.field.ground.friction at }
        ensures low { result < 2 ^ 50 }
        ensures pick { RisesBy 0 1 (M.counts tally.old) (M.counts tally.new) }
    {
        friction_of(self.friction.cell(at, tally))
    }

    /// The least cost of a place; one above the limit where it has none. One pick.
    pub fn cost<M: Tally>(&self, at: u32, tally: &mut M) -> u64
        requires { at < cells_in self.now.field.ground.size }
        ensures value { result ≡ cost_at self.now.field at }
        ensures low { result ≤ 2 ^ 50 }
        ensures pick { RisesBy 0 1 (M.counts tally.old) (M.counts tally.new) }
    {
        cost_of(self.costs.cell(at, tally), self.limit + 1)
    }

    /// A place whose cost is known, with its friction. One pick.
    pub fn front<M: Tally>(&self, at: u32, cost: u64, tally: &mut M) -> Front
        requires within { at < cells_in self.now.field.ground.size }
        requires cost { cost ≡ cost_at self.now.field at }
        ensures front { IsFront self.now.field result }
        ensures at { result.spot.at ≡ at }
        ensures pick { RisesBy 0 1 (M.counts tally.old) (M.counts tally.new) }
    {
        let _extent = self.extent();
        let spot = self.spot(at);
        let friction = self.friction(at, tally);
        Front {
            spot,
            cost,
            friction,
        }
    }

    /// Whether the cost of a place is another one than before. Two picks.
    pub fn has_new_cost<M: Tally>(&self, at: u32, tally: &mut M) -> bool
        requires { at < cells_in self.now.field.ground.size }
        ensures differs { result ≡ differs self.now.was self.now.field.costs at }
        ensures picks { RisesBy 0 2 (M.counts tally.old) (M.counts tally.new) }
    {
        !self
            .costs
            .cell_before(at, tally)
            .same(&self.costs.cell(at, tally))
    }
}
