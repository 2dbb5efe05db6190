//! What values are passed on over: sources, frictions and least costs, in lists, by place.
ghost use Rattle.std.specs.Prelude.{◌≡◌, ◌<◌, ◌≤◌, ◌^◌, length};
ghost use Rattle.map_nums.specs.Grids.{cells_in};
ghost use Rattle.map_nums.specs.Numbers.{greatest_value};
ghost use Rattle.map_defs.specs.Spread.{IsSpread, friction_at};
ghost use Rattle.friction_spread.specs.Bands.{ground_of};
ghost use Rattle.friction_spread.specs.Shown.{shown_cells};
ghost use Rattle.friction_neighbor.specs.Fields.{IsField, cost_at, own_at, list_field};
ghost use Rattle.friction_spread.specs.Spots.{IsSpot};

use friction_spread::{Spot, friction_of, spot_at_in, spot_in};
use layer_tiles::{Cell, Extent};
use std::marker::Model;

/// The sources, frictions and least costs of a map, and the greatest cost that counts.
#[derive(Drop)]
pub struct CostField<'a> {
    extent: Extent,
    sources: &'a [Cell],
    friction: &'a [Cell],
    costs: &'a [u64],
    limit: u64,
}

/// A place with its cost and its friction.
#[derive(Clone, Copy)]
pub struct Front {
    pub spot: Spot,
    pub cost: u64,
    pub friction: u64,
}

impl<'a> Model for CostField<'a> {
    ghost use Rattle.std.specs.Prelude.{◌≡◌, length};
    ghost use Rattle.map_nums.specs.Grids.{cells_in};
    ghost use Rattle.friction_spread.specs.Bands.{ground_of};
    ghost use Rattle.friction_neighbor.specs.Fields.{FieldState, IsField, list_field};

    ghost Value = { FieldState };

    ghost view = { λ f. list_field (ground_of f.extent f.sources.now f.friction.now f.limit) f.costs.now };

    ghost invariant = { λ f. (length f.costs.now ≡ cells_in f.extent) × IsField (list_field (ground_of f.extent f.sources.now f.friction.now f.limit) f.costs.now) };
}

impl<'a> CostField<'a> {
    pub fn new(
        extent: Extent,
        sources: &'a [Cell],
        friction: &'a [Cell],
        limit: u64,
        costs: &'a [u64],
    ) -> CostField<'a>
        requires sources { length sources.now ≡ cells_in extent }
        requires friction { length friction.now ≡ cells_in extent }
        requires limit { limit ≤ greatest_value }
        requires count { length costs.now ≡ cells_in extent }
        requires costs { IsSpread extent sources.now friction.now limit (shown_cells extent limit costs.now) }
        ensures { result ≡ list_field (ground_of extent sources.now friction.now limit) costs.now }
    {
        let _rows = extent.rows();
        CostField {
            extent,
            sources,
            friction,
            costs,
            limit,
        }
    }

    pub fn extent(&self) -> Extent
        ensures extent { result ≡ self.now.ground.size }
        ensures field { IsField self.now }
    {
        self.extent
    }

    /// The greatest cost that counts.
    pub fn limit(&self) -> u64
        ensures limit { result ≡ self.now.ground.limit }
        ensures low { result ≤ greatest_value }
    {
        self.limit
    }

    /// A place with its row and column.
    pub fn spot(&self, at: u32) -> Spot
        requires { at < cells_in self.now.ground.size }
        ensures spot { IsSpot self.now.ground.size result }
        ensures at { result.at ≡ at }
    {
        spot_in(self.extent(), at)
    }

    /// The place of a row and a column.
    pub fn spot_at(&self, row: u32, column: u32) -> Spot
        requires row { row < self.now.ground.size.rows }
        requires column { column < self.now.ground.size.columns }
        ensures spot { IsSpot self.now.ground.size result }
        ensures row { result.row ≡ row }
        ensures column { result.column ≡ column }
    {
        spot_at_in(self.extent(), row, column)
    }

    /// The cell of a place among the sources.
    pub fn source(&self, at: u32) -> Cell
        requires { at < cells_in self.now.ground.size }
        ensures { result ≡ own_at self.now at }
    {
        self.sources[at as usize]
    }

    /// The friction of a place, 0 for a barrier.
    pub fn friction(&self, at: u32) -> u64
        requires { at < cells_in self.now.ground.size }
        ensures value { result ≡ friction_at self.now.ground.friction at }
        ensures low { result < 2 ^ 50 }
    {
        friction_of(self.friction[at as usize])
    }

    /// The least cost of a place; one above the limit where it has none.
    pub fn cost(&self, at: u32) -> u64
        requires { at < cells_in self.now.ground.size }
        ensures value { result ≡ cost_at self.now at }
        ensures low { result ≤ 2 ^ 50 }
    {
        self.costs[at as usize].min(self.limit + 1)
    }
}
