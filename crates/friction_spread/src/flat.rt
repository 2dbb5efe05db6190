//! What a spread goes over, in lists: each place's cells one after the other.
ghost use Rattle.std.specs.Prelude.{◌≡◌, ◌<◌, ◌≤◌, ◌^◌, suc, length};
ghost use Rattle.map_nums.specs.Grids.{cells_in};
ghost use Rattle.map_nums.specs.Numbers.{greatest_value};
ghost use Rattle.map_defs.specs.Spread.{friction_at};
ghost use Rattle.friction_spread.specs.Costs.{GroundState, IsGround};
ghost use Rattle.friction_spread.specs.Spots.{IsSpot};
ghost use Rattle.friction_spread.specs.Bands.{ground_of, band_of};

use crate::ground::{Spot, friction_of, spot_at_in, spot_in};
use layer_tiles::{Cell, Extent};
use std::marker::Model;

/// The sources and frictions of a spread, all of them, and the greatest cost that counts.
#[derive(Drop)]
pub struct FlatGround<'a> {
    sources: &'a [Cell],
    friction: &'a [Cell],
    extent: Extent,
    limit: u64,
}

impl<'a> Model for FlatGround<'a> {
    ghost use Rattle.std.specs.Prelude.{◌≡◌, ◌≤◌, length};
    ghost use Rattle.map_nums.specs.Grids.{cells_in};
    ghost use Rattle.map_nums.specs.Numbers.{greatest_value};
    ghost use Rattle.friction_spread.specs.Costs.{GroundState};

    ghost Value = { GroundState };

    ghost view = { λ g. record { size = g.extent; sources = g.sources.now; friction = g.friction.now; limit = g.limit } };

    ghost invariant = { λ g. (length g.sources.now ≡ cells_in g.extent) × (length g.friction.now ≡ cells_in g.extent) × (g.limit ≤ greatest_value) };
}

impl<'a> FlatGround<'a> {
    pub fn new(
        extent: Extent,
        sources: &'a [Cell],
        friction: &'a [Cell],
        limit: u64,
    ) -> FlatGround<'a>
        requires sources { length sources.now ≡ cells_in extent }
        requires friction { length friction.now ≡ cells_in extent }
        requires limit { limit ≤ greatest_value }
        ensures { result ≡ ground_of extent sources.now friction.now limit }
    {
        FlatGround {
            sources,
            friction,
            extent,
            limit,
        }
    }

    pub fn extent(&self) -> Extent
        ensures extent { result ≡ self.now.size }
        ensures ground { IsGround self.now }
    {
        let _rows = self.extent.rows();
        self.extent
    }

    /// The greatest cost that counts.
    pub fn limit(&self) -> u64
        ensures limit { result ≡ self.now.limit }
        ensures low { result ≤ greatest_value }
    {
        self.limit
    }

    /// The least number that stands for no cost.
    pub fn top(&self) -> u64
        ensures top { result ≡ suc self.now.limit }
        ensures low { result ≤ 2 ^ 50 }
    {
        self.limit + 1
    }

    /// A place with its row and column.
    pub fn spot(&self, at: u32) -> Spot
        requires { at < cells_in self.now.size }
        ensures spot { IsSpot self.now.size result }
        ensures at { result.at ≡ at }
    {
        spot_in(self.extent(), at)
    }

    /// The place of a row and a column.
    pub fn spot_at(&self, row: u32, column: u32) -> Spot
        requires row { row < self.now.size.rows }
        requires column { column < self.now.size.columns }
        ensures spot { IsSpot self.now.size result }
        ensures row { result.row ≡ row }
        ensures column { result.column ≡ column }
    {
        spot_at_in(self.extent(), row, column)
    }

    /// The cells of the sources.
    pub fn sources(&self) -> &[Cell]
        ensures value { result.now ≡ self.now.sources }
        ensures count { length result.now ≡ cells_in self.now.size }
    {
        self.sources
    }

    /// The friction of a place, 0 for a barrier.
    #[inline]
    pub fn friction(&self, at: u32) -> u64
        requires { at < cells_in self.now.size }
        ensures value { result ≡ friction_at self.now.friction at }
        ensures low { result < 2 ^ 50 }
    {
        friction_of(self.friction[at as usize])
    }

    /// The rows `first` to before `end`.
    pub fn band(&self, first: u32, end: u32) -> FlatGround<'a>
        requires some { first < end }
        requires within { end ≤ self.now.size.rows }
        ensures { result ≡ band_of self.now first end }
    {
        let columns = self.extent.columns();
        let Some(extent) = Extent::new(end - first, columns) else {
            unreachable!()
        };
        let from = (first * columns) as usize;
        let to = (end * columns) as usize;
        FlatGround {
            sources: &self.sources[from..to],
            friction: &self.friction[from..to],
            extent,
            limit: self.limit,
        }
    }
}
