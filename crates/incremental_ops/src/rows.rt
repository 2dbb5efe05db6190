//! The rows of a tile of a shape.
ghost use Rattle.std.specs.Prelude.{◌≡◌};
ghost use Rattle.incremental_ops.specs.Shapes.{shape_round, IsGrown};

use crate::rings::ring_at;
use crate::values::{Shape, value_of};
use layer_tiles::{Cell, Extent, KernelRefusal, Tile, Value};
use map_nums::Wide;
use near_cells::NearCells;
use tile_frame::{RowMaker, TileMaker, make_row};

/// A shape, and the cells of a tile's square grown by one.
#[derive(Drop)]
pub(crate) struct ShapeTile<'a> {
    pub(crate) shape: Shape,
    pub(crate) near: &'a NearCells,
}

impl<'a> TileMaker for ShapeTile<'a> {
    ghost use Rattle.incremental_ops.specs.Shapes.{shape_round, IsGrown};

    ghost value = { λ m r c. shape_round m.shape m.near.now r c };

    ghost makes = { λ m s t. IsGrown s t m.near.now };

    #[tactic(auto, unfolding(crate::specs::Shapes::shape_round))]
    fn row(&self, extent: Extent, tile: u32, r: u32, made: &mut Tile) -> Result<(), KernelRefusal> {
        let top = r as usize;
        let maker = ShapeRow {
            shape: self.shape,
            above: self.near.row(top),
            here: self.near.row(top + 1),
            below: self.near.row(top + 2),
        };
        make_row(&maker, extent, tile, r, made)
    }
}

/// A shape, and three rows of cells.
#[derive(Drop)]
struct ShapeRow<'a> {
    shape: Shape,
    above: &'a [Cell],
    here: &'a [Cell],
    below: &'a [Cell],
}

impl<'a> RowMaker for ShapeRow<'a> {
    ghost use Rattle.std.specs.Prelude.{◌+◌, ◌<◌, length};
    ghost use Rattle.incremental_ops.specs.Shapes.{shape_in};

    ghost value = { λ m c. shape_in m.shape m.above.now m.here.now m.below.now c };

    ghost has = { λ m c. (c + 2 < length m.above.now) × (c + 2 < length m.here.now) × (c + 2 < length m.below.now) };

    fn value_at(&self, c: u32) -> Result<Option<Value>, Wide> {
        let left = c as usize;
        let ring = ring_at(self.above, self.here, self.below, left);
        value_of(self.shape, self.here[left + 1], &ring)
    }
}
