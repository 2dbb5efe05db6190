//! A tile of a statement, by the kernel of its class.
ghost use Rattle.std.specs.Prelude.{◌≡◌, ◌<◌, length};
ghost use Rattle.std.specs.List.{All};
ghost use Rattle.map_defs.specs.Drainage.{direction_grid};
ghost use Rattle.map_defs.specs.Focal.{focal_grid, offsets_of};
ghost use Rattle.map_defs.specs.Incremental.{form_grid};
ghost use Rattle.map_defs.specs.Local.{local_grid};
ghost use Rattle.map_defs.specs.Operate.{operand};
ghost use Rattle.layer_tiles.specs.Answers.{IsTileAnswer};
ghost use Rattle.layer_tiles.specs.Operands.{cells_after};
ghost use Rattle.layer_tiles.specs.Tallies.{RisesBy};
ghost use Rattle.layer_tiles.specs.Tiles.{tiles_in};
ghost use Rattle.local_ops.specs.Operations.{op_of, Takes};
ghost use Rattle.incremental_ops.specs.Shapes.{form_of};
ghost use Rattle.statement_parser.specs.Formed.{IsRadius};
ghost use Rattle.map_waves.specs.Operands.{IsOperand};
ghost use Rattle.op_jobs.specs.Kernels.{CanMake, kernel_cells, kernel_reach, beside_by, worked_by};

use crate::beside::Beside;
use crate::lists::{FreshLayer, list_tile};
use crate::sight::sight_piece;
use crate::zonal::zonal_piece;
use drainage_flow::direction_tile;
use focal_ops::focal_tile;
use incremental_ops::{Shape, shape_tile};
use layer_tiles::{Extent, KernelRefusal, Operands, Tally, Tile};
use local_ops::{LocalOp, local_tile};
use map_nums::{NoMemory, Stat};
use map_waves::Aside;
use sight_lines::{Sight, Viewers};
use std::alloc::Global;
use zonal_totals::Book;

/// What makes a tile of an operation, with what it goes by beside the operands.
#[derive(Drop)]
pub enum Kernel {
    Local(LocalOp),
    /// Of the cells no farther than a radius, of the square of three by three without one.
    Focal(Stat, Option<u32>),
    Shape(Shape),
    Direction,
    /// Over the book after the edit.
    Zonal(Stat, Book),
    /// Over the viewers after the edit.
    Sight(Sight, Viewers),
    /// From a layer that was not there, place by place.
    Fresh(FreshLayer),
}

impl Kernel {
    /// How many rows and columns off a changed operand cell is felt, of a kernel that goes by the operands alone.
    pub(crate) fn felt_within(&self) -> u32
        ensures { result ≡ kernel_reach self.now }
    {
        match self {
            Kernel::Focal(_, Some(radius)) => *radius,
            Kernel::Focal(_, None) | Kernel::Shape(_) | Kernel::Direction => 1,
            _ => 0,
        }
    }

    /// What is to stand beside the layer, and the units of work.
    pub(crate) fn left(self) -> (Aside<Beside>, u64)
        ensures beside { result.0 ≡ beside_by self }
        ensures work { result.1 ≡ worked_by self }
    {
        match self {
            Kernel::Zonal(_, book) => (Aside::Other(Beside::Book(book)), 0),
            Kernel::Sight(_, viewers) => (Aside::Other(Beside::Viewers(viewers)), 0),
            Kernel::Fresh(fresh) => (fresh.beside, fresh.worked),
            _ => (Aside::Other(Beside::Nothing), 0),
        }
    }
}

/// A tile of a Focal operation.
fn tile_of_focal<M: Tally>(
    alloc: Global,
    stat: Stat,
    radius: Option<u32>,
    operands: &Operands<'_>,
    extent: Extent,
    tile: u32,
    tally: &mut M,
) -> Result<Tile, KernelRefusal>
    requires radius { IsRadius radius }
    requires some { 0 < length operands.now }
    requires one_size { All (λ c. c.size ≡ extent) operands.now }
    requires within { tile < tiles_in extent }
    ensures answer { IsTileAnswer extent (focal_grid stat (offsets_of radius) extent (operand (cells_after operands.now) 0)).cells tile result }
    ensures tally { RisesBy 25 0 (M.counts tally.old) (M.counts tally.new) }
{
    let first = operands.at(0);
    focal_tile(alloc, stat, first, radius, tile, tally)
}

/// A tile of an Incremental operation.
fn tile_of_shape<M: Tally>(
    alloc: Global,
    shape: Shape,
    operands: &Operands<'_>,
    extent: Extent,
    tile: u32,
    tally: &mut M,
) -> Result<Tile, KernelRefusal>
    requires some { 0 < length operands.now }
    requires one_size { All (λ c. c.size ≡ extent) operands.now }
    requires within { tile < tiles_in extent }
    ensures answer { IsTileAnswer extent (form_grid (form_of shape) extent (operand (cells_after operands.now) 0)).cells tile result }
    ensures tally { RisesBy 25 0 (M.counts tally.old) (M.counts tally.new) }
{
    let first = operands.at(0);
    shape_tile(alloc, shape, first, tile, tally)
}

/// A tile of directions.
fn tile_of_directions<M: Tally>(
    alloc: Global,
    operands: &Operands<'_>,
    extent: Extent,
    tile: u32,
    tally: &mut M,
) -> Result<Tile, KernelRefusal>
    requires some { 0 < length operands.now }
    requires one_size { All (λ c. c.size ≡ extent) operands.now }
    requires within { tile < tiles_in extent }
    ensures answer { IsTileAnswer extent (direction_grid extent (operand (cells_after operands.now) 0)).cells tile result }
    ensures tally { RisesBy 25 0 (M.counts tally.old) (M.counts tally.new) }
{
    let first = operands.at(0);
    match direction_tile(alloc, first, tile, tally) {
        Ok(made) => Ok(made),
        Err(NoMemory) => Err(KernelRefusal::NoMemory),
    }
}

/// A tile of a Local operation.
fn tile_of_local<M: Tally>(
    alloc: Global,
    local: &LocalOp,
    operands: &Operands<'_>,
    extent: Extent,
    tile: u32,
    tally: &mut M,
) -> Result<Tile, KernelRefusal>
    requires takes { Takes (op_of local.now) (length operands.now) }
    requires one_size { All (λ c. c.size ≡ extent) operands.now }
    requires within { tile < tiles_in extent }
    ensures answer { IsTileAnswer extent (local_grid extent (op_of local.now) (cells_after operands.now)).cells tile result }
    ensures tally { RisesBy 25 0 (M.counts tally.old) (M.counts tally.new) }
{
    let _few = operands.len();
    local_tile(alloc, local, operands, tile, tally)
}

/// A tile of an operation. At most 25 looks.
pub(crate) fn make_tile<M: Tally>(
    alloc: Global,
    kernel: &Kernel,
    operands: &Operands<'_>,
    extent: Extent,
    tile: u32,
    tally: &mut M,
) -> Result<Tile, KernelRefusal>
    requires operands_are { All (IsOperand extent) operands.now }
    requires can { CanMake extent operands.now kernel.now }
    requires within { tile < tiles_in extent }
    ensures answer { IsTileAnswer extent (kernel_cells extent operands.now kernel.now) tile result }
    ensures tally { RisesBy 25 0 (M.counts tally.old) (M.counts tally.new) }
{
    match kernel {
        Kernel::Local(local) => tile_of_local(alloc, local, operands, extent, tile, tally),
        Kernel::Focal(stat, radius) => {
            tile_of_focal(alloc, *stat, *radius, operands, extent, tile, tally)
        }
        Kernel::Shape(shape) => tile_of_shape(alloc, *shape, operands, extent, tile, tally),
        Kernel::Direction => tile_of_directions(alloc, operands, extent, tile, tally),
        Kernel::Zonal(stat, book) => zonal_piece(alloc, *stat, book, operands, extent, tile, tally),
        Kernel::Sight(sight, viewers) => {
            sight_piece(alloc, *sight, viewers, operands, extent, tile, tally)
        }
        Kernel::Fresh(fresh) => list_tile(alloc, extent, tile, &fresh.list),
    }
}
