//! Directions: at each cell the number of its steepest neighbour.
ghost use Rattle.std.specs.Prelude.{◌≡◌, ◌<◌, ◌≤◌, ◌+◌, ℕ, pos, length, option_map, IfOk, IfSome, IsTrue};
ghost use Rattle.map_nums.specs.Grids.{Size, Cells, cells_in, cell_at, near};
ghost use Rattle.map_defs.specs.Drainage.{direction_at, direction_grid};
ghost use Rattle.layer_tiles.specs.Windows.{lends};
ghost use Rattle.layer_tiles.specs.Tiles.{tiles_in, tile_block};
ghost use Rattle.layer_tiles.specs.Tallies.{RisesBy};
ghost use Rattle.near_cells.specs.Near.{IsNear};
ghost use Rattle.drainage_flow.specs.Steepest.{offset_at, AreAround};
ghost use Rattle.drainage_flow.specs.Around.{IsLentAround, AreRowsRound};

use crate::neighbours::neighbour;
use crate::winners::{numbered, row_winner, winner};
use layer_tiles::{Cell, Change, Extent, KernelRefusal, NoMemory, Tally, Tile, Value, Window};
use map_nums::Wide;
use near_cells::NearCells;
use std::alloc::Global;
use tile_frame::{RowMaker, TileMaker, make_row, make_tile};

/// The direction of a cell, 1 to 8 for N to NW clockwise, 0 where nothing near it is lower; none where it is null.
pub fn direction(window: &Window<'_>, extent: Extent, at: u32) -> Option<u8>
    requires size { window.now.size ≡ extent }
    requires within { at < cells_in extent }
    requires lent { IsLentAround window.now at }
    ensures { option_map pos result ≡ direction_at extent window.now.cells at }
{
    let Some(here) = lent_cell(window, extent, at).get() else {
        return None;
    };
    let around = lent_around(window, extent, at);
    Some(numbered(winner(here, &around)))
}

/// A cell that is lent.
fn lent_cell(window: &Window<'_>, extent: Extent, at: u32) -> Cell
    requires size { window.now.size ≡ extent }
    requires within { at < cells_in extent }
    requires lent { IsTrue (lends window.now.span window.now.size at) }
    ensures { result ≡ cell_at window.now.cells at }
{
    match window.cell(at) {
        Some(cell) => cell,
        None => unreachable!(),
    }
}

/// The cells round one, all of them lent.
fn lent_around(window: &Window<'_>, extent: Extent, at: u32) -> [Cell; 8]
    requires size { window.now.size ≡ extent }
    requires within { at < cells_in extent }
    requires lent { IsLentAround window.now at }
    ensures { AreAround extent window.now.cells at result }
{
    let mut around = [Cell::null(); 8];
    for k in 0..8u8 {
        around[k as usize] = lent_near(window, extent, at, k);
    }
    around
}

/// One of the cells round one, null off the map.
fn lent_near(window: &Window<'_>, extent: Extent, at: u32, k: u8) -> Cell
    requires size { window.now.size ≡ extent }
    requires within { at < cells_in extent }
    requires lent { IsLentAround window.now at }
    requires few { k < 8 }
    ensures { result ≡ near extent window.now.cells at (offset_at k) }
{
    match neighbour(extent, at, k) {
        Some(next) => lent_cell(window, extent, next),
        None => Cell::null(),
    }
}

/// Tile `tile` of the directions over the surface after the edit. At most nine looks.
///
/// # Errors
///
/// `NoMemory` alone: a direction is never out of range.
pub fn direction_tile<M: Tally>(
    alloc: Global,
    surface: &Change<'_>,
    tile: u32,
    tally: &mut M,
) -> Result<Tile, NoMemory>
    requires { tile < tiles_in surface.now.size }
    ensures tile { IfOk result (λ made. made ≡ tile_block surface.now.size (direction_grid surface.now.size surface.now.cells).cells tile) }
    ensures tally { RisesBy 9 0 (M.counts tally.old) (M.counts tally.new) }
{
    let extent = surface.extent();
    let window = surface.window(tile, 1, tally);
    let near = NearCells::of_window(alloc, &window, extent, tile, 1)?;
    tile_over(alloc, surface, &near, tile)
}

/// The tile over the cells round it.
fn tile_over(
    alloc: Global,
    surface: &Change<'_>,
    near: &NearCells,
    tile: u32,
) -> Result<Tile, NoMemory>
    requires within { tile < tiles_in surface.now.size }
    requires near { IsNear surface.now.size surface.now.cells tile 1 near.now }
    ensures { IfOk result (λ made. made ≡ tile_block surface.now.size (direction_grid surface.now.size surface.now.cells).cells tile) }
{
    let extent = surface.extent();
    let maker = DirectionTile {
        surface,
        near,
        tile,
    };
    match make_tile(alloc, &maker, extent, tile) {
        Ok(made) => Ok(made),
        Err(KernelRefusal::Overflow(_)) => unreachable!(),
        Err(KernelRefusal::NoMemory) => Err(NoMemory),
    }
}

/// The cells round a tile of a surface.
#[derive(Drop)]
struct DirectionTile<'a, 'b> {
    surface: &'a Change<'b>,
    near: &'a NearCells,
    tile: u32,
}

impl<'a, 'b> TileMaker for DirectionTile<'a, 'b> {
    ghost use Rattle.std.specs.Prelude.{◌≡◌};
    ghost use Rattle.map_defs.specs.Drainage.{direction_at};
    ghost use Rattle.layer_tiles.specs.PlaceByPlace.{cell_in};
    ghost use Rattle.near_cells.specs.Near.{IsNear};

    ghost value = { λ m r c. direction_at m.surface.now.size m.surface.now.cells (cell_in m.surface.now.size m.tile r c) };

    ghost makes = { λ m s t. (s ≡ m.surface.now.size) × (t ≡ m.tile) × IsNear m.surface.now.size m.surface.now.cells m.tile 1 m.near.now };

    fn row(&self, extent: Extent, tile: u32, r: u32, made: &mut Tile) -> Result<(), KernelRefusal> {
        let _extent = self.surface.extent();
        let first = r as usize;
        let maker = DirectionRow {
            surface: self.surface,
            tile,
            r,
            above: self.near.row(first),
            here: self.near.row(first + 1),
            below: self.near.row(first + 2),
        };
        make_row(&maker, extent, tile, r, made)
    }
}

/// A row of the cells of a tile, with the one above it and the one below it, each from the column left of the tile on.
#[derive(Drop)]
struct DirectionRow<'a, 'b> {
    surface: &'a Change<'b>,
    tile: u32,
    r: u32,
    above: &'a [Cell],
    here: &'a [Cell],
    below: &'a [Cell],
}

impl<'a, 'b> RowMaker for DirectionRow<'a, 'b> {
    ghost use Rattle.map_defs.specs.Drainage.{direction_at};
    ghost use Rattle.layer_tiles.specs.PlaceByPlace.{cell_in};
    ghost use Rattle.drainage_flow.specs.Around.{AreRowsRound};

    ghost value = { λ m c. direction_at m.surface.now.size m.surface.now.cells (cell_in m.surface.now.size m.tile m.r c) };

    ghost has = { λ m c. AreRowsRound m.surface.now.size m.surface.now.cells (cell_in m.surface.now.size m.tile m.r c) m.above.now m.here.now m.below.now c };

    fn value_at(&self, c: u32) -> Result<Option<Value>, Wide> {
        match row_direction(self.above, self.here, self.below, c as usize) {
            Some(direction) => Ok(Some(direction as Value)),
            None => Ok(None),
        }
    }
}

/// The direction of the cell in the middle of three rows, whose neighbours begin in column `left`.
fn row_direction(above: &[Cell], here: &[Cell], below: &[Cell], left: usize) -> Option<u8>
    requires above { left + 2 < length above.now }
    requires here { left + 2 < length here.now }
    requires below { left + 2 < length below.now }
    ensures direction { (s : Size) (surface : Cells) (i : ℕ) → AreRowsRound s surface i above.now here.now below.now left → option_map pos result ≡ direction_at s surface i }
    ensures few { IfSome result (λ n. n ≤ 8) }
{
    let Some(_height) = here[left + 1].get() else {
        return None;
    };
    Some(numbered(row_winner(above, here, below, left)))
}
