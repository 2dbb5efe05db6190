//! The cells of a tile's square grown by a reach.
ghost use Rattle.std.specs.Prelude.{◌≡◌, ◌+◌, ◌-◌, ◌*◌, ◌<◌, ◌≤◌, [], length, IfOk, OnOk};
ghost use Rattle.map_nums.specs.Grids.{IsSize, cells_in};
ghost use Rattle.layer_tiles.specs.Tiles.{block_row, tiles_in, tile_top, tile_height};
ghost use Rattle.layer_tiles.specs.Windows.{window_of, span_of, lends};
ghost use Rattle.layer_tiles.specs.Tallies.{RisesBy};
ghost use Rattle.near_cells.specs.Near.{IsNear, cell_near, near_height, near_width};
ghost use Rattle.near_cells.specs.Added.{Adds, LendsRow, from_place, nulls};

use layer_tiles::{Cell, Change, Extent, NoMemory, Tally, Window};
use std::alloc::Global;
use std::marker::Model;

/// The most cells of a row: a tile's, and 64 on each side.
const LONGEST: usize = 160;

/// The cells of a tile's square grown by a reach, row by row; null off the map.
#[derive(Drop)]
pub struct NearCells {
    height: usize,
    width: usize,
    cells: Vec<Cell>,
}

impl Model for NearCells {
    ghost use Rattle.std.specs.Prelude.{◌≡◌, ◌*◌, length};
    ghost use Rattle.layer_tiles.specs.Tiles.{Block};

    ghost Value = { Block };

    ghost view = { λ n. record { height = n.height; width = n.width; cells = n.cells.items } };

    ghost invariant = { λ n. length n.cells.items ≡ n.height * n.width };
}

impl NearCells {
    /// The cells round a tile of an operand after the edit. At most 25 looks.
    pub fn of_change<M: Tally>(
        alloc: Global,
        of: &Change<'_>,
        tile: u32,
        reach: u32,
        tally: &mut M,
    ) -> Result<NearCells, NoMemory>
        requires within { tile < tiles_in of.now.size }
        requires reach { reach ≤ 64 }
        ensures near { IfOk result (IsNear of.now.size of.now.cells tile reach) }
        ensures looks { RisesBy 25 0 (M.counts tally.old) (M.counts tally.new) }
    {
        let window = of.window(tile, reach, tally);
        NearCells::of_window(alloc, &window, of.extent(), tile, reach)
    }

    /// The cells round a tile that a window of that tile lends.
    pub fn of_window(
        alloc: Global,
        window: &Window<'_>,
        extent: Extent,
        tile: u32,
        reach: u32,
    ) -> Result<NearCells, NoMemory>
        requires window { window.now ≡ window_of extent window.now.cells tile reach }
        requires within { tile < tiles_in extent }
        requires reach { reach ≤ 64 }
        ensures { IfOk result (IsNear extent window.now.cells tile reach) }
    {
        let place = extent.place(tile);
        let count = (place.height + 2 * reach) * (place.width + 2 * reach);
        let cells = Vec::with_capacity(alloc, count as usize)?;
        NearCells::filled(cells, window, extent, tile, reach)
    }

    /// Fills an empty list, row by row.
    fn filled(
        mut cells: Vec<Cell>,
        window: &Window<'_>,
        extent: Extent,
        tile: u32,
        reach: u32,
    ) -> Result<NearCells, NoMemory>
        requires empty { cells.items ≡ [] }
        requires window { window.now ≡ window_of extent window.now.cells tile reach }
        requires within { tile < tiles_in extent }
        requires reach { reach ≤ 64 }
        ensures { IfOk result (IsNear extent window.now.cells tile reach) }
    {
        let place = extent.place(tile);
        let height = place.height + 2 * reach;
        let width = place.width + 2 * reach;
        for r in 0..height {
            add_row(window, extent, tile, reach, r, &mut cells)?;
        }
        Ok(NearCells {
            height: height as usize,
            width: width as usize,
            cells,
        })
    }

    /// How many rows there are.
    pub fn height(&self) -> usize
        ensures { result ≡ self.now.height }
    {
        self.height
    }

    /// How many cells a row has.
    pub fn width(&self) -> usize
        ensures { result ≡ self.now.width }
    {
        self.width
    }

    /// All cells, row by row.
    pub fn cells(&self) -> &[Cell]
        ensures cells { result.now ≡ self.now.cells }
        ensures count { length result.now ≡ self.now.height * self.now.width }
    {
        &self.cells
    }

    /// A row, counted from 0 from the reach above the tile.
    pub fn row(&self, r: usize) -> &[Cell]
        requires { r < self.now.height }
        ensures row { result.now ≡ block_row self.now r }
        ensures width { length result.now ≡ self.now.width }
    {
        let first = r * self.width;
        &self.cells[first..first + self.width]
    }
}

/// Adds a row of the square.
fn add_row(
    window: &Window<'_>,
    extent: Extent,
    tile: u32,
    reach: u32,
    r: u32,
    cells: &mut Vec<Cell>,
) -> Result<(), NoMemory>
    requires window { window.now ≡ window_of extent window.now.cells tile reach }
    requires within { tile < tiles_in extent }
    requires reach { reach ≤ 64 }
    requires row { r < near_height extent tile reach }
    ensures { OnOk result (Adds (cell_near extent window.now.cells tile reach r) (near_width extent tile reach) cells.old.items cells.new.items) }
{
    let place = extent.place(tile);
    let width = place.width + 2 * reach;
    if place.top + r < reach || extent.rows() + reach <= place.top + r {
        return add_nulls(width, cells);
    }
    let row = place.top + r - reach;
    let before = reach.saturating_sub(place.left);
    let first = place.left + before - reach;
    let count = extent.columns().min(place.left + place.width + reach) - first;
    add_nulls(before, cells)?;
    add_runs(window, extent, row, first, count, cells)?;
    add_nulls(width - before - count, cells)
}

/// Adds cells of a row of the map, whose tiles are lent.
fn add_runs(
    window: &Window<'_>,
    extent: Extent,
    row: u32,
    first: u32,
    count: u32,
    cells: &mut Vec<Cell>,
) -> Result<(), NoMemory>
    requires size { window.now.size ≡ extent }
    requires row { row < extent.rows }
    requires within { first + count ≤ extent.columns }
    requires lent { LendsRow window.now.span extent row first count }
    ensures { OnOk result (Adds (from_place window.now.cells (row * extent.columns + first)) count cells.old.items cells.new.items) }
{
    let start = row * extent.columns() + first;
    let mut done = 0;
    while done < count {
        let run = window.run(start + done);
        let part = run.len().min((count - done) as usize);
        cells.extend_from_slice(&run[..part])?;
        done += part as u32;
    }
    Ok(())
}

/// Adds nulls.
fn add_nulls(count: u32, cells: &mut Vec<Cell>) -> Result<(), NoMemory>
    requires { count ≤ 160 }
    ensures { OnOk result (Adds nulls count cells.old.items cells.new.items) }
{
    let row = [Cell::null(); LONGEST];
    cells.extend_from_slice(&row[..count as usize])?;
    Ok(())
}
