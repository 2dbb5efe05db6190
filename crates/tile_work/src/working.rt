//! A layer that is worked on.
ghost use Rattle.std.specs.Prelude.{◌≡◌, ◌<◌, ◌≤◌, ◌+◌, ◌-◌, ◌*◌, IfOk, OnOk, OnErr, IfSome, Some, None, [], replicate, true, false, length, slice_set, IsTrue, ◌↔◌};
ghost use Rattle.map_nums.specs.Grids.{IsSize, cells_in, cell_at};
ghost use Rattle.layer_tiles.specs.Tiles.{tiles_in, tile_of, place_in, tile_block, IsBlockOf};
ghost use Rattle.layer_tiles.specs.Tallies.{RisesBy};
ghost use Rattle.layer_tiles.specs.Patches.{IsAboveLast};
ghost use Rattle.tile_work.specs.Working.{IsOld, IsWork, AreCopied, IsInserted, before_of, base_of, begun_cells, work_cells, copies, written, IsSameWork, IsCopiedFor, IsPushed, IsPatchTo, AreTileSeats, one_slot, seated_tiles};
ghost use Rattle.std.specs.Option.{option_copied};
ghost use Rattle.std.specs.List.Sorted.{IsStrictlyIncreasing};

use layer_tiles::{Cell, Extent, Layer, NoMemory, Patch, Tally, Tile};
use std::alloc::Global;
use std::marker::Model;

/// A layer that is worked on: the old one, and the tiles that were written.
#[derive(Drop)]
pub struct Working<'a> {
    alloc: Global,
    extent: Extent,
    base: Option<&'a Layer>,
    /// Where the copy of each tile stands: first among all, until it is written.
    seats: Vec<usize>,
    /// None, and then the copies of the tiles that were written.
    tiles: Vec<Option<Tile>>,
    /// The numbers of the copied tiles, in ascending order.
    numbers: Vec<u32>,
}

impl<'a> Model for Working<'a> {
    ghost use Rattle.std.specs.Prelude.{map, is_some};
    ghost use Rattle.std.specs.Option.{option_copied};
    ghost use Rattle.tile_work.specs.Working.{WorkState, IsWork, AreCopied, AreTileSeats, before_of, base_of, work_cells, seated_tiles};

    ghost Value = { WorkState };

    ghost view = { λ w. record { size = w.extent; before = before_of (option_copied w.base); cells = work_cells w.extent (base_of (before_of (option_copied w.base))) (seated_tiles w.tiles.items w.seats.items); copied = map is_some (seated_tiles w.tiles.items w.seats.items) } };

    ghost invariant = { λ w. IsWork w.extent (option_copied w.base) (seated_tiles w.tiles.items w.seats.items) × AreCopied (seated_tiles w.tiles.items w.seats.items) w.numbers.items × AreTileSeats w.tiles.items w.seats.items };
}

impl<'a> Working<'a> {
    /// The size of the grid.
    pub fn extent(&self) -> Extent
        ensures extent { result ≡ self.now.size }
        ensures size { IsSize self.now.size }
        ensures count { length self.now.cells ≡ cells_in self.now.size }
    {
        self.extent
    }

    /// A cell as it is now. At most one pick.
    pub fn get<M: Tally>(&self, at: u32, tally: &mut M) -> Cell
        requires { at < cells_in self.now.size }
        ensures cell { result ≡ cell_at self.now.cells at }
        ensures count { length self.now.cells ≡ cells_in self.now.size }
        ensures pick { RisesBy 0 1 (M.counts tally.old) (M.counts tally.new) }
    {
        let seat = self.seats[self.extent.tile_of(at) as usize];
        match &self.tiles[seat] {
            Some(tile) => cell_in(self.extent, tile, at),
            None => self.old_cell(at, tally),
        }
    }

    /// A cell as it was; null where there was no layer. At most one pick.
    pub fn old_cell<M: Tally>(&self, at: u32, tally: &mut M) -> Cell
        requires { at < cells_in self.now.size }
        ensures cell { result ≡ cell_at (base_of self.now.before) at }
        ensures pick { RisesBy 0 1 (M.counts tally.old) (M.counts tally.new) }
    {
        match self.base {
            Some(layer) => layer.cell(at, tally),
            None => Cell::null(),
        }
    }
}

impl<'a> Working<'a> {
    /// A working layer over an old one, or over nothing: null everywhere.
    ///
    /// # Errors
    ///
    /// `NoMemory`.
    pub fn new(
        alloc: Global,
        extent: Extent,
        base: Option<&'a Layer>,
    ) -> Result<Working<'a>, NoMemory>
        requires { IsOld extent (option_copied base) }
        ensures size { IfOk result (λ w. w.size ≡ extent) }
        ensures before { IfOk result (λ w. w.before ≡ before_of (option_copied base.entry)) }
        ensures cells { IfOk result (λ w. w.cells ≡ begun_cells extent (before_of (option_copied base.entry))) }
        ensures copied { IfOk result (λ w. copies w.copied ≡ 0) }
    {
        let seats = vec![in alloc; 0; extent.tiles() as usize]?;
        let mut tiles = Vec::new(alloc);
        tiles.push(None)?;
        Ok(Working {
            alloc,
            extent,
            base,
            seats,
            tiles,
            numbers: Vec::new(alloc),
        })
    }

    /// Writes a cell. One look where its tile is written for the first time.
    ///
    /// # Errors
    ///
    /// `NoMemory`, and nothing is written.
    pub fn set<M: Tally>(&mut self, at: u32, cell: Cell, tally: &mut M) -> Result<(), NoMemory>
        requires { at < cells_in self.old.size }
        ensures ok { OnOk result (self.new ≡ written self.old at cell) }
        ensures err { OnErr result (self.new ≡ self.old) }
        ensures more { copies self.old.copied ≤ copies self.new.copied }
        ensures look { OnOk result (RisesBy (copies self.new.copied - copies self.old.copied) 0 (M.counts tally.old) (M.counts tally.new)) }
        ensures wanted { OnErr result (RisesBy 1 0 (M.counts tally.old) (M.counts tally.new)) }
    {
        let tile = self.extent.tile_of(at);
        self.copy_tile(tile, tally)?;
        let seat = self.seats[tile as usize];
        match &mut self.tiles[seat] {
            Some(cells) => set_in(self.extent, cells, at, cell),
            None => unreachable!(),
        }
        Ok(())
    }

    /// Writes a cell where it is not the one that stands there. One look where its tile is written for the first time.
    ///
    /// # Errors
    ///
    /// `NoMemory`, and nothing is written.
    pub fn put<M: Tally>(&mut self, at: u32, cell: Cell, tally: &mut M) -> Result<(), NoMemory>
        requires { at < cells_in self.old.size }
        ensures same { IsSameWork self.old self.new }
        ensures count { length self.old.cells ≡ cells_in self.old.size }
        ensures ok { OnOk result (self.new.cells ≡ slice_set self.old.cells at cell) }
        ensures err { OnErr result (self.new ≡ self.old) }
        ensures copied { OnOk result (IsCopiedFor self.old at cell self.new) }
        ensures more { copies self.old.copied ≤ copies self.new.copied }
        ensures tally { OnOk result (RisesBy (copies self.new.copied - copies self.old.copied) 1 (M.counts tally.old) (M.counts tally.new)) }
        ensures wanted { OnErr result (RisesBy 1 1 (M.counts tally.old) (M.counts tally.new)) }
    {
        if self.get(at, tally).same(&cell) {
            return Ok(());
        }
        self.set(at, cell, tally)
    }

    /// The tiles that hold a changed cell; where there was no layer, all tiles. One look at most for each copied tile.
    ///
    /// # Errors
    ///
    /// `NoMemory`.
    pub fn into_patch<M: Tally>(self, tally: &mut M) -> Result<Patch, NoMemory>
        ensures size { IfOk result (λ patch. patch.size ≡ self.entry.size) }
        ensures patch { IfOk result (λ patch. IsPatchTo self.entry.size self.entry.before self.entry.cells patch.tiles) }
        ensures looks { RisesBy (copies self.entry.copied) 0 (M.counts tally.old) (M.counts tally.new) }
    {
        let Working {
            alloc,
            extent,
            base,
            seats,
            tiles,
            numbers,
        } = self;
        match base {
            Some(layer) => changed_tiles(alloc, layer, &seats, tiles, &numbers, tally),
            None => all_tiles(alloc, extent, &seats, tiles),
        }
    }

    /// Copies a tile where that was not done.
    fn copy_tile<M: Tally>(&mut self, tile: u32, tally: &mut M) -> Result<(), NoMemory>
        requires { tile < tiles_in self.old.size }
        ensures ok { OnOk result (self.new ≡ record self.old { copied = slice_set self.old.copied tile true }) }
        ensures err { OnErr result (self.new ≡ self.old) }
        ensures more { copies self.old.copied ≤ copies self.new.copied }
        ensures look { OnOk result (RisesBy (copies self.new.copied - copies self.old.copied) 0 (M.counts tally.old) (M.counts tally.new)) }
        ensures wanted { OnErr result (RisesBy 1 0 (M.counts tally.old) (M.counts tally.new)) }
    {
        if self.tiles[self.seats[tile as usize]].is_some() {
            return Ok(());
        }
        let copy = self.old_tile(tile, tally)?;
        let seat = self.tiles.len();
        self.tiles.push(Some(copy))?;
        add_number(&mut self.numbers, tile)?;
        self.seats[tile as usize] = seat;
        Ok(())
    }

    /// A copy of a tile as it was.
    fn old_tile<M: Tally>(&self, tile: u32, tally: &mut M) -> Result<Tile, NoMemory>
        requires { tile < tiles_in self.now.size }
        ensures tile { IfOk result (λ b. b ≡ tile_block self.now.size (base_of self.now.before) tile) }
        ensures look { RisesBy 1 0 (M.counts tally.old) (M.counts tally.new) }
    {
        match self.base {
            Some(layer) => copied_tile(layer, tile, self.alloc, tally),
            None => Tile::new(self.alloc, self.extent, tile, Cell::null()),
        }
    }
}

/// A copy of a tile of a layer.
fn copied_tile<M: Tally>(
    layer: &Layer,
    tile: u32,
    alloc: Global,
    tally: &mut M,
) -> Result<Tile, NoMemory>
    requires { tile < tiles_in layer.now.size }
    ensures tile { IfOk result (λ b. b ≡ tile_block layer.now.size layer.now.cells tile) }
    ensures look { RisesBy 1 0 (M.counts tally.old) (M.counts tally.new) }
{
    layer.view(tile, tally).to_tile(alloc)
}

/// Puts a number into its place among ascending ones.
fn add_number(numbers: &mut Vec<u32>, number: u32) -> Result<(), NoMemory>
    requires { IsStrictlyIncreasing numbers.old.items }
    ensures ok { OnOk result (IsInserted numbers.old.items number numbers.new.items) }
    ensures err { OnErr result (numbers.new.items ≡ numbers.old.items) }
{
    let at = numbers.partition_point(|other| *other < number);
    numbers.insert(at, number)?;
    Ok(())
}

/// Writes a cell of a tile.
fn set_in(extent: Extent, tile: &mut Tile, at: u32, cell: Cell)
    requires within { at < cells_in extent }
    requires size { IsBlockOf extent (tile_of extent at) tile.old }
    ensures { tile.new ≡ record tile.old { cells = slice_set tile.old.cells (place_in extent at) cell } }
{
    let row = extent.row_of(at);
    let column = extent.column_of(at);
    tile.set(row % 32, column % 32, cell);
}

/// The copied tiles that are not those of the layer. One look each.
fn changed_tiles<M: Tally>(
    alloc: Global,
    layer: &Layer,
    seats: &[usize],
    mut tiles: Vec<Option<Tile>>,
    numbers: &[u32],
    tally: &mut M,
) -> Result<Patch, NoMemory>
    requires work { IsWork layer.now.size (Some layer.now) (seated_tiles tiles.items seats.now) }
    requires numbers { AreCopied (seated_tiles tiles.items seats.now) numbers.now }
    requires seats { AreTileSeats tiles.items seats.now }
    ensures size { IfOk result (λ patch. patch.size ≡ layer.now.size) }
    ensures patch { IfOk result (λ patch. IsPatchTo layer.now.size (Some layer.now.cells) (work_cells layer.now.size layer.now.cells (seated_tiles tiles.items seats.now)) patch.tiles) }
    ensures looks { RisesBy (length numbers.now) 0 (M.counts tally.old) (M.counts tally.new) }
{
    let mut patch = Patch::new(alloc, layer.extent());
    for number in numbers {
        let slot = tiles[seats[*number as usize]].take();
        push_changed(layer, *number, slot, &mut patch, tally)?;
    }
    Ok(patch)
}

/// All tiles, null everywhere where they were not written.
fn all_tiles(
    alloc: Global,
    extent: Extent,
    seats: &[usize],
    mut tiles: Vec<Option<Tile>>,
) -> Result<Patch, NoMemory>
    requires work { IsWork extent None (seated_tiles tiles.items seats.now) }
    requires seats { AreTileSeats tiles.items seats.now }
    ensures size { IfOk result (λ patch. patch.size ≡ extent) }
    ensures patch { IfOk result (λ patch. IsPatchTo extent None (work_cells extent [] (seated_tiles tiles.items seats.now)) patch.tiles) }
{
    let mut patch = Patch::new(alloc, extent);
    for tile in 0..extent.tiles() {
        let slot = tiles[seats[tile as usize]].take();
        push_any(alloc, extent, tile, slot, &mut patch)?;
    }
    Ok(patch)
}

/// Adds a tile where it is not that of the layer.
fn push_changed<M: Tally>(
    layer: &Layer,
    tile: u32,
    slot: Option<Tile>,
    patch: &mut Patch,
    tally: &mut M,
) -> Result<(), NoMemory>
    requires within { tile < tiles_in layer.now.size }
    requires slot { IfSome slot (λ b. IsBlockOf layer.now.size tile b) }
    requires size { patch.old.size ≡ layer.now.size }
    requires above { IsAboveLast patch.old.tiles tile }
    ensures size { patch.new.size ≡ layer.now.size }
    ensures ok { OnOk result (IsPushed layer.now.size (Some layer.now.cells) tile slot patch.old.tiles patch.new.tiles) }
    ensures look { RisesBy (one_slot slot) 0 (M.counts tally.old) (M.counts tally.new) }
{
    let Some(cells) = slot else {
        return Ok(());
    };
    if layer.view(tile, tally).same(&cells.view()) {
        return Ok(());
    }
    patch.push(tile, cells)
}

/// Adds a tile, null everywhere where it was not written.
fn push_any(
    alloc: Global,
    extent: Extent,
    tile: u32,
    slot: Option<Tile>,
    patch: &mut Patch,
) -> Result<(), NoMemory>
    requires within { tile < tiles_in extent }
    requires slot { IfSome slot (λ b. IsBlockOf extent tile b) }
    requires size { patch.old.size ≡ extent }
    requires above { IsAboveLast patch.old.tiles tile }
    ensures size { patch.new.size ≡ extent }
    ensures ok { OnOk result (IsPushed extent None tile slot patch.old.tiles patch.new.tiles) }
{
    match slot {
        Some(cells) => patch.push(tile, cells),
        None => patch.push(tile, Tile::new(alloc, extent, tile, Cell::null())?),
    }
}

/// A cell of a tile.
fn cell_in(extent: Extent, tile: &Tile, at: u32) -> Cell
    requires within { at < cells_in extent }
    requires size { IsBlockOf extent (tile_of extent at) tile.now }
    ensures { result ≡ cell_at tile.now.cells (place_in extent at) }
{
    let row = extent.row_of(at);
    let column = extent.column_of(at);
    let cells = tile.row(row % 32);
    cells[(column % 32) as usize]
}
