//! An operand before and after an edit.
ghost use Rattle.std.specs.Prelude.{◌≡◌, ◌<◌, ◌≤◌, ◌↔◌, ℕ, IsSome, IfSome, IfNone, IsTrue, Contains};
ghost use Rattle.map_nums.specs.Grids.{IsSize, cells_in, cell_at};
ghost use Rattle.layer_tiles.specs.Tiles.{tile_block, tiles_in};
ghost use Rattle.layer_tiles.specs.Patches.{HoldsAll};
ghost use Rattle.layer_tiles.specs.Windows.{window_of, span_of, tiles_lent, LendsInReach};
ghost use Rattle.layer_tiles.specs.Tallies.{looked, picked};
ghost use Rattle.layer_tiles.specs.Changes.{same_change, patched_change, fresh_change, constant_change, cells_before};
ghost use Rattle.layer_tiles.specs.ChangeFacts.{IsChange, IsNext};
ghost use Rattle.layer_tiles.specs.ChangeBodies.{change_of, IsChangeBody, IsRowOfOne};
ghost use Rattle.layer_tiles.specs.Runs.{run_length, IsRun};

use crate::cells::Cell;
use crate::extents::Extent;
use crate::layers::Layer;
use crate::patches::Patch;
use crate::tallies::Tally;
use crate::views::TileView;
use crate::wholes::{whole_cell, whole_run, whole_view};
use crate::windows::{Window, span};
use std::marker::Model;

/// An operand before and after an edit.
#[derive(Drop)]
pub struct Change<'a> {
    body: Body<'a>,
}

/// What a change is made of.
#[derive(Drop)]
pub(crate) enum Body<'a> {
    Same(&'a Layer),
    Patched(&'a Layer, &'a Patch),
    Fresh(&'a Patch),
    Constant(Extent, [Cell; 32]),
}

impl<'a> Model for Change<'a> {
    ghost use Rattle.layer_tiles.specs.Changes.{ChangeState};

    ghost Value = { ChangeState };

    ghost use Rattle.layer_tiles.specs.ChangeBodies.{change_of, IsChangeBody};

    ghost view = { λ c. change_of c.body };

    ghost invariant = { λ c. IsChangeBody c.body };
}

impl<'a> Body<'a> {
    /// The size of the operand.
    fn extent(&self) -> Extent
        ensures { result ≡ (change_of self.now).size }
    {
        match self {
            Body::Same(layer) => layer.extent(),
            Body::Patched(layer, _) => layer.extent(),
            Body::Fresh(patch) => patch.extent(),
            Body::Constant(extent, _) => *extent,
        }
    }

    /// A cell after the edit, uncounted.
    pub(crate) fn cell(&self, at: u32) -> Cell
        requires body { IsChangeBody self.now }
        requires within { at < cells_in (change_of self.now).size }
        ensures { result ≡ cell_at (change_of self.now).cells at }
    {
        match self {
            Body::Same(layer) => layer.peek(at),
            Body::Patched(layer, patch) => patched_cell(layer, patch, at),
            Body::Fresh(patch) => fresh_cell(patch, at),
            Body::Constant(_, row) => row[0],
        }
    }

    /// The cells from one on, to the end of its row within its tile, after the edit, uncounted.
    pub(crate) fn run(&self, extent: Extent, at: u32) -> &[Cell]
        requires body { IsChangeBody self.now }
        requires size { extent ≡ (change_of self.now).size }
        requires within { at < cells_in extent }
        ensures { IsRun (change_of self.now).size (change_of self.now).cells at result.now }
    {
        let count = extent.run_length(at);
        match self {
            Body::Same(layer) => return layer.run(at, count),
            Body::Patched(layer, patch) => return patched_run(layer, patch, at, count),
            Body::Fresh(patch) => return fresh_run(patch, at, count),
            Body::Constant(_, row) => return &row[..count],
        }
    }
}

/// Cells of a layer after tiles were replaced.
fn patched_run<'b>(layer: &'b Layer, patch: &'b Patch, at: u32, count: usize) -> &'b [Cell]
    requires within { at < cells_in layer.now.size }
    requires same { patch.now.size ≡ layer.now.size }
    requires count { count ≡ run_length layer.now.size at }
    ensures { IsRun layer.now.size (patched_change layer.now patch.now).cells at result.now }
{
    let extent = layer.extent();
    let _same = patch.extent();
    match patch.find(extent.tile_of(at)) {
        Some(tile) => tile.run(extent.place_in(at), count),
        None => layer.run(at, count),
    }
}

/// Cells of a patch that holds every tile.
fn fresh_run(patch: &Patch, at: u32, count: usize) -> &[Cell]
    requires within { at < cells_in patch.now.size }
    requires all { HoldsAll patch.now }
    requires count { count ≡ run_length patch.now.size at }
    ensures { IsRun patch.now.size (fresh_change patch.now).cells at result.now }
{
    whole_run(patch.extent(), patch.tiles(), at, count)
}

/// A cell of a layer after tiles were replaced.
fn patched_cell(layer: &Layer, patch: &Patch, at: u32) -> Cell
    requires within { at < cells_in layer.now.size }
    requires same { patch.now.size ≡ layer.now.size }
    ensures { result ≡ cell_at (patched_change layer.now patch.now).cells at }
{
    let extent = layer.extent();
    let _same = patch.extent();
    match patch.find(extent.tile_of(at)) {
        Some(tile) => tile.cell(extent.place_in(at)),
        None => layer.peek(at),
    }
}

/// A cell of a patch that holds every tile.
fn fresh_cell(patch: &Patch, at: u32) -> Cell
    requires within { at < cells_in patch.now.size }
    requires all { HoldsAll patch.now }
    ensures { result ≡ cell_at (fresh_change patch.now).cells at }
{
    whole_cell(patch.extent(), patch.tiles(), at)
}

impl<'a> Change<'a> {
    /// A layer that stays as it is.
    pub fn same(layer: &'a Layer) -> Change<'a>
        ensures { result ≡ same_change layer.now }
    {
        let _extent = layer.extent();
        Change {
            body: Body::Same(layer),
        }
    }

    /// A layer and the tiles that are to replace some of its own.
    pub fn patched(layer: &'a Layer, patch: &'a Patch) -> Change<'a>
        requires { patch.now.size ≡ layer.now.size }
        ensures { result ≡ patched_change layer.now patch.now }
    {
        let _extent = layer.extent();
        let _same = patch.extent();
        Change {
            body: Body::Patched(layer, patch),
        }
    }

    /// The tiles of a layer that was not there.
    pub fn fresh(patch: &'a Patch) -> Change<'a>
        requires { HoldsAll patch.now }
        ensures { result ≡ fresh_change patch.now }
    {
        let _extent = patch.extent();
        Change {
            body: Body::Fresh(patch),
        }
    }

    /// One cell everywhere.
    pub fn constant(extent: Extent, cell: Cell) -> Change<'a>
        ensures { result ≡ constant_change extent cell }
    {
        let _rows = extent.rows();
        let _value = cell.get();
        Change {
            body: Body::Constant(extent, [cell; 32]),
        }
    }

    pub fn extent(&self) -> Extent
        ensures extent { result ≡ self.now.size }
        ensures size { IsSize self.now.size }
        ensures change { IsChange self.now }
    {
        self.body.extent()
    }

    /// The tiles that meet a tile's square grown by a reach, after the edit. One look each.
    pub fn window<M: Tally>(&self, tile: u32, reach: u32, tally: &mut M) -> Window<'a>
        requires within { tile < tiles_in self.now.size }
        requires reach { reach ≤ 64 }
        ensures window { result ≡ window_of self.now.size self.now.cells tile reach }
        ensures lent { LendsInReach self.now.size tile reach (span_of self.now.size tile reach) }
        ensures looks { M.counts tally.new ≡ looked (tiles_lent (span_of self.now.size tile reach)) (M.counts tally.old) }
    {
        let lent = span(self.extent(), tile, reach, tally);
        match &self.body {
            Body::Same(layer) => return Window::of_layer(layer, lent),
            Body::Patched(layer, patch) => return Window::of_patched(layer, patch, lent),
            Body::Fresh(patch) => return Window::of_patch(patch, lent),
            Body::Constant(extent, row) => return Window::of_cell(*extent, *row, lent),
        }
    }

    /// One cell after the edit. One pick.
    pub fn cell<M: Tally>(&self, at: u32, tally: &mut M) -> Cell
        requires { at < cells_in self.now.size }
        ensures cell { result ≡ cell_at self.now.cells at }
        ensures pick { M.counts tally.new ≡ picked 1 (M.counts tally.old) }
    {
        tally.pick();
        self.body.cell(at)
    }

    /// A tile after the edit. One look.
    pub fn view<M: Tally>(&self, tile: u32, tally: &mut M) -> TileView<'_>
        requires { tile < tiles_in self.now.size }
        ensures tile { result ≡ tile_block self.now.size self.now.cells tile }
        ensures look { M.counts tally.new ≡ looked 1 (M.counts tally.old) }
    {
        match &self.body {
            Body::Same(layer) => return layer.view(tile, tally),
            Body::Patched(layer, patch) => return view_patched(layer, patch, tile, tally),
            Body::Fresh(patch) => return view_fresh(patch, tile, tally),
            Body::Constant(extent, row) => return view_constant(*extent, row, tile, tally),
        }
    }

    /// A tile before the edit. One look.
    pub fn view_before<M: Tally>(&self, tile: u32, tally: &mut M) -> TileView<'_>
        requires there { IsSome self.now.before }
        requires within { tile < tiles_in self.now.size }
        ensures tile { result ≡ tile_block self.now.size (cells_before self.now) tile }
        ensures look { M.counts tally.new ≡ looked 1 (M.counts tally.old) }
    {
        match &self.body {
            Body::Same(layer) => return layer.view(tile, tally),
            Body::Patched(layer, _) => return layer.view(tile, tally),
            Body::Fresh(_) => unreachable!(),
            Body::Constant(extent, row) => return view_constant(*extent, row, tile, tally),
        }
    }

    /// One cell before the edit. One pick.
    pub fn cell_before<M: Tally>(&self, at: u32, tally: &mut M) -> Cell
        requires there { IsSome self.now.before }
        requires within { at < cells_in self.now.size }
        ensures cell { result ≡ cell_at (cells_before self.now) at }
        ensures pick { M.counts tally.new ≡ picked 1 (M.counts tally.old) }
    {
        tally.pick();
        match &self.body {
            Body::Same(layer) => layer.peek(at),
            Body::Patched(layer, _) => layer.peek(at),
            Body::Fresh(_) => unreachable!(),
            Body::Constant(_, row) => row[0],
        }
    }

    /// Whether the edit's patch holds the tile.
    pub fn touched(&self, tile: u32) -> bool
        ensures { IsTrue result ↔ Contains self.now.touched tile }
    {
        match &self.body {
            Body::Same(_) => false,
            Body::Patched(_, patch) => patch.has(tile),
            Body::Fresh(patch) => patch.has(tile),
            Body::Constant(..) => false,
        }
    }

    /// The least touched tile that is not below `from`.
    pub fn next_touched(&self, from: u32) -> Option<u32>
        ensures next { IfSome result (IsNext self.now.touched from) }
        ensures none { IfNone result ((t : ℕ) → Contains self.now.touched t → t < from) }
    {
        match &self.body {
            Body::Same(_) => None,
            Body::Patched(_, patch) => patch.next_from(from),
            Body::Fresh(patch) => patch.next_from(from),
            Body::Constant(..) => None,
        }
    }
}

/// A tile of a layer after tiles were replaced.
fn view_patched<'b, M: Tally>(
    layer: &'b Layer,
    patch: &'b Patch,
    tile: u32,
    tally: &mut M,
) -> TileView<'b>
    requires within { tile < tiles_in layer.now.size }
    requires same { patch.now.size ≡ layer.now.size }
    ensures tile { result ≡ tile_block layer.now.size (patched_change layer.now patch.now).cells tile }
    ensures look { M.counts tally.new ≡ looked 1 (M.counts tally.old) }
{
    let _extent = patch.extent();
    match patch.find(tile) {
        Some(cells) => {
            tally.look();
            cells.view()
        }
        None => layer.view(tile, tally),
    }
}

/// A tile of a patch that holds every tile.
fn view_fresh<'b, M: Tally>(patch: &'b Patch, tile: u32, tally: &mut M) -> TileView<'b>
    requires within { tile < tiles_in patch.now.size }
    requires all { HoldsAll patch.now }
    ensures tile { result ≡ tile_block patch.now.size (fresh_change patch.now).cells tile }
    ensures look { M.counts tally.new ≡ looked 1 (M.counts tally.old) }
{
    tally.look();
    whole_view(patch.extent(), patch.tiles(), tile)
}

/// A tile of one cell everywhere.
fn view_constant<'b, M: Tally>(
    extent: Extent,
    row: &'b [Cell; 32],
    tile: u32,
    tally: &mut M,
) -> TileView<'b>
    requires within { tile < tiles_in extent }
    requires one { IsRowOfOne row.now }
    ensures tile { result ≡ tile_block extent (constant_change extent (cell_at row.now 0)).cells tile }
    ensures look { M.counts tally.new ≡ looked 1 (M.counts tally.old) }
{
    tally.look();
    let place = extent.place(tile);
    TileView::lend(row, 0, 0, place.height as usize, place.width as usize)
}

impl<'a> Default for Change<'a> {
    /// Null in one cell.
    fn default() -> Self {
        Change::constant(Extent::one(), Cell::null())
    }
}
