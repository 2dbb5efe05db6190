//! The tiles of a flow that bands have, one after another.
ghost use Rattle.std.specs.Prelude.{◌≡◌, ℕ, ◌<◌, ◌+◌, length, filter, is_some, if◌then◌else◌, None, Some, IfOk, IfSome, IfNone};
ghost use Rattle.std.specs.List.{range_with_len};
ghost use Rattle.map_nums.specs.Grids.{cells_in, cell_at};
ghost use Rattle.layer_tiles.specs.Answers.{IsTileAnswer};
ghost use Rattle.layer_tiles.specs.Tiles.{tiles_in};
ghost use Rattle.tile_work.specs.Working.{IsPatchTo};
ghost use Rattle.drainage_flow.specs.FlowBands.{all_downs, all_flows, counts_of, AreEven, IsSeat};
ghost use Rattle.drainage_flow.specs.Pouring.{flow_in};
ghost use Rattle.drainage_flow.specs.Showing.{shown_at};
ghost use Rattle.drainage_flow.specs.Whole.{AreInRange, IsFirstWide, flow_cells};

use crate::flow_band::FlowBand;
use crate::pouring::seat;
use layer_tiles::{Cell, Extent, KernelRefusal, Patch, Tile, Value};
use map_nums::{NoMemory, Wide, exact, in_range};
use std::alloc::Global;
use tile_frame::{RowMaker, TileMaker, make_row, make_tile};

/// The first place of a list whose flow is out of range, where there is one.
fn first_wide_in(flows: &[i128]) -> Option<u32>
    requires { length flows.now < 4294967296 }
    ensures some { IfSome result (IsFirstWide flows.now) }
    ensures none { IfNone result (AreInRange flows.now) }
{
    for at in 0..flows.len() {
        if in_range(flows[at]).is_none() {
            return Some(at as u32);
        }
    }
    None
}

/// The first place whose flow is out of range, where there is one.
pub fn first_wide(bands: &[FlowBand]) -> Option<u32>
    requires { length (all_flows bands.now) < 4294967296 }
    ensures some { IfSome result (IsFirstWide (all_flows bands.now)) }
    ensures none { IfNone result (AreInRange (all_flows bands.now)) }
{
    let mut first = 0;
    for band in bands {
        if let Some(at) = first_wide_in(&band.flows) {
            return Some(first + at);
        }
        first += band.flows.len() as u32;
    }
    None
}

/// All tiles of a flow over a surface.
pub fn whole_patch(
    alloc: Global,
    extent: Extent,
    surface: &[Cell],
    bands: &[FlowBand],
) -> Result<Patch, NoMemory>
    requires surface { length surface.now ≡ cells_in extent }
    requires even { AreEven bands.now }
    requires flows { length (all_flows bands.now) ≡ cells_in extent }
    requires in_range { AreInRange (all_flows bands.now) }
    ensures size { IfOk result (λ patch. patch.size ≡ extent) }
    ensures patch { IfOk result (λ patch. IsPatchTo extent None (flow_cells extent surface.now bands.now) patch.tiles) }
{
    let mut patch = Patch::new(alloc, extent);
    for tile in 0..extent.tiles() {
        match flow_tile(alloc, extent, tile, surface, bands) {
            Ok(made) => patch.push(tile, made)?,
            Err(KernelRefusal::Overflow(_)) => unreachable!(),
            Err(KernelRefusal::NoMemory) => return Err(NoMemory),
        }
    }
    Ok(patch)
}

/// A tile of a flow over a surface, which `pour` has put into all bands.
///
/// # Errors
///
/// `Overflow` at the tile's least cell whose flow is out of range, exactly where there is one; `NoMemory`.
pub fn flow_tile(
    alloc: Global,
    extent: Extent,
    tile: u32,
    surface: &[Cell],
    bands: &[FlowBand],
) -> Result<Tile, KernelRefusal>
    requires within { tile < tiles_in extent }
    requires surface { length surface.now ≡ cells_in extent }
    requires even { AreEven bands.now }
    requires flows { length (all_flows bands.now) ≡ cells_in extent }
    ensures { IsTileAnswer extent (flow_cells extent surface.now bands.now) tile result }
{
    let _rows = extent.rows();
    let maker = FlowTile {
        extent,
        tile,
        surface,
        bands,
    };
    make_tile(alloc, &maker, extent, tile)
}

/// The surface and the flow, place by place, and the tile that is made of them.
#[derive(Drop)]
struct FlowTile<'a> {
    extent: Extent,
    tile: u32,
    surface: &'a [Cell],
    bands: &'a [FlowBand],
}

impl<'a> TileMaker for FlowTile<'a> {
    ghost use Rattle.std.specs.Prelude.{◌≡◌, length};
    ghost use Rattle.map_nums.specs.Grids.{IsSize, cells_in};
    ghost use Rattle.layer_tiles.specs.PlaceByPlace.{cell_in};
    ghost use Rattle.drainage_flow.specs.FlowBands.{all_flows, AreEven};
    ghost use Rattle.drainage_flow.specs.Pouring.{flow_in};
    ghost use Rattle.drainage_flow.specs.Showing.{shown_at};

    ghost value = { λ m r c. shown_at m.surface.now (flow_in (all_flows m.bands.now)) (cell_in m.extent m.tile r c) };

    ghost makes = { λ m s t. (s ≡ m.extent) × (t ≡ m.tile) × IsSize s × (length m.surface.now ≡ cells_in s) × (length (all_flows m.bands.now) ≡ cells_in s) × AreEven m.bands.now };

    fn row(&self, extent: Extent, tile: u32, r: u32, made: &mut Tile) -> Result<(), KernelRefusal> {
        let place = extent.place(tile);
        let start = (place.top + r) * extent.columns() + place.left;
        let (band, first) = seat(self.bands, start);
        let maker = FlowRow {
            surface: self.surface,
            bands: self.bands,
            start,
            band,
            first,
        };
        make_row(&maker, extent, tile, r, made)
    }
}

/// The surface and the flow, place by place, and the place where a row begins; and the band that has it, and where in it.
#[derive(Drop)]
struct FlowRow<'a> {
    surface: &'a [Cell],
    bands: &'a [FlowBand],
    start: u32,
    band: usize,
    first: usize,
}

impl<'a> RowMaker for FlowRow<'a> {
    ghost use Rattle.std.specs.Prelude.{◌≡◌, ◌+◌, ◌<◌, length};
    ghost use Rattle.drainage_flow.specs.FlowBands.{all_flows, counts_of, AreEven, IsSeat};
    ghost use Rattle.drainage_flow.specs.Pouring.{flow_in};
    ghost use Rattle.drainage_flow.specs.Showing.{shown_at};

    ghost value = { λ m c. shown_at m.surface.now (flow_in (all_flows m.bands.now)) (m.start + c) };

    ghost has = { λ m c. (m.start + c < length m.surface.now) × (length (all_flows m.bands.now) ≡ length m.surface.now) × (length m.surface.now < 4294967296) × AreEven m.bands.now × IsSeat (counts_of m.bands.now) m.start m.band m.first };

    fn value_at(&self, c: u32) -> Result<Option<Value>, Wide> {
        let at = self.start + c;
        match self.surface[at as usize].get() {
            Some(_) => exact(flow_after(self.bands, self.band, self.first, at, c)),
            None => Ok(None),
        }
    }
}

/// The flow of place `at`, `c` places after one of which the band and where in it are known.
fn flow_after(bands: &[FlowBand], band: usize, first: usize, at: u32, c: u32) -> i128
    requires even { AreEven bands.now }
    requires seat { (start : ℕ) × (start + c ≡ at) × IsSeat (counts_of bands.now) start band first }
    requires within { at < length (all_flows bands.now) }
    ensures { result ≡ flow_in (all_flows bands.now) at }
{
    let place = first + c as usize;
    if place < bands[band].count() {
        return bands[band].flow(place);
    }
    let (k, i) = seat(bands, at);
    bands[k].flow(i)
}

/// How many cells are not null.
pub fn count_some(cells: &[Cell]) -> u64
    requires { length cells.now < 4294967296 }
    ensures { result ≡ length (filter (λ i. is_some (cell_at cells.now i)) (range_with_len 0 (length cells.now))) }
{
    let mut count = 0;
    for k in 0..cells.len() {
        count += one_if(cells[k]);
    }
    count
}

/// 1 for a number, 0 for null.
fn one_if(cell: Cell) -> u64
    ensures { result ≡ (if is_some cell then 1 else 0) }
{
    match cell.get() {
        Some(_) => 1,
        None => 0,
    }
}
