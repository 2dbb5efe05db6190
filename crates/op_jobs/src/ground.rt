//! What workers find parts of a layer that was not there from, and what they find.

use drainage_flow::FlowBand;
use friction_neighbor::NearestBand;
use friction_spread::CostBand;
use layer_tiles::Cell;
use region_labels::LabelBand;
use zonal_totals::TileCounts;

/// All cells of sources and frictions, and the greatest cost that counts.
#[derive(Drop)]
pub struct PathCells {
    pub sources: Vec<Cell>,
    pub friction: Vec<Cell>,
    pub limit: u64,
}

/// All cells of a surface and of the weights that drain over it.
#[derive(Drop)]
pub struct FlowCells {
    pub surface: Vec<Cell>,
    pub weights: Vec<Cell>,
}

/// What parts are found from, by the class of the operation.
#[derive(Drop)]
pub enum Ground {
    /// Least costs, in bands of rows.
    Costs(PathCells),
    /// Nearest sources, in bands of rows.
    Nearest(PathCells),
    /// Flow, in bands of rows.
    Flow(FlowCells),
    /// The regions of these cells, in bands of rows.
    Regions(Vec<Cell>),
    /// Zones, by tiles that are read part by part.
    Zones,
}

/// What is found of a part.
#[derive(Drop)]
pub enum Part {
    /// The least costs of a band of rows by paths that stay in it.
    Costs(CostBand),
    /// The same, and the numbers of the nearest sources by such paths.
    Nearest(NearestBand),
    /// A band of rows in which places may have passed on what they have.
    Flows(FlowBand),
    /// The labels of the regions within a band of rows.
    Labels(LabelBand),
    /// How often each value and each tile occurs in each zone, in some tiles.
    Counts(TileCounts),
}
