//! What the jobs of one statement share.

use crate::kernels::Kernel;
use damage_sets::TileSet;

/// What the jobs of one statement share.
#[derive(Drop)]
pub enum Own {
    /// A job for each tile of the damage.
    Tiles(TileJobs),
    /// One job for all.
    Whole(WholeJob),
}

/// A job for each tile of the damage.
#[derive(Drop)]
pub struct TileJobs {
    /// The damage, in ascending order.
    pub tiles: Vec<u32>,
    pub kernel: Kernel,
}

/// One job that repairs all of a layer.
#[derive(Drop)]
pub struct WholeJob {
    pub repair: Repair,
    /// The tiles in which an operand changed, all of them where no layer is kept.
    pub touched: TileSet,
}

/// What repairs a layer whole.
#[derive(Clone, Copy)]
pub enum Repair {
    /// With nothing beside it.
    Alone(Lone),
    /// Nearest sources up to a limit, with the least costs beside them.
    Nearest(u64),
}

/// What repairs a layer beside which nothing stands.
#[derive(Clone, Copy)]
pub enum Lone {
    Flow,
    /// Least costs, up to a limit.
    Spread(u64),
    Regions,
}
