//! Statements on whole layers.
//!
//! [`Statements`] cuts a written statement into jobs, over its operands after an edit and what is kept of it.
#![tactic(auto)]

mod beside;
mod classes;
mod damage;
mod flow_bands;
mod fresh;
mod ground;
mod kernels;
mod kinds;
mod label_bands;
mod lists;
mod nearest_bands;
mod operands;
mod own;
mod owning;
mod parts;
mod pieces;
mod sight;
mod spread_bands;
mod statements;
mod tiles;
mod weights;
mod whole;
mod whole_flow;
mod whole_jobs;
mod whole_nearest;
mod whole_regions;
mod whole_spread;
mod zonal;
mod zonal_kernel;
mod zonal_parts;
mod zonal_zones;

pub use beside::{Beside, copy_aside};
pub use ground::{FlowCells, Ground, Part, PathCells};
pub use kernels::Kernel;
pub use own::{Own, Repair, TileJobs, WholeJob};
pub use pieces::Piece;
pub use statements::Statements;
