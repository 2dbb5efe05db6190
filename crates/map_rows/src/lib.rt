//! Worked examples of the definitions: each function's contract states values that the check computes.
#![tactic(auto)]

mod changes;
mod counts;
mod drainage;
mod expansion;
mod focal;
mod forms;
mod local;
mod near;
mod nearest;
mod nodes;
mod regions;
mod sight;
mod spread;
mod tiles;
mod whole;
mod work;
mod zonal;

pub use changes::change_rows;
pub use counts::count_rows;
pub use drainage::drainage_rows;
pub use expansion::expansion_rows;
pub use focal::focal_rows;
pub use forms::form_rows;
pub use local::local_rows;
pub use near::near_rows;
pub use nearest::nearest_rows;
pub use nodes::node_rows;
pub use regions::region_rows;
pub use sight::sight_rows;
pub use spread::spread_rows;
pub use tiles::tile_rows;
pub use whole::whole_rows;
pub use work::work_rows;
pub use zonal::zonal_rows;
