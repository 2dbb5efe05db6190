//! Books of Zonal statements. A [`Book`] holds how often each value occurs in each zone, and how many cells of each zone each
//! tile has; [`Book::stat`] gives any statistic of a zone from the counts alone. [`Book::changed`] goes over the tiles that an
//! edit's patches hold and makes a [`BookPatch`]: the book after the edit, and the zones for which the count of some value
//! differs. [`Book::commit`] takes that book. A book of a map that had none is made of [`TileCounts`]: what ranges of tiles
//! count, which can be found side by side, and [`Book::of_counts`] joins.
#![tactic(auto)]

mod books;
mod counts;
mod drafts;
mod entries;
mod halves;
mod joins;
mod laws;
mod merges;
mod pairs;
mod registers;
mod rows;
mod running_counts;
mod sections;
mod stats;
mod steps;
mod tile_counts;
mod zone_lists;

pub use books::{Book, BookPatch};
pub use entries::Entry;
pub use laws::unlisted_zones_law;
pub use pairs::Pair;
pub use steps::Step;
pub use tile_counts::TileCounts;
