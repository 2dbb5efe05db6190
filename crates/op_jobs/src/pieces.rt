//! What a job makes.

use crate::beside::Beside;
use layer_tiles::Tile;
use map_waves::Made;

/// What a job makes.
#[derive(Drop)]
pub enum Piece {
    /// A tile of the damage; none where its cells stay.
    Tile(Option<Tile>),
    /// All of a repaired layer.
    Whole(Made<Beside>),
}
