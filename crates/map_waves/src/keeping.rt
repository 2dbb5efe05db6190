//! What is kept of a statement, and what a repair makes of it.

use layer_tiles::{Layer, Patch};

/// What stands beside the layer of a statement.
#[derive(Drop)]
pub enum Aside<B> {
    /// A second layer, of which a repair makes the tiles that changed.
    Layer(Layer),
    /// What a repair makes anew.
    Other(B),
}

/// What a repair makes of what stands beside a layer.
#[derive(Drop)]
pub enum Renewal<B> {
    /// All of it.
    Anew(Aside<B>),
    /// The tiles of a second layer that changed.
    Patched(Patch),
}

/// The layer that is kept of a statement, and what its operation keeps beside it.
#[derive(Drop)]
pub struct Kept<B> {
    pub layer: Layer,
    pub beside: Aside<B>,
    /// Units of work of its last repair; none where it was made anew, or the edit wrote it. It tells what the next repair may
    /// take, and changes no answer.
    pub repaired: Option<u64>,
}

/// A repaired layer before it is put in place: its tiles, what is made of what stands beside it, and the numbers of the reply.
#[derive(Drop)]
pub struct Made<B> {
    pub patch: Patch,
    pub beside: Renewal<B>,
    /// Tiles of the damage.
    pub evaluated: u32,
    /// Units of work.
    pub worked: u64,
}
