//! What the words of a run say.
ghost use Rattle.std.specs.Prelude.{◌<◌, IsTrue, length};
ghost use Rattle.std.specs.List.{All};
ghost use Rattle.map_words.specs.Names.{is_plain};

use crate::workers::{Side, Workers};
use arrayvec::ArrayVec;

/// The most pairs.
pub const MOST_PAIRS: usize = 32;

/// The name of a layer, and the file that is loaded under it.
#[derive(Clone, Copy, Default)]
pub struct Pair<'a> {
    pub name: &'a str,
    pub file: &'a str,
}

/// What a run over files is of: its model file where it has one, and what it loads, in order.
#[derive(Drop)]
pub struct FileWords<'a> {
    pub model: Option<&'a str>,
    pub pairs: ArrayVec<Pair<'a>, MOST_PAIRS>,
    ghost some: { 0 < length pairs.items },
    ghost plain: { All (λ p. IsTrue (is_plain p.name.now)) pairs.items },
}

/// What a run is of.
#[derive(Drop)]
pub enum Form<'a> {
    Files(FileWords<'a>),
    /// A made-up map of this size.
    Sample(Side),
}

/// What the words of a run say.
#[derive(Drop)]
pub struct Words<'a> {
    pub workers: Workers,
    pub form: Form<'a>,
}
