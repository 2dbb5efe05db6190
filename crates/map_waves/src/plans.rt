//! Statements in an order in which each reads sources and statements before it.
use crate::keeping::Kept;
use layer_tiles::{Cell, Extent, Layer, Patch};

/// An operand of a statement: a source or a statement by its place, or a number everywhere.
#[derive(Clone, Copy)]
pub enum Ref {
    Source(usize),
    Statement(usize),
    Number(Cell),
}

/// A statement.
#[derive(Drop)]
pub struct Step<O> {
    pub op: O,
    /// At most eight.
    pub refs: Vec<Ref>,
    pub depth: u32,
    /// The place of its layer among those that are kept, none where it was undefined.
    pub kept: Option<usize>,
    /// The edit wrote it.
    pub written: bool,
}

/// What an edit makes of the sources.
#[derive(Clone, Copy)]
pub enum Shift<'a> {
    Nothing,
    /// The source at a place gets these tiles.
    Painted(usize, &'a Patch),
    /// A further source, after all others.
    Loaded(&'a Layer),
}

/// What the statements are repaired over.
#[derive(Drop)]
pub struct Base<'a, B> {
    pub extent: Extent,
    pub sources: &'a [Layer],
    pub shift: Shift<'a>,
    pub kept: &'a [Kept<B>],
}
