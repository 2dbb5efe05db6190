//! What an item of a branch begins with.

use map_words::Name;

#[derive(Drop)]
pub enum Opening {
    Paint,
    New,
    Drop,
    Value,
    /// The name that a statement defines.
    Named(Name),
}
