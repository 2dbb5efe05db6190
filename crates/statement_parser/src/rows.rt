//! The rows of the language that are there.

use crate::command::Command;
use crate::operation::Operation;

/// Which forms of the language lines may have. All others are refused as if the language hadn't them.
#[derive(Clone, Copy, Debug)]
pub struct Rows<'r> {
    /// The operations beside `LocalSum`, which always is there.
    pub operations: &'r [Operation],
    pub commands: &'r [Command],
    /// Whether `FocalSum` may have `radiating`.
    pub sight: bool,
    /// Whether procedures may be called.
    pub calls: bool,
    /// Whether Local statistics may end in `ignoring nulls`.
    pub ignoring: bool,
}
