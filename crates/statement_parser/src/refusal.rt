//! Why a line is refused.

/// Why bytes are no line. Columns count from 1.
#[derive(Clone, Copy, Debug, PartialEq, Eq)]
pub enum LineRefusal {
    /// The length of a line of more than 4,096 bytes.
    Long(u64),
    /// The column of a byte or a word that goes on no line, or the one after the end of a line that ends too early.
    Syntax(u32),
    /// The column of a word that is no operation, where one is due.
    Operation(u32),
    /// The column of a number outside the range of its place.
    Number(u32),
    NoMemory,
}
