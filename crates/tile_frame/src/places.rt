//! One place of a tile that is made.
ghost use Rattle.std.specs.Prelude.{◌≡◌, ◌+◌, ◌*◌, ◌<◌, slice_set, IfOk, IsFalse};
ghost use Rattle.std.specs.Result.{ForOk};
ghost use Rattle.map_nums.specs.Answers.{is_wide};
ghost use Rattle.tile_frame.specs.Frames.{refused_at};

use layer_tiles::{Cell, KernelRefusal, Tile, Value};
use map_nums::Wide;

/// Puts the answer for cell `at` into its row and column of the tile.
///
/// # Errors
///
/// `Overflow` at that cell where the answer is out of range.
pub fn put(
    made: &mut Tile,
    r: u32,
    c: u32,
    at: u32,
    answer: Result<Option<Value>, Wide>,
) -> Result<(), KernelRefusal>
    requires in_range { ForOk answer (λ value. IsFalse (is_wide value)) }
    requires row { r < made.old.height }
    requires column { c < made.old.width }
    ensures result { result ≡ refused_at at answer }
    ensures placed { IfOk answer (λ value. made.new ≡ record made.old { cells = slice_set made.old.cells (r * made.old.width + c) value }) }
{
    match answer {
        Ok(value) => made.set(r, c, cell_of(value)),
        Err(Wide) => return Err(KernelRefusal::Overflow(at)),
    }
    Ok(())
}

/// The cell of a value that is in range.
fn cell_of(value: Option<Value>) -> Cell
    requires { IsFalse (is_wide value) }
    ensures { result ≡ value }
{
    match value {
        None => Cell::null(),
        Some(number) => Cell::within(number),
    }
}

/// The cell of an answer; null where it is out of range.
pub(crate) fn cell_or_null(answer: Result<Option<Value>, Wide>) -> Cell
    requires { ForOk answer (λ value. IsFalse (is_wide value)) }
    ensures { IfOk answer (λ value. result ≡ value) }
{
    match answer {
        Ok(value) => cell_of(value),
        Err(Wide) => Cell::null(),
    }
}
