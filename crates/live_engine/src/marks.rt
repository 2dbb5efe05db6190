//! Labels and symbols are put.

ghost use Rattle.std.specs.Prelude.{◌≡◌, ◌<◌, ◌≤◌, false};
ghost use Rattle.map_edits.specs.WholeEdits.{label as labels, symbol as symbols};
ghost use Rattle.kept_map.specs.Maps.{seen};
ghost use Rattle.kept_map.specs.Keeps.{IsKept};
ghost use Rattle.live_engine.specs.Inverses.{AcceptsBack};

use crate::edits::{Accepted, Refusal, Which};
use crate::inverses::Inverse;
use crate::limits::has;
use crate::noting::{Note, take_note};
use kept_map::KeptMap;
use layer_tiles::Text;
use map_nums::Value;
use map_words::Name;
use std::alloc::Global;

/// The most labels, and the most symbols.
const MOST_MARKS: usize = 4096;

/// Puts a label for a value of a layer.
pub(crate) fn label(
    map: &mut KeptMap,
    alloc: Global,
    name: Name,
    value: Value,
    text: Text,
) -> Result<(Accepted, Inverse), Refusal>
    requires kept { IsKept map.old }
    ensures accepts { AcceptsBack (seen map.old) (seen map.new) (labels name value text) result }
    ensures kept { IsKept map.new }
{
    if !has(map, &name) {
        return Err(Refusal::Unknown(name));
    }
    if map.labels.count_with(&name, value) > MOST_MARKS {
        return Err(Refusal::Limit(Which::Labels));
    }
    take_note(map, alloc, Note::Label(name, value, text))
}

/// Puts a symbol for a value of a layer.
pub(crate) fn symbol(
    map: &mut KeptMap,
    alloc: Global,
    name: Name,
    value: Value,
    sign: u8,
) -> Result<(Accepted, Inverse), Refusal>
    requires kept { IsKept map.old }
    ensures accepts { AcceptsBack (seen map.old) (seen map.new) (symbols name value sign) result }
    ensures kept { IsKept map.new }
{
    if !has(map, &name) {
        return Err(Refusal::Unknown(name));
    }
    if map.symbols.count_with(&name, value) > MOST_MARKS {
        return Err(Refusal::Limit(Which::Symbols));
    }
    take_note(map, alloc, Note::Symbol(name, value, sign))
}
