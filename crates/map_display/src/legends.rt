//! The legend of a layer.
ghost use Rattle.std.specs.Prelude.{◌≡◌, ◌*◌, ◌++◌, option_map, IfOk, OnOk, List};
ghost use Rattle.layer_tiles.specs.Tiles.{tiles_in};
ghost use Rattle.layer_tiles.specs.Tallies.{RisesBy};
ghost use Rattle.map_edits.specs.Marks.{Mark as Kept};
ghost use Rattle.map_defs.specs.Ops.{Name as Word};
ghost use Rattle.map_machine.specs.Displays.{label_tail, label_of, legend_reply};
ghost use Rattle.map_display.specs.OfLayer.{AreOf, IsKey};
ghost use Rattle.map_display.specs.Lines.{counted_kind, counted_kinds_lines};

use crate::layer_marks::LayerMarks;
use crate::signs::Signs;
use crate::words::{named, put_cell, put_counted};
use cell_kinds::{Kind, kinds_of};
use layer_tiles::{Cell, Layer, Tally, Text};
use map_marks::Marks;
use map_nums::NoMemory;
use map_words::Name;
use std::alloc::Global;

/// The labels and the signs of a layer.
#[derive(Drop)]
struct Key<'a> {
    labels: LayerMarks<'a>,
    signs: Signs<'a>,
}

impl<'a> Key<'a> {
    /// A line of a legend.
    fn put_kind(&self, text: &mut Vec<u8>, kind: &Kind) -> Result<(), NoMemory>
        ensures { OnOk result ((labels symbols : List Kept) (n : Word) → IsKey labels symbols n self.now → text.new.items ≡ text.old.items ++ counted_kind n labels symbols kind.now) }
    {
        put_cell(text, kind.cell)?;
        put_counted(text, kind.count as u64)?;
        text.push(b' ')?;
        text.push(self.signs.sign(kind.cell))?;
        put_label(text, self.label(kind.cell))?;
        text.push(b'\n')?;
        Ok(())
    }

    /// The label of a cell; null has none.
    fn label(&self, cell: Cell) -> Option<&'a Text>
        ensures { (labels : List Kept) (n : Word) → AreOf labels n self.now.labels → option_map (λ t. t.now) result ≡ label_of labels n cell }
    {
        match cell.get() {
            None => None,
            Some(value) => self.labels.text(value),
        }
    }

    /// The lines of a legend.
    fn put_kinds(&self, text: &mut Vec<u8>, kinds: &[Kind]) -> Result<(), NoMemory>
        ensures { OnOk result ((labels symbols : List Kept) (n : Word) → IsKey labels symbols n self.now → text.new.items ≡ text.old.items ++ counted_kinds_lines n labels symbols kinds.now) }
    {
        for kind in kinds {
            self.put_kind(text, kind)?;
        }
        Ok(())
    }
}

/// A space and the label, where there is one.
fn put_label(text: &mut Vec<u8>, label: Option<&Text>) -> Result<(), NoMemory>
    ensures { OnOk result (text.new.items ≡ text.old.items ++ label_tail (option_map (λ t. t.now) label.entry)) }
{
    if let Some(label) = label {
        text.push(b' ')?;
        text.extend_from_slice(label.bytes())?;
    }
    Ok(())
}

/// A layer's name and the number of its different cells, and then for each of these a line of the cell, the number of its places,
/// its sign and its label: null first, then ascending. At most 64 looks for each tile. With n cells it takes time of n log n.
pub fn print_legend<M: Tally>(
    alloc: Global,
    name: &Name,
    layer: &Layer,
    labels: &Marks,
    symbols: &Marks,
    tally: &mut M,
) -> Result<Vec<u8>, NoMemory>
    ensures text { IfOk result (λ text. text.items ≡ legend_reply name.now layer.now.cells labels.now symbols.now) }
    ensures looks { RisesBy (64 * tiles_in layer.now.size) 0 (M.counts tally.old) (M.counts tally.new) }
{
    let kinds = kinds_of(alloc, layer, tally)?;
    let texts = LayerMarks::of(alloc, labels, name)?;
    let signs = Signs::of(alloc, symbols, name)?;
    let key = Key {
        labels: texts,
        signs,
    };
    let mut text = named(alloc, b"legend ", name)?;
    put_counted(&mut text, kinds.len() as u64)?;
    text.push(b'\n')?;
    key.put_kinds(&mut text, &kinds)?;
    Ok(text)
}
