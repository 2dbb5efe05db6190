//! The signs of the cells of a layer.
ghost use Rattle.std.specs.Prelude.{◌≡◌, ℕ, ℤ, List, option_map, IfOk};
ghost use Rattle.map_defs.specs.Ops.{Name as Word};
ghost use Rattle.map_edits.specs.Marks.{Mark as Kept};
ghost use Rattle.map_machine.specs.Signs.{plain_sign, sign_by, sign_of};
ghost use Rattle.map_display.specs.OfLayer.{AreOf, AreSigns};

use crate::layer_marks::LayerMarks;
use layer_tiles::{Cell, Text};
use map_marks::Marks;
use map_nums::{NoMemory, Value};
use map_words::Name;
use std::alloc::Global;

/// Of so many first numbers the signs stand in a table.
const TABLED: u32 = 1024;

/// The sign of each cell of a layer: its symbol's, or a plain one.
#[derive(Drop)]
pub(crate) struct Signs<'a> {
    marks: LayerMarks<'a>,
    table: Vec<u8>,
}

impl<'a> Signs<'a> {
    /// The signs of a layer by all symbols.
    pub(crate) fn of(alloc: Global, symbols: &'a Marks, name: &Name) -> Result<Signs<'a>, NoMemory>
        ensures { IfOk result (AreSigns symbols.now name.now) }
    {
        let marks = LayerMarks::of(alloc, symbols, name)?;
        let mut table = Vec::with_capacity(alloc, TABLED as usize)?;
        let mut value: Value = 0;
        for number in 0..TABLED {
            table.push(looked_up(&marks, value))?;
            value += 1;
        }
        Ok(Signs { marks, table })
    }

    pub(crate) fn sign(&self, cell: Cell) -> u8
        ensures { (symbols : List Kept) (n : Word) → AreSigns symbols n self.now → result ≡ sign_of symbols n cell }
    {
        match cell.get() {
            None => b'.',
            Some(value) if 0 <= value && (value as usize) < self.table.len() => {
                self.table[value as usize]
            }
            Some(value) => looked_up(&self.marks, value),
        }
    }
}

/// The sign of a value.
fn looked_up(marks: &LayerMarks<'_>, value: Value) -> u8
    ensures { (symbols : List Kept) (n : Word) → AreOf symbols n marks.now → result ≡ sign_of symbols n (Some value) }
{
    sign_by(marks.text(value), value)
}

/// The first byte of a symbol, a plain sign where there is none.
fn sign_by(text: Option<&Text>, value: Value) -> u8
    ensures { result ≡ sign_by (option_map (λ t. t.now) text.entry) value }
{
    match text {
        None => plain_sign(value),
        Some(text) => match text.bytes() {
            [] => plain_sign(value),
            [sign, ..] => *sign,
        },
    }
}

/// The digit of 0 to 9, `*` above and `-` below.
fn plain_sign(value: Value) -> u8
    ensures { result ≡ plain_sign value }
{
    match value {
        0..=9 => b'0' + value as u8,
        10.. => b'*',
        _ => b'-',
    }
}
