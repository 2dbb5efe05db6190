//! The words of displays.
ghost use Rattle.std.specs.Prelude.{◌≡◌, ◌++◌, codes, decimal, OnOk, IfOk};
ghost use Rattle.statement_parser.specs.Canonical.{cell_text};
ghost use Rattle.map_machine.specs.Causes.{counted, counted_twice};

use itoa::Buffer;
use layer_tiles::Cell;
use map_nums::NoMemory;
use map_words::Name;
use std::alloc::Global;

/// A word and a name, with nothing between them.
///
/// # Errors
///
/// `NoMemory` alone.
pub fn named(alloc: Global, word: &[u8], name: &Name) -> Result<Vec<u8>, NoMemory>
    ensures { IfOk result (λ text. text.items ≡ word.now ++ name.now) }
{
    let mut text = Vec::from_slice(alloc, word)?;
    text.extend_from_slice(name.bytes())?;
    Ok(text)
}

/// Writes a number behind a text, which may be left in part where memory is wanted.
///
/// # Errors
///
/// `NoMemory` alone.
pub fn put_number(text: &mut Vec<u8>, number: u64) -> Result<(), NoMemory>
    ensures { OnOk result (text.new.items ≡ text.old.items ++ decimal number) }
{
    text.extend_from_slice(Buffer::new().format(number).as_bytes())?;
    Ok(())
}

/// A space and a number.
pub(crate) fn put_counted(text: &mut Vec<u8>, number: u64) -> Result<(), NoMemory>
    ensures { OnOk result (text.new.items ≡ counted text.old.items number) }
{
    text.push(b' ')?;
    put_number(text, number)?;
    Ok(())
}

pub(crate) fn put_cell(text: &mut Vec<u8>, cell: Cell) -> Result<(), NoMemory>
    ensures { OnOk result (text.new.items ≡ text.old.items ++ cell_text cell) }
{
    match cell.get() {
        None => text.extend_from_slice(b"null")?,
        Some(value) => text.extend_from_slice(Buffer::new().format(value).as_bytes())?,
    }
    Ok(())
}
