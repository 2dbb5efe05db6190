//! One label or symbol.
ghost use Rattle.std.specs.Prelude.{◌≡◌, IfOk};
ghost use Rattle.map_edits.specs.Marks.{is_mark};
ghost use Rattle.map_marks.specs.Views.{mark_of};

use layer_tiles::Text;
use map_nums::{NoMemory, Value};
use map_words::Name;
use std::alloc::Global;

/// The text of a label, or the one byte of a symbol, for a value of a layer.
#[derive(Drop)]
pub struct Mark {
    pub name: Name,
    pub value: Value,
    pub text: Text,
}

impl Mark {
    /// Whether it stands for a value of a layer.
    pub fn is(&self, name: &Name, value: Value) -> bool
        ensures { result ≡ is_mark name.now value (mark_of self.now) }
    {
        self.name == *name && self.value == value
    }

    pub fn copy(&self, alloc: Global) -> Result<Mark, NoMemory>
        ensures { IfOk result (λ mark. mark ≡ self.now) }
    {
        Ok(Mark {
            name: self.name.copy(alloc)?,
            value: self.value,
            text: Text::of(alloc, self.text.bytes())?,
        })
    }
}
