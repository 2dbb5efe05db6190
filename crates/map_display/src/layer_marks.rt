//! The marks of one layer.
ghost use Rattle.std.specs.Prelude.{◌≡◌, List, option_map, IfOk};
ghost use Rattle.map_defs.specs.Ops.{Name as Word};
ghost use Rattle.map_edits.specs.Marks.{Mark as Kept, find_mark};
ghost use Rattle.map_display.specs.OfLayer.{AreOf};

use layer_tiles::Text;
use map_marks::Marks;
use map_nums::{NoMemory, Value};
use map_words::Name;
use std::alloc::Global;
use std::collections::HashMap;

/// What stands for each value of a layer.
#[derive(Drop)]
pub(crate) struct LayerMarks<'a> {
    texts: HashMap<Value, &'a Text>,
}

impl<'a> LayerMarks<'a> {
    /// The marks of a layer among all.
    pub(crate) fn of(
        alloc: Global,
        marks: &'a Marks,
        name: &Name,
    ) -> Result<LayerMarks<'a>, NoMemory>
        ensures { IfOk result (AreOf marks.now name.now) }
    {
        let mut texts = HashMap::new(alloc);
        for mark in marks.all() {
            let _value = mark.value;
            if mark.name != *name {
                continue;
            }
            if !texts.contains_key(&mark.value) {
                texts.insert(mark.value, &mark.text)?;
            }
        }
        Ok(LayerMarks { texts })
    }

    /// What stands for a value, none where nothing does.
    pub(crate) fn text(&self, value: Value) -> Option<&'a Text>
        ensures { (marks : List Kept) (n : Word) → AreOf marks n self.now → option_map (λ t. t.now) result ≡ find_mark marks n value }
    {
        self.texts.get(&value).copied()
    }
}
