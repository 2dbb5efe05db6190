//! All labels of a map, or all symbols.
ghost use Rattle.std.specs.Prelude.{◌≡◌, ◌<◌, [], length, map, drop, option_map, slice_get, bytes_eq, IfOk, IfErr, IfSome, IfNone, OnOk, OnErr};
ghost use Rattle.std.specs.List.{list_any};
ghost use Rattle.map_edits.specs.Marks.{find_mark, put_mark, drop_marks};
ghost use Rattle.map_marks.specs.Views.{mark_of};
ghost use Rattle.map_marks.specs.Taken.{given_back};

use crate::mark::Mark;
use crate::taken::{Taken, put_at, put_back, take_out};
use layer_tiles::Text;
use map_nums::{NoMemory, Value};
use map_words::Name;
use std::alloc::Global;
use std::marker::Model;

/// The labels or the symbols of a map, the latest first; at most one for each value of a layer.
#[derive(Drop)]
pub struct Marks {
    kept: Vec<Mark>,
}

impl Model for Marks {
    ghost use Rattle.std.specs.Prelude.{List, map};
    ghost use Rattle.map_edits.specs.Marks.{Mark as Kept};
    ghost use Rattle.map_marks.specs.Views.{mark_of};

    ghost Value = { List Kept };

    ghost view = { λ m. map mark_of m.kept.items };
}

impl Marks {
    /// No marks. It takes no memory.
    pub fn new(alloc: Global) -> Marks
        ensures { result ≡ [] }
    {
        Marks {
            kept: Vec::new(alloc),
        }
    }

    pub fn count(&self) -> usize
        ensures { result ≡ length self.now }
    {
        self.kept.len()
    }

    /// How many there would be with one for a value of a layer: one that it replaces isn't counted.
    pub fn count_with(&self, name: &Name, value: Value) -> usize
        ensures { result ≡ length (put_mark self.now name.now value []) }
    {
        let mut count = 1;
        for mark in &self.kept {
            if !mark.is(name, value) {
                count += 1;
            }
        }
        count
    }

    /// All of them.
    pub fn all(&self) -> &[Mark]
        ensures { map mark_of result.now ≡ self.now }
    {
        &self.kept
    }

    /// The mark at a place, counted from 0, none past the last.
    pub fn get(&self, place: usize) -> Option<&Mark>
        ensures { option_map (λ mark. mark_of mark.now) result ≡ slice_get self.now place }
    {
        self.kept.get(place)
    }

    /// What stands for a value of a layer, none where nothing does. It goes through the marks, from the latest on.
    pub fn find(&self, name: &Name, value: Value) -> Option<&Text>
        ensures { option_map (λ text. text.now) result ≡ find_mark self.now name.now value }
    {
        for mark in &self.kept {
            if mark.is(name, value) {
                return Some(&mark.text);
            }
        }
        None
    }

    /// Puts a mark before the others, in place of one for the same value of the layer. Where memory is wanted all is as before.
    pub fn put(&mut self, mark: Mark) -> Result<(), NoMemory>
        ensures put { OnOk result (self.new ≡ put_mark self.old mark.name mark.value mark.text) }
        ensures kept { OnErr result (self.new ≡ self.old) }
    {
        self.exchange(mark)?;
        Ok(())
    }

    /// Puts a mark before the others and hands out what it replaces: marks for the same value of the layer, with their places.
    /// Where memory is wanted all is as before.
    pub fn exchange(&mut self, mark: Mark) -> Result<Vec<Taken>, NoMemory>
        ensures put { OnOk result (self.new ≡ put_mark self.old mark.name mark.value mark.text) }
        ensures back { IfOk result (λ taken. given_back (drop 1 self.new) taken.items ≡ self.old) }
        ensures kept { OnErr result (self.new ≡ self.old) }
    {
        let replaced = self.count() - (self.count_with(&mark.name, mark.value) - 1);
        let mut taken = Vec::with_capacity(*self.kept.allocator(), replaced)?;
        self.kept.reserve(1)?;
        take_out(&mut self.kept, &mark.name, mark.value, &mut taken);
        put_at(&mut self.kept, 0, mark);
        Ok(taken)
    }

    /// Takes the first mark out and gives back what it had replaced. Where memory is wanted all is as before, and the marks come back.
    pub fn give_back(&mut self, taken: Vec<Taken>) -> Result<(), Vec<Taken>>
        requires { 0 < length self.old }
        ensures given { OnOk result (self.new ≡ given_back (drop 1 self.old) taken.items) }
        ensures back { IfErr result (λ back. back ≡ taken) }
        ensures kept { OnErr result (self.new ≡ self.old) }
    {
        if self.kept.reserve(taken.len().saturating_sub(1)).is_err() {
            return Err(taken);
        }
        self.kept.remove(0);
        put_back(&mut self.kept, taken);
        Ok(())
    }

    /// The marks without those of a layer; nothing where it has none.
    pub fn without(&self, alloc: Global, name: &Name) -> Result<Option<Marks>, NoMemory>
        ensures some { IfOk result (λ left. IfSome left (λ marks. marks ≡ drop_marks self.now name.now)) }
        ensures fewer { IfOk result (λ left. IfSome left (λ marks. length marks < length self.now)) }
        ensures none { IfOk result (λ left. IfNone left (drop_marks self.now name.now ≡ self.now)) }
    {
        if !has_name(&self.kept, name) {
            return Ok(None);
        }
        let mut kept = Vec::with_capacity(alloc, self.kept.len())?;
        for mark in &self.kept {
            if mark.name != *name {
                kept.push(mark.copy(alloc)?)?;
            }
        }
        Ok(Some(Marks { kept }))
    }

    /// Takes out the marks of a layer.
    pub fn drop_name(&mut self, name: &Name)
        ensures { self.new ≡ drop_marks self.old name.now }
    {
        self.kept.retain(|mark| mark.name != *name);
    }

    pub fn copy(&self, alloc: Global) -> Result<Marks, NoMemory>
        ensures { IfOk result (λ marks. marks ≡ self.now) }
    {
        let mut kept = Vec::with_capacity(alloc, self.kept.len())?;
        for mark in &self.kept {
            kept.push(mark.copy(alloc)?)?;
        }
        Ok(Marks { kept })
    }
}

/// Whether one of these marks is of a layer.
fn has_name(marks: &[Mark], name: &Name) -> bool
    ensures { result ≡ list_any (λ m. bytes_eq m.name name.now) marks.now }
{
    marks.iter().any(|mark| mark.name == *name)
}
