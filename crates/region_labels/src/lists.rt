//! Labels of a map that had none, all in one list.
ghost use Rattle.std.specs.Prelude.{◌≡◌, ◌<◌, ◌≤◌, ◌++◌, ◌∷◌, [], length, replicate, slice_set, is_some, IfOk, OnOk, OnErr, None};
ghost use Rattle.map_nums.specs.Grids.{IsSize, cells_in, cell_at};
ghost use Rattle.region_labels.specs.Runs.{IsBareFrom, IsRunIn};

use crate::kept::Label;
use layer_tiles::{Extent, NoMemory};
use std::alloc::Global;
use std::marker::Model;

/// The labels so far, none where there is none yet, and the places of the region in hand in the order in which they were
/// reached.
#[derive(Drop)]
pub struct LabelList {
    extent: Extent,
    labels: Vec<Label>,
    found: Vec<u32>,
}

impl Model for LabelList {
    ghost use Rattle.std.specs.Prelude.{◌≡◌, length};
    ghost use Rattle.map_nums.specs.Grids.{IsSize, cells_in};
    ghost use Rattle.region_labels.specs.Lists.{ListState};

    ghost Value = { ListState };

    ghost view = { λ l. record { size = l.extent; labels = l.labels.items; found = l.found.items } };

    ghost invariant = { λ l. IsSize l.extent × (length l.labels.items ≡ cells_in l.extent) };
}

impl LabelList {
    /// No place has a label.
    pub fn new(alloc: Global, extent: Extent) -> Result<LabelList, NoMemory>
        ensures { IfOk result (λ list. list ≡ record { size = extent; labels = replicate (cells_in extent) None; found = [] }) }
    {
        let count = extent.cells() as usize;
        let labels = vec![in alloc; Label::none(); count]?;
        Ok(LabelList {
            extent,
            labels,
            found: Vec::new(alloc),
        })
    }

    /// The size of the grid.
    pub fn extent(&self) -> Extent
        ensures extent { result ≡ self.now.size }
        ensures size { IsSize self.now.size }
        ensures count { length self.now.labels ≡ cells_in self.now.size }
    {
        self.extent
    }

    /// Whether a place has a label.
    pub fn has(&self, at: u32) -> bool
        requires { at < length self.now.labels }
        ensures { result ≡ is_some (cell_at self.now.labels at) }
    {
        self.labels[at as usize].get().is_some()
    }

    /// The first place from `at` on that has no label, before `end`; `end` where each has one.
    pub fn bare_from(&self, at: u32, end: u32) -> u32
        requires some { at ≤ end }
        requires within { end ≤ length self.now.labels }
        ensures { IsBareFrom self.now.labels at end result }
    {
        for j in at..end {
            if !self.has(j) {
                return j;
            }
        }
        end
    }

    /// One more place of the region in hand, with its label.
    pub fn add(&mut self, at: u32, label: Label) -> Result<(), NoMemory>
        requires { at < length self.old.labels }
        ensures ok { OnOk result (self.new ≡ record self.old { labels = slice_set self.old.labels at label; found = self.old.found ++ at ∷ [] }) }
        ensures err { OnErr result (self.new ≡ self.old) }
    {
        let _label = label.get();
        self.found.push(at)?;
        self.labels[at as usize] = label;
        Ok(())
    }

    /// How many places of the region in hand, from one on, follow one another; at most as many as are asked for.
    pub fn run_from(&self, head: usize, most: u32) -> u32
        requires within { head < length self.now.found }
        requires some { 0 < most }
        ensures run { IsRunIn self.now.found head result }
        ensures most { result ≤ most }
    {
        let at = self.found[head] as u64;
        for count in 1..most {
            let next = head + count as usize;
            if next >= self.found.len() {
                return count;
            }
            if self.found[next] as u64 != at + count as u64 {
                return count;
            }
        }
        most
    }

    /// A next region is in hand.
    pub fn clear(&mut self)
        ensures { self.new ≡ record self.old { found = [] } }
    {
        self.found.clear();
    }

    /// The places of the region in hand.
    pub fn found(&self) -> &[u32]
        ensures { result.now ≡ self.now.found }
    {
        &self.found
    }

    /// The labels, handed over.
    pub fn into_labels(self) -> Vec<Label>
        ensures { result.items ≡ self.labels }
    {
        let LabelList { labels, .. } = self;
        labels
    }
}
