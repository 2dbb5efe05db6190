//! Labels that are followed from place to place.
ghost use Rattle.std.specs.Prelude.{◌≡◌, ◌<◌, ◌≤◌, length};
ghost use Rattle.region_labels.specs.Roots.{told_in, root_in, resolved, AreBack};

use crate::kept::Label;
use layer_tiles::Value;

/// The place that a place's label tells: the place itself where it has none.
pub fn told(labels: &[Label], at: u32) -> u32
    requires back { AreBack labels.now }
    requires within { at < length labels.now }
    ensures told { result ≡ told_in labels.now at }
    ensures back { result ≤ at }
{
    match labels[at as usize].get() {
        Some(label) => (label - 1) as u32,
        None => at,
    }
}

/// The place to which labels lead from a place.
pub fn root_of(labels: &[Label], at: u32) -> u32
    requires back { AreBack labels.now }
    requires within { at < length labels.now }
    ensures root { result ≡ root_in labels.now at }
    ensures back { result ≤ at }
{
    let mut root = at;
    let mut next = told(labels, root);
    while next < root {
        root = next;
        next = told(labels, root);
    }
    root
}

/// The number, from 1, of the place to which labels lead; none where a place has no label.
pub fn resolved(labels: &[Label], at: u32) -> Option<Value>
    requires back { AreBack labels.now }
    requires few { length labels.now ≤ 1500000 }
    requires within { at < length labels.now }
    ensures { result ≡ resolved labels.now at }
{
    if labels[at as usize].get().is_none() {
        return None;
    }
    Some(root_of(labels, at) as Value + 1)
}
