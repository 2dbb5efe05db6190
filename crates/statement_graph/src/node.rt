//! Sources and flat statements, by the names that they need.

ghost use Rattle.std.specs.Prelude.{◌≡◌, IfOk, Some, None, length, option_copied, option_map, unwrap_or, position, bytes_eq, is_some, if◌then◌else◌};

use map_nums::NoMemory;
use map_words::Name;
use std::alloc::Global;

/// A flat statement: its name, and the names that it needs, in written order.
#[derive(Debug, Drop)]
pub struct Node {
    pub name: Name,
    pub needs: Vec<Name>,
}

/// What stands at a place.
#[derive(Drop)]
pub(crate) enum Entry {
    Source(Name),
    /// A flat statement of a call, with more of it to come.
    Inner(Node),
    /// A statement's own flat statement, the last of its call.
    Own(Node),
}

fn copy_names(alloc: Global, names: &[Name]) -> Result<Vec<Name>, NoMemory>
    ensures { IfOk result (λ v. v.items ≡ names.now) }
{
    let mut copies = Vec::new(alloc);
    for name in names {
        copies.push(name.copy(alloc)?)?;
    }
    Ok(copies)
}

impl Node {
    ghost use Rattle.statement_graph.specs.Puts.{flat_node};

    pub(crate) fn copy(&self, alloc: Global) -> Result<Node, NoMemory>
        ensures { IfOk result (λ n. flat_node n ≡ flat_node self.now) }
    {
        let name = self.name.copy(alloc)?;
        let needs = copy_names(alloc, self.needs.as_slice())?;
        Ok(Node { name, needs })
    }
}

impl Entry {
    ghost use Rattle.statement_graph.specs.Puts.{flat_node};
    ghost use Rattle.statement_graph.specs.Seats.{seat_of, node_at, name_at};
    ghost use Rattle.statement_graph.specs.Tables.{needs_at, flat_depth};

    pub(crate) fn name(&self) -> &Name
        ensures { result.now ≡ name_at self.now }
    {
        match self {
            Entry::Source(name) => name,
            Entry::Inner(node) => &node.name,
            Entry::Own(node) => &node.name,
        }
    }

    /// The flat statement, where it is one.
    pub(crate) fn flat(&self) -> Option<&Node>
        ensures { option_map flat_node (option_copied result) ≡ (if is_some (node_at self.now).needs then Some (node_at self.now) else None) }
    {
        match self {
            Entry::Source(_) => None,
            Entry::Inner(node) => Some(node),
            Entry::Own(node) => Some(node),
        }
    }

    pub(crate) fn needs(&self) -> &[Name]
        ensures { result.now ≡ needs_at (node_at self.now) }
    {
        match self {
            Entry::Source(_) => &[],
            Entry::Inner(node) => node.needs.as_slice(),
            Entry::Own(node) => node.needs.as_slice(),
        }
    }

    /// Whether it is a flat statement.
    pub(crate) fn is_flat(&self) -> bool
        ensures { result ≡ is_some (node_at self.now).needs }
    {
        match self {
            Entry::Source(_) => false,
            Entry::Inner(_) => true,
            Entry::Own(_) => true,
        }
    }

    /// Its depth where what it needs has none.
    pub(crate) fn first_depth(&self) -> u32
        ensures { result ≡ flat_depth (node_at self.now).needs }
    {
        match self {
            Entry::Source(_) => 0,
            Entry::Inner(_) => 1,
            Entry::Own(_) => 1,
        }
    }

    /// Whether a group ends with it.
    pub(crate) fn ends(&self) -> bool
        ensures { result ≡ (seat_of self.now).ends }
    {
        match self {
            Entry::Source(_) => true,
            Entry::Inner(_) => false,
            Entry::Own(_) => true,
        }
    }

    pub(crate) fn copy(&self, alloc: Global) -> Result<Entry, NoMemory>
        ensures { IfOk result (λ e. seat_of e ≡ seat_of self.now) }
    {
        match self {
            Entry::Source(name) => Ok(Entry::Source(name.copy(alloc)?)),
            Entry::Inner(node) => Ok(Entry::Inner(node.copy(alloc)?)),
            Entry::Own(node) => Ok(Entry::Own(node.copy(alloc)?)),
        }
    }
}
