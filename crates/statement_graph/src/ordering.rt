//! The flat statements in one list, by depth, then in order of place.

ghost use Rattle.std.specs.Prelude.{◌≡◌, ◌+◌, ◌^◌, ◌<◌, ◌++◌, ◌&&◌, ◌==◌, length, map, filter, fold, max, is_some, option_map, option_copied, Some, None, if◌then◌else◌, IfOk, OnOk};
ghost use Rattle.map_defs.specs.Nodes.{Node as Defined};
ghost use Rattle.map_defs.specs.Depths.{by_depth};
ghost use Rattle.statement_graph.specs.Puts.{flat_node};
ghost use Rattle.statement_graph.specs.Seats.{nodes_at, node_at};
ghost use Rattle.statement_graph.specs.Tables.{shown, kept, kept_at};
ghost use Rattle.statement_graph.specs.Walks.{at_depth};
ghost use Rattle.statement_graph.specs.Wholes.{takes, is_taken};

use crate::node::{Entry, Node};
use crate::row::{Row, flat_at};
use map_nums::NoMemory;
use std::alloc::Global;

/// Which flat statements are listed.
#[derive(Clone, Copy)]
pub(crate) enum Wanted {
    All,
    /// Those that lack no name.
    Whole,
}

impl Wanted {
    ghost use Rattle.statement_graph.specs.Wholes.{takes};

    fn takes(self, row: Row) -> bool
        ensures { result ≡ takes self (is_some row.lack) }
    {
        match self {
            Wanted::All => true,
            Wanted::Whole => row.lack.is_none(),
        }
    }
}

/// The greatest depth.
fn deepest(rows: &[Row]) -> u32
    ensures { result ≡ fold (λ d r. max d r.depth) 0 rows.now }
{
    let mut depth = 0;
    for row in rows {
        depth = depth.max(row.depth);
    }
    depth
}

/// The flat statement of a place, where it is a wanted one of this depth.
fn wanted_at(wanted: Wanted, entry: &Entry, row: Row, depth: u32) -> Option<&Node>
    ensures { option_map flat_node (option_copied result)
        ≡ (if takes wanted (is_some row.lack) && (is_some (node_at entry.now).needs && (row.depth == depth)) then Some (node_at entry.now) else None) }
{
    if wanted.takes(row) {
        flat_at(entry, row, depth)
    } else {
        None
    }
}

/// Adds the wanted flat statements of one depth.
fn push_depth<'a>(
    wanted: Wanted,
    entries: &'a [Entry],
    rows: &[Row],
    depth: u32,
    found: &mut Vec<&'a Node>,
) -> Result<(), NoMemory>
    requires rows_are { length rows.now ≡ length entries.now }
    requires table { map (λ r. kept (shown (nodes_at entries.now) r)) rows.now ≡ map (λ (node : Defined). kept_at (nodes_at entries.now) node.name) (nodes_at entries.now) }
    ensures { OnOk result (map (λ b. flat_node b.now) found.new.items
        ≡ map (λ b. flat_node b.now) found.old.items ++ filter (is_taken wanted (nodes_at entries.now)) (at_depth (nodes_at entries.now) depth)) }
{
    for at in 0..entries.len() {
        if let Some(node) = wanted_at(wanted, &entries[at], rows[at], depth) {
            found.push(node)?;
        }
    }
    Ok(())
}

/// The wanted flat statements.
pub(crate) fn in_order<'a>(
    alloc: Global,
    wanted: Wanted,
    entries: &'a [Entry],
    rows: &[Row],
) -> Result<Vec<&'a Node>, NoMemory>
    requires few { length entries.now + 1 < 2 ^ 32 }
    requires rows_are { length rows.now ≡ length entries.now }
    requires table { map (λ r. kept (shown (nodes_at entries.now) r)) rows.now ≡ map (λ (node : Defined). kept_at (nodes_at entries.now) node.name) (nodes_at entries.now) }
    ensures { IfOk result (λ v. map (λ b. flat_node b.now) v.items ≡ filter (is_taken wanted (nodes_at entries.now)) (by_depth (nodes_at entries.now))) }
{
    let mut found = Vec::with_capacity(alloc, entries.len())?;
    let depths = entries.len().min(deepest(rows) as usize);
    for above in 0..depths {
        push_depth(wanted, entries, rows, above as u32 + 1, &mut found)?;
    }
    Ok(found)
}
