//! The graph of names.

ghost use Rattle.std.specs.Prelude.{◌≡◌, ◌+◌, ◌^◌, ◌<◌, ◌++◌, ◌∷◌, [], length, IfOk, OnErr, OnOk, IsFalse, map, option_copied, option_map, slice_get};
ghost use Rattle.map_defs.specs.Nodes.{missing as missing_in};
ghost use Rattle.map_defs.specs.Depths.{depth_of, by_depth};
ghost use Rattle.statement_graph.specs.Groups.{nodes_in, has_group, drop_group};
ghost use Rattle.statement_graph.specs.Puts.{flat_node, flat_nodes, source_node, FitsAs, IsPut};
ghost use Rattle.statement_graph.specs.Wholes.{whole_nodes};

use crate::links::{Links, count_needs};
use crate::node::{Entry, Node};
use crate::ordering::{Wanted, in_order};
use crate::places::{copy_entries, cut_out, group_of, span_of, span_or_end};
use crate::refusal::GraphRefusal;
use crate::row::{BARE, Row, look, need_of, nth_flat, resettle};
use crate::splice::splice;
use map_nums::NoMemory;
use map_words::Name;
use std::alloc::Global;
use std::marker::Model;

/// Sources and statements in order of their first definition, seen as their groups.
#[derive(Drop)]
pub struct Graph {
    entries: Vec<Entry>,
    rows: Vec<Row>,
    /// Room for a round, so that dropping a name takes no memory.
    spare: Vec<Row>,
    /// Room for the first places of names, for the same.
    links: Links,
}

impl Model for Graph {
    ghost use Rattle.std.specs.Prelude.{List};
    ghost use Rattle.statement_graph.specs.Groups.{Group};
    ghost use Rattle.statement_graph.specs.Seats.{groups_of};
    ghost use Rattle.statement_graph.specs.Stores.{IsStored};

    ghost Value = { List Group };

    ghost view = { λ g. groups_of g.entries.items };

    ghost invariant = { λ g. IsStored g.entries.items g.rows.items g.spare.items g.links.firsts.items g.links.needs.items };
}

impl Graph {
    pub fn new(alloc: Global) -> Graph
        ensures { result ≡ [] }
    {
        Graph {
            entries: Vec::new(alloc),
            rows: Vec::new(alloc),
            spare: Vec::new(alloc),
            links: Links::new(alloc),
        }
    }

    pub fn copy(&self, alloc: Global) -> Result<Graph, NoMemory>
        ensures { IfOk result (λ g. g ≡ self.now) }
    {
        let entries = copy_entries(alloc, self.entries.as_slice())?;
        let rows = Vec::from_slice(alloc, self.rows.as_slice())?;
        let spare = Vec::from_slice(alloc, self.spare.as_slice())?;
        let links = self.links.copy(alloc)?;
        Ok(Graph {
            entries,
            rows,
            spare,
            links,
        })
    }

    /// How deep a name stands; none where it isn't there.
    pub fn depth(&self, name: &Name) -> Option<u32>
        ensures { result ≡ depth_of (nodes_in self.now) name.now }
    {
        match look(self.entries.as_slice(), self.rows.as_slice(), name) {
            None => None,
            Some(row) => Some(row.depth),
        }
    }

    /// The first name that a name lacks; none where it lacks none, or isn't there.
    pub fn missing(&self, name: &Name) -> Option<&Name>
        ensures { option_copied result ≡ missing_in (nodes_in self.now) name.now }
    {
        match look(self.entries.as_slice(), self.rows.as_slice(), name) {
            None => None,
            Some(row) => match row.lack {
                None => None,
                Some(place) => need_of(self.entries.as_slice(), place),
            },
        }
    }

    /// The flat statements by depth, then in order of place, from 0.
    pub fn node(&self, k: u32) -> Option<&Node>
        ensures { option_map flat_node (option_copied result) ≡ slice_get (by_depth (nodes_in self.now)) k }
    {
        nth_flat(self.entries.as_slice(), self.rows.as_slice(), k as usize)
    }

    /// All flat statements by depth, then in order of place.
    pub fn ordered(&self, alloc: Global) -> Result<Vec<&Node>, NoMemory>
        ensures { IfOk result (λ v. map (λ b. flat_node b.now) v.items ≡ by_depth (nodes_in self.now)) }
    {
        in_order(
            alloc,
            Wanted::All,
            self.entries.as_slice(),
            self.rows.as_slice(),
        )
    }

    /// The flat statements that lack no name, by depth, then in order of place.
    pub fn whole(&self, alloc: Global) -> Result<Vec<&Node>, NoMemory>
        ensures { IfOk result (λ v. map (λ b. flat_node b.now) v.items ≡ whole_nodes (nodes_in self.now)) }
    {
        in_order(
            alloc,
            Wanted::Whole,
            self.entries.as_slice(),
            self.rows.as_slice(),
        )
    }

    /// A source, after all names that are there.
    pub fn put_source(&mut self, alloc: Global, name: &Name) -> Result<(), NoMemory>
        requires new { IsFalse (has_group self.old name.now) }
        requires few { length (nodes_in self.old) + 2 < 2 ^ 32 }
        ensures ok { OnOk result (self.new ≡ self.old ++ record { name = name.now; nodes = source_node name.now ∷ [] } ∷ []) }
        ensures err { OnErr result (self.new ≡ self.old) }
    {
        let own = name.copy(alloc)?;
        let total = self.entries.len() + 1;
        let needs = count_needs(self.entries.as_slice(), 0)?;
        let mut rows = vec![in alloc; BARE; total]?;
        let mut spare = vec![in alloc; BARE; total]?;
        let mut links = Links::with_room(alloc, total, needs)?;
        self.entries.push(Entry::Source(own))?;
        resettle(
            self.entries.as_slice(),
            name,
            &mut rows,
            &mut spare,
            &mut links,
        );
        self.rows = rows;
        self.spare = spare;
        self.links = links;
        Ok(())
    }

    /// A statement with its flat statements, in the place of an older one with its name, or after all names.
    pub fn put(&mut self, alloc: Global, name: &Name, nodes: Vec<Node>) -> Result<(), GraphRefusal>
        requires { FitsAs self.old name.now (flat_nodes nodes.items) }
        ensures { IsPut self.old self.new name.now (flat_nodes nodes.items) result }
    {
        let fresh = group_of(alloc, nodes)?;
        let span = span_or_end(self.entries.as_slice(), name);
        let total = self.entries.len() - (span.end - span.start) + fresh.len();
        let had_needs = count_needs(self.entries.as_slice(), 0)?;
        let needs = count_needs(fresh.as_slice(), had_needs)?;
        let mut rows = vec![in alloc; BARE; total]?;
        let mut spare = vec![in alloc; BARE; total]?;
        let mut links = Links::with_room(alloc, total, needs)?;
        match splice(
            &mut self.entries,
            name,
            span,
            fresh,
            &mut rows,
            &mut spare,
            &mut links,
        ) {
            Ok(()) => {
                self.rows = rows;
                self.spare = spare;
                self.links = links;
                Ok(())
            }
            Err(refusal) => Err(refusal),
        }
    }

    /// Takes a source or a statement out, with its flat statements.
    pub fn drop_name(&mut self, name: &Name)
        ensures { self.new ≡ drop_group self.old name.now }
    {
        if let Some(span) = span_of(self.entries.as_slice(), name) {
            let total = self.entries.len() - (span.end - span.start);
            cut_out(&mut self.entries, span);
            self.rows.truncate(total);
            self.spare.truncate(total);
            resettle(
                self.entries.as_slice(),
                name,
                &mut self.rows,
                &mut self.spare,
                &mut self.links,
            );
        }
    }
}
