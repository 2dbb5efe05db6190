//! For each place its depth and its first missing name, found in rounds over all places.

ghost use Rattle.std.specs.Prelude.{◌≡◌, ℕ, suc, IfSome, ◌+◌, ◌^◌, ◌<◌, ◌≤◌, IfOk, Some, None, length, option_copied, option_map, map, fold, max, ◌||◌, bytes_eq, slice_get, All, is_some, ◌&&◌, ◌==◌, if◌then◌else◌, take, unwrap_or, IsTrue, ◌↔◌};
ghost use Rattle.std.specs.Bool.{OnTrue};
ghost use Rattle.std.specs.List.{list_any};
ghost use Rattle.std.specs.Option.{option_or, option_and_then};
ghost use Rattle.map_defs.specs.Nodes.{Node as Defined};
ghost use Rattle.map_defs.specs.Depths.{is_looped as is_looped_in, by_depth};
ghost use Rattle.statement_graph.specs.Puts.{flat_node};
ghost use Rattle.statement_graph.specs.Seats.{nodes_at, node_at, name_at};
ghost use Rattle.statement_graph.specs.Walks.{IsNth, at_depth};
ghost use Rattle.statement_graph.specs.Links.{all_needs, IsLinkedFrom, IsFirstTo, IsLinked, HasRoom};
ghost use Rattle.statement_graph.specs.Tables.{shown, shown_all, table_at, place_of as place_in, seen, joined as joined_shown, gathered as gathered_by, step_of, need_at, kept, kept_at};

use crate::links::Links;
use crate::node::{Entry, Node};
use crate::places::place_of;
use map_words::Name;

/// A need of the flat statement at a place.
#[derive(Clone, Copy, Debug)]
pub(crate) struct Place {
    pub(crate) node: usize,
    pub(crate) need: usize,
}

/// What is known of a place.
#[derive(Clone, Copy, Debug)]
pub(crate) struct Row {
    pub(crate) depth: u32,
    /// The need that is its first missing name.
    pub(crate) lack: Option<Place>,
    /// Whether the name is reached from it that the rounds were for.
    pub(crate) reached: bool,
}

/// What a place has that needs nothing.
pub(crate) const BARE: Row = Row {
    depth: 0,
    lack: None,
    reached: false,
};

/// The row of a name, where it is there.
pub(crate) fn look(entries: &[Entry], rows: &[Row], name: &Name) -> Option<Row>
    requires { length rows.now ≡ length entries.now }
    ensures { result ≡ option_and_then (slice_get rows.now) (place_in (nodes_at entries.now) name.now) }
{
    match place_of(entries, name) {
        None => None,
        Some(at) => Some(rows[at]),
    }
}

/// What a need with this first place adds to what needs it.
fn seen(rows: &[Row], name: &Name, place: Place, need: &Name, link: Option<usize>) -> Row
    ensures { result ≡ unwrap_or (option_and_then (slice_get rows.now) link) (record { depth = 0; lack = Some place; reached = bytes_eq need.now name.now }) }
{
    let row = match link {
        None => None,
        Some(at) => rows.get(at),
    };
    match row {
        None => Row {
            depth: 0,
            lack: Some(place),
            reached: *need == *name,
        },
        Some(row) => *row,
    }
}

/// The greater depth, the first missing name, and whether either reaches the name.
fn joined(one: Row, other: Row) -> Row
    ensures { result ≡ record { depth = max one.depth other.depth; lack = option_or one.lack other.lack; reached = one.reached || other.reached } }
{
    Row {
        depth: one.depth.max(other.depth),
        lack: one.lack.or(other.lack),
        reached: one.reached || other.reached,
    }
}

/// What the needs of a place add to it; `start` is where the links of its needs start.
fn gathered(
    entries: &[Entry],
    links: &[Option<usize>],
    rows: &[Row],
    name: &Name,
    at: usize,
    start: usize,
) -> Row
    requires shallow { All (λ r. r.depth + 1 < 2 ^ 32) rows.now }
    requires within { at < length entries.now }
    requires room { length (all_needs (nodes_at entries.now)) ≤ length links.now }
    requires linked { IsLinkedFrom (nodes_at entries.now) 0 (all_needs (nodes_at entries.now)) links.now }
    requires starts { start ≡ length (all_needs (take at (nodes_at entries.now))) }
    ensures shown { IfSome (slice_get (nodes_at entries.now) at)
        (λ node. shown (nodes_at entries.now) result ≡ gathered_by (nodes_at entries.now) (shown_all (nodes_at entries.now) rows.now) name.now node) }
    ensures shallow { result.depth + 1 < 2 ^ 32 }
{
    let entry = &entries[at];
    let mut row = Row {
        depth: 0,
        lack: None,
        reached: *entry.name() == *name,
    };
    let needs = entry.needs();
    for (k, need) in needs.iter().enumerate() {
        row = joined(
            row,
            seen(
                rows,
                name,
                Place { node: at, need: k },
                need,
                links[start + k],
            ),
        );
    }
    row
}

/// The row of a place by the rows of the round before.
fn row_of(
    entries: &[Entry],
    links: &[Option<usize>],
    rows: &[Row],
    name: &Name,
    at: usize,
    start: usize,
) -> Row
    requires shallow { All (λ r. r.depth + 1 < 2 ^ 32) rows.now }
    requires within { at < length entries.now }
    requires room { length (all_needs (nodes_at entries.now)) ≤ length links.now }
    requires linked { IsLinkedFrom (nodes_at entries.now) 0 (all_needs (nodes_at entries.now)) links.now }
    requires starts { start ≡ length (all_needs (take at (nodes_at entries.now))) }
    ensures { IfSome (slice_get (nodes_at entries.now) at)
        (λ node. shown (nodes_at entries.now) result ≡ step_of (nodes_at entries.now) (shown_all (nodes_at entries.now) rows.now) name.now node) }
{
    let row = gathered(entries, links, rows, name, at, start);
    if entries[at].is_flat() {
        return Row {
            depth: row.depth + 1,
            lack: row.lack,
            reached: row.reached,
        };
    }
    row
}

/// The rows within one step.
fn first_rows(entries: &[Entry], firsts: &[usize], name: &Name, rows: &mut [Row])
    requires rows_are { length rows.old ≡ length entries.now }
    requires room { length entries.now ≤ length firsts.now }
    requires firsts { IsFirstTo (nodes_at entries.now) (length entries.now) firsts.now }
    ensures { shown_all (nodes_at entries.now) rows.new ≡ table_at 0 (nodes_at entries.now) name.now }
{
    for at in 0..entries.len() {
        let entry = &entries[firsts[at]];
        rows[at] = Row {
            depth: entry.first_depth(),
            lack: None,
            reached: *entry.name() == *name,
        };
    }
}

/// The rows within one step more.
fn next_rows(
    entries: &[Entry],
    firsts: &[usize],
    links: &[Option<usize>],
    name: &Name,
    rows: &[Row],
    next: &mut [Row],
)
    requires next_are { length next.old ≡ length entries.now }
    requires shallow { All (λ r. r.depth + 1 < 2 ^ 32) rows.now }
    requires room { HasRoom (nodes_at entries.now) firsts.now links.now }
    requires linked { IsLinked (nodes_at entries.now) firsts.now links.now }
    ensures { (k : ℕ) → shown_all (nodes_at entries.now) rows.now ≡ table_at k (nodes_at entries.now) name.now
        → shown_all (nodes_at entries.now) next.new ≡ table_at (suc k) (nodes_at entries.now) name.now }
{
    let mut start = 0;
    for at in 0..entries.len() {
        let first = firsts[at];
        next[at] = if first < at {
            next[first]
        } else {
            row_of(entries, links, rows, name, at, start)
        };
        start += entries[at].needs().len();
    }
}

/// Whether two are one place, or both none.
fn same_lack(one: Option<Place>, other: Option<Place>) -> bool
    ensures { IsTrue result ↔ (one ≡ other) }
{
    match (one, other) {
        (None, None) => true,
        (Some(one), Some(other)) => one.node == other.node && one.need == other.need,
        _ => false,
    }
}

/// Whether a round changed nothing.
fn are_same(rows: &[Row], next: &[Row]) -> bool
    requires { length next.now ≡ length rows.now }
    ensures { OnTrue result (next.now ≡ rows.now) }
{
    for at in 0..rows.len() {
        let (row, then) = (rows[at], next[at]);
        if row.depth != then.depth
            || row.reached != then.reached
            || !same_lack(row.lack, then.lack)
        {
            return false;
        }
    }
    true
}

/// The rows of all places, within as many steps as there are places; `spare` is room for a round. A round that changes
/// nothing is the last.
fn settle(
    entries: &[Entry],
    firsts: &[usize],
    links: &[Option<usize>],
    name: &Name,
    rows: &mut [Row],
    spare: &mut [Row],
)
    requires few { length entries.now + 1 < 2 ^ 32 }
    requires rows_are { length rows.old ≡ length entries.now }
    requires spare_are { length spare.old ≡ length entries.now }
    requires room { HasRoom (nodes_at entries.now) firsts.now links.now }
    requires linked { IsLinked (nodes_at entries.now) firsts.now links.now }
    ensures { shown_all (nodes_at entries.now) rows.new ≡ table_at (length entries.now) (nodes_at entries.now) name.now }
{
    first_rows(entries, firsts, name, rows);
    for _round in 0..entries.len() {
        next_rows(entries, firsts, links, name, rows, spare);
        if are_same(rows, spare) {
            return;
        }
        rows.copy_from_slice(spare);
    }
}

/// Settles tables.
pub(crate) fn resettle(
    entries: &[Entry],
    name: &Name,
    rows: &mut Vec<Row>,
    spare: &mut Vec<Row>,
    links: &mut Links,
)
    requires few { length entries.now + 1 < 2 ^ 32 }
    requires rows_are { length rows.old.items ≡ length entries.now }
    requires spare_are { length spare.old.items ≡ length entries.now }
    requires room { HasRoom (nodes_at entries.now) links.old.firsts.items links.old.needs.items }
    ensures table { shown_all (nodes_at entries.now) rows.new.items ≡ table_at (length entries.now) (nodes_at entries.now) name.now }
    ensures rows_are { length rows.new.items ≡ length entries.now }
    ensures spare_are { length spare.new.items ≡ length entries.now }
    ensures room { HasRoom (nodes_at entries.now) links.new.firsts.items links.new.needs.items }
{
    links.relink(entries);
    settle(
        entries,
        links.firsts.as_slice(),
        links.needs.as_slice(),
        name,
        rows.as_mut_slice(),
        spare.as_mut_slice(),
    );
}

/// Whether the name is reached from a need.
fn reaches(entries: &[Entry], rows: &[Row], name: &Name, need: &Name) -> bool
    requires { length rows.now ≡ length entries.now }
    ensures { result ≡ (seen (nodes_at entries.now) (shown_all (nodes_at entries.now) rows.now) name.now need.now).reached }
{
    match look(entries, rows, need) {
        None => *need == *name,
        Some(row) => row.reached,
    }
}

/// Whether the name is reached from any of some needs.
fn any_reaches(entries: &[Entry], rows: &[Row], name: &Name, needs: &[Name]) -> bool
    requires { length rows.now ≡ length entries.now }
    ensures { result ≡ list_any (λ m. (seen (nodes_at entries.now) (shown_all (nodes_at entries.now) rows.now) name.now m).reached) needs.now }
{
    for need in needs {
        if reaches(entries, rows, name, need) {
            return true;
        }
    }
    false
}

/// Whether the name is reached from its own needs.
pub(crate) fn is_looped(entries: &[Entry], rows: &[Row], name: &Name) -> bool
    requires rows_are { length rows.now ≡ length entries.now }
    requires table { shown_all (nodes_at entries.now) rows.now ≡ table_at (length entries.now) (nodes_at entries.now) name.now }
    ensures { result ≡ is_looped_in (nodes_at entries.now) name.now }
{
    match place_of(entries, name) {
        None => false,
        Some(at) => any_reaches(entries, rows, name, entries[at].needs()),
    }
}

/// The flat statement at a place among some, or how far past their end the place is.
pub(crate) enum Nth<'a> {
    Found(&'a Node),
    Left(usize),
}

/// The flat statement of a place, where it is one of this depth.
pub(crate) fn flat_at(entry: &Entry, row: Row, depth: u32) -> Option<&Node>
    ensures { option_map flat_node (option_copied result) ≡ (if is_some (node_at entry.now).needs && (row.depth == depth) then Some (node_at entry.now) else None) }
{
    if row.depth == depth {
        entry.flat()
    } else {
        None
    }
}

/// The flat statement at a place among those of one depth.
pub(crate) fn nth_at_depth<'a>(
    entries: &'a [Entry],
    rows: &[Row],
    depth: u32,
    place: usize,
) -> Nth<'a>
    requires rows_are { length rows.now ≡ length entries.now }
    requires table { map (λ r. kept (shown (nodes_at entries.now) r)) rows.now ≡ map (λ (node : Defined). kept_at (nodes_at entries.now) node.name) (nodes_at entries.now) }
    ensures { IsNth result (at_depth (nodes_at entries.now) depth) place }
{
    let mut left = place;
    for at in 0..entries.len() {
        let Some(node) = flat_at(&entries[at], rows[at], depth) else {
            continue;
        };
        if left == 0 {
            return Nth::Found(node);
        }
        left -= 1;
    }
    Nth::Left(left)
}

/// The flat statement at a place among all, by depth and then in order.
pub(crate) fn nth_flat<'a>(entries: &'a [Entry], rows: &[Row], place: usize) -> Option<&'a Node>
    requires few { length entries.now + 1 < 2 ^ 32 }
    requires rows_are { length rows.now ≡ length entries.now }
    requires table { map (λ r. kept (shown (nodes_at entries.now) r)) rows.now ≡ map (λ (node : Defined). kept_at (nodes_at entries.now) node.name) (nodes_at entries.now) }
    ensures { option_map flat_node (option_copied result) ≡ slice_get (by_depth (nodes_at entries.now)) place }
{
    let mut left = place;
    for above in 0..entries.len() {
        match nth_at_depth(entries, rows, above as u32 + 1, left) {
            Nth::Found(node) => return Some(node),
            Nth::Left(rest) => left = rest,
        }
    }
    None
}

/// A need of the flat statement at a place.
pub(crate) fn need_of(entries: &[Entry], place: Place) -> Option<&Name>
    ensures { option_copied result ≡ need_at (nodes_at entries.now) place }
{
    match entries.get(place.node) {
        None => None,
        Some(entry) => entry.needs().get(place.need),
    }
}
