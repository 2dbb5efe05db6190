//! A statement's places put in for older ones.

ghost use Rattle.std.specs.Prelude.{◌≡◌, ◌+◌, ◌-◌, ◌^◌, ◌<◌, ◌≤◌, length, take, OnOk};
ghost use Rattle.map_defs.specs.Depths.{is_looped as is_looped_in};
ghost use Rattle.statement_graph.specs.Seats.{nodes_at};
ghost use Rattle.statement_graph.specs.Tables.{shown_all, table_at};
ghost use Rattle.statement_graph.specs.Splices.{IsSpliced};
ghost use Rattle.statement_graph.specs.Links.{all_needs, HasRoom};

use crate::links::Links;
use crate::node::Entry;
use crate::places::{Span, exchange_in};
use crate::refusal::GraphRefusal;
use crate::row::{Row, is_looped, resettle};
use map_words::Name;

/// Settles the rows of the first places; whether the name is reached from its own needs there.
fn settle_front(
    entries: &Vec<Entry>,
    count: usize,
    name: &Name,
    rows: &mut Vec<Row>,
    spare: &mut Vec<Row>,
    links: &mut Links,
) -> bool
    requires within { count ≤ length entries.now.items }
    requires few { count + 1 < 2 ^ 32 }
    requires rows_are { length rows.old.items ≡ count }
    requires spare_are { length spare.old.items ≡ count }
    requires room { HasRoom (nodes_at (take count entries.now.items)) links.old.firsts.items links.old.needs.items }
    ensures looped { result ≡ is_looped_in (nodes_at (take count entries.now.items)) name.now }
    ensures table { shown_all (nodes_at (take count entries.now.items)) rows.new.items ≡ table_at count (nodes_at (take count entries.now.items)) name.now }
    ensures rows_are { length rows.new.items ≡ count }
    ensures spare_are { length spare.new.items ≡ count }
    ensures room { HasRoom (nodes_at (take count entries.now.items)) links.new.firsts.items links.new.needs.items }
{
    let front = &entries.as_slice()[..count];
    resettle(front, name, rows, spare, links);
    is_looped(front, rows.as_slice(), name)
}

/// Puts places in for those of a span, and settles the rows; takes them out again where the name would be reached from
/// its own needs.
pub(crate) fn splice(
    entries: &mut Vec<Entry>,
    name: &Name,
    span: Span,
    mut fresh: Vec<Entry>,
    rows: &mut Vec<Row>,
    spare: &mut Vec<Row>,
    links: &mut Links,
) -> Result<(), GraphRefusal>
    requires order { span.start ≤ span.end }
    requires within { span.end ≤ length entries.old.items }
    requires rows_are { length rows.old.items + (span.end - span.start) ≡ length entries.old.items + length fresh.items }
    requires spare_are { length spare.old.items ≡ length rows.old.items }
    requires few { length rows.old.items + 1 < 2 ^ 32 }
    requires firsts_are { length rows.old.items ≤ length links.old.firsts.items }
    requires needs_are { length (all_needs (nodes_at entries.old.items)) + length (all_needs (nodes_at fresh.items)) ≤ length links.old.needs.items }
    ensures spliced { IsSpliced entries.old.items entries.new.items span.start span.end fresh.items name.now rows.new.items result }
    ensures rows_are { OnOk result (length rows.new.items ≡ length entries.new.items) }
    ensures spare_are { OnOk result (length spare.new.items ≡ length entries.new.items) }
    ensures room { OnOk result (HasRoom (nodes_at entries.new.items) links.new.firsts.items links.new.needs.items) }
{
    let had = entries.len();
    let count = fresh.len();
    let gone = span.end - span.start;
    let total = rows.len();
    entries.append(&mut fresh)?;
    exchange_in(entries, span.start, span.end, count);
    if settle_front(entries, total, name, rows, spare, links) {
        exchange_in(entries, span.start, span.start + count, gone);
        entries.truncate(had);
        return Err(GraphRefusal::Cycle);
    }
    entries.truncate(total);
    Ok(())
}
