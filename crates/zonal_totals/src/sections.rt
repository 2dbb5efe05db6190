//! Counts in sections of whole zones, which registers share.
ghost use Rattle.std.specs.Prelude.{◌≡◌, ◌≢◌, ◌↔◌, ℕ, ◌-◌, ◌^◌, ◌<◌, ◌≤◌, ◌++◌, ◌≤ℤ◌, ◌<ℤ◌, ◌+ℤ◌, List, [], length, slice_index_or, IfSome, IfOk, OnOk, IsTrue};
ghost use Rattle.map_nums.specs.Stats.{total_of};
ghost use Rattle.zonal_totals.specs.declared.entries.Entry.{Entry};
ghost use Rattle.zonal_totals.specs.declared.steps.Step.{Step};
ghost use Rattle.zonal_totals.specs.Pairs.{floor};
ghost use Rattle.zonal_totals.specs.Entries.{Climbs};
ghost use Rattle.zonal_totals.specs.Numbers.{numbers, part_of};
ghost use Rattle.zonal_totals.specs.Steps.{StepsClimb};
ghost use Rattle.zonal_totals.specs.Rises.{rise_of};
ghost use Rattle.zonal_totals.specs.Merges.{Fits, IsMerged};
ghost use Rattle.zonal_totals.specs.Sections.{joined, end_of, lowest, last_zone, IsOneZone, AreSections, IsRenewed};

use crate::entries::{Entry, zone_part};
use crate::merges::merged;
use crate::pairs::Pair;
use crate::stats::sum_of;
use crate::steps::Step;
use map_nums::{NoMemory, Value};
use std::alloc::Global;
use std::marker::Model;
use std::sync::Arc;

/// How many entries a section has at least, where another one was cut off behind it.
const FULL: usize = 1024;

/// How many entries a section has at most: 128 bits hold the sum of so many.
const MOST: usize = 2_147_483_647;

/// Entries of whole zones, with the sum of their numbers.
#[derive(Drop)]
pub(crate) struct Section {
    entries: Arc<Vec<Entry>, Global>,
    total: i128,
}

impl Model for Section {
    ghost use Rattle.std.specs.Prelude.{List};
    ghost use Rattle.std.specs.Arc.{arc_value};
    ghost use Rattle.zonal_totals.specs.declared.entries.Entry.{Entry};
    ghost use Rattle.zonal_totals.specs.Sections.{IsSection};

    ghost Value = { List Entry };

    ghost view = { λ s. (arc_value s.entries).items };

    ghost invariant = { λ s. IsSection (arc_value s.entries).items s.total };
}

/// The entries of a zone, with the sum of its numbers where that is known.
#[derive(Clone, Copy)]
pub(crate) struct Part<'a> {
    pub entries: &'a [Entry],
    pub known: Option<i128>,
}

impl Section {
    /// A section of entries whose sum may be known. More than `MOST` are want of memory.
    fn of(alloc: Global, entries: Vec<Entry>, known: Option<i128>) -> Result<Section, NoMemory>
        requires { IfSome known (λ sum. sum ≡ total_of (numbers entries.items)) }
        ensures { IfOk result (λ section. section ≡ entries.items) }
    {
        if entries.len() > MOST {
            return Err(NoMemory);
        }
        let total = sum_of(&entries, known);
        Ok(Section {
            entries: Arc::new(alloc, entries)?,
            total,
        })
    }

    /// The same section, with the same memory.
    fn share(&self) -> Result<Section, NoMemory>
        ensures { IfOk result (λ section. section ≡ self.now) }
    {
        Ok(Section {
            entries: Arc::try_clone(&self.entries)?,
            total: self.total,
        })
    }

    fn entries(&self) -> &[Entry]
        ensures entries { result.now ≡ self.now }
        ensures few { length result.now < 2 ^ 31 }
    {
        self.entries.as_slice()
    }

    fn total(&self) -> i128
        ensures { result ≡ total_of (numbers self.now) }
    {
        self.total
    }

    fn first(&self) -> Entry
        requires { 0 < length self.now }
        ensures { (d : Entry) → result ≡ slice_index_or self.now 0 d }
    {
        self.entries()[0]
    }

    fn last(&self) -> Entry
        requires { 0 < length self.now }
        ensures { (d : Entry) → result ≡ slice_index_or self.now (length self.now - 1) d }
    {
        let entries = self.entries();
        entries[entries.len() - 1]
    }
}

/// The sum of a section's numbers, where a part of it is the whole.
fn total_of_whole(section: &Section, part: &[Entry]) -> Option<i128>
    ensures whole { IfSome result (λ sum. length section.now ≤ length part.now) }
    ensures total { IfSome result (λ sum. sum ≡ total_of (numbers section.now)) }
{
    if part.len() < section.entries().len() {
        return None;
    }
    Some(section.total())
}

/// The sum of a section's numbers after steps, none where that is out of range.
fn total_after(section: &Section, steps: &[Step]) -> Option<i128>
    ensures { IfSome result (λ sum. sum ≡ total_of (numbers section.now) +ℤ rise_of steps.now) }
{
    let mut sum = section.total();
    for step in steps {
        let rise = (step.pair.key as i128).checked_mul(step.by as i128)?;
        sum = sum.checked_add(rise)?;
    }
    Some(sum)
}

/// How many sections begin with the zone of a pair or one before it.
fn begun(sections: &[Section], pair: &Pair) -> usize
    requires { AreSections lowest sections.now }
    ensures within { result ≤ length sections.now }
    ensures below { (i : ℕ) (d : Entry) → i < result → (slice_index_or (slice_index_or sections.now i []) 0 d).pair.zone ≤ℤ pair.now.zone }
    ensures above { (i : ℕ) (d : Entry) → result ≤ i → i < length sections.now → pair.now.zone <ℤ (slice_index_or (slice_index_or sections.now i []) 0 d).pair.zone }
{
    let mut low = 0;
    let mut high = sections.len();
    while low < high {
        let middle = low + (high - low) / 2;
        let first = sections[middle].first();
        if pair.is_of_earlier_zone(&first.pair()) {
            high = middle;
        } else {
            low = middle + 1;
        }
    }
    low
}

/// Where the section from a place on ends: with a zone, and not before it is full.
fn section_end(entries: &[Entry], from: usize) -> usize
    requires { from < length entries.now }
    ensures some { from < result }
    ensures within { result ≤ length entries.now }
    ensures whole { (d : Entry) → result < length entries.now → (slice_index_or entries.now (result - 1) d).pair.zone ≢ (slice_index_or entries.now result d).pair.zone }
{
    let mut start = entries.len();
    if start - from > FULL {
        start = from + FULL;
    }
    for end in start..entries.len() {
        if entries[end - 1].zone() != entries[end].zone() {
            return end;
        }
    }
    entries.len()
}

/// Puts entries behind the others, in sections.
fn cut(alloc: Global, sections: &mut Vec<Section>, entries: &[Entry]) -> Result<(), NoMemory>
    requires sections { AreSections lowest sections.old.items }
    requires order { Climbs (end_of (last_zone lowest (joined sections.old.items))) entries.now }
    ensures sections { OnOk result (AreSections lowest sections.new.items) }
    ensures joins { OnOk result (joined sections.new.items ≡ joined sections.old.items ++ entries.now) }
{
    let mut from = 0;
    while from < entries.len() {
        let end = section_end(entries, from);
        let piece = Vec::from_slice(alloc, &entries[from..end])?;
        sections.push(Section::of(alloc, piece, None)?)?;
        from = end;
    }
    Ok(())
}

/// The place from `from` on of the first step of a zone after that of an entry.
fn steps_end(steps: &[Step], from: usize, last: &Entry) -> usize
    requires { from ≤ length steps.now }
    ensures order { from ≤ result }
    ensures within { result ≤ length steps.now }
    ensures below { (i : ℕ) (d : Step) → from ≤ i → i < result → (slice_index_or steps.now i d).pair.zone ≤ℤ last.now.pair.zone }
    ensures above { (d : Step) → result < length steps.now → last.now.pair.zone <ℤ (slice_index_or steps.now result d).pair.zone }
{
    for at in from..steps.len() {
        if steps[at].pair.zone > last.zone() {
            return at;
        }
    }
    steps.len()
}

/// Whether the first and the last entry have the same zone.
fn is_one_zone(entries: &[Entry]) -> bool
    ensures { IsTrue result ↔ IsOneZone entries.now }
{
    match (entries.first(), entries.last()) {
        (Some(first), Some(last)) => first.zone() == last.zone(),
        _ => false,
    }
}

/// Puts a section after steps behind the others. Without steps it is shared, and a section of one zone is neither copied nor
/// added up again.
fn renew(
    alloc: Global,
    sections: &mut Vec<Section>,
    section: &Section,
    steps: &[Step],
) -> Result<(), NoMemory>
    requires sections { AreSections lowest sections.old.items }
    requires behind { (fs : List Entry) → IsMerged section.now steps.now fs → Climbs (end_of (last_zone lowest (joined sections.old.items))) fs }
    requires some { 0 < length section.now }
    requires order { Climbs floor section.now }
    requires steps { StepsClimb floor steps.now }
    requires fits { Fits section.now steps.now }
    ensures { OnOk result (IsRenewed sections.old.items section.now steps.now sections.new.items) }
{
    if steps.is_empty() {
        sections.push(section.share()?)?;
        return Ok(());
    }
    let mut entries = merged(alloc, section.entries(), steps)?;
    if is_one_zone(&entries) {
        let known = total_after(section, steps);
        entries.shrink_to_fit();
        sections.push(Section::of(alloc, entries, known)?)?;
        return Ok(());
    }
    cut(alloc, sections, &entries)
}

/// The sections after steps.
pub(crate) fn renewed(
    alloc: Global,
    base: &[Section],
    steps: &[Step],
) -> Result<Vec<Section>, NoMemory>
    requires sections { AreSections lowest base.now }
    requires steps { StepsClimb floor steps.now }
    requires fits { Fits (joined base.now) steps.now }
    ensures sections { IfOk result (λ out. AreSections lowest out.items) }
    ensures merged { IfOk result (λ out. IsMerged (joined base.now) steps.now (joined out.items)) }
{
    let mut sections = Vec::with_capacity(alloc, base.len())?;
    let mut from = 0;
    for section in base {
        let last = section.last();
        let end = steps_end(steps, from, &last);
        renew(alloc, &mut sections, section, &steps[from..end])?;
        from = end;
    }
    let rest = merged(alloc, &[], &steps[from..])?;
    cut(alloc, &mut sections, &rest)?;
    Ok(sections)
}

/// The same sections, with the same memory.
pub(crate) fn shared(alloc: Global, base: &[Section]) -> Result<Vec<Section>, NoMemory>
    ensures { IfOk result (λ out. out.items ≡ base.now) }
{
    let mut sections = Vec::with_capacity(alloc, base.len())?;
    for section in base {
        sections.push(section.share()?)?;
    }
    Ok(sections)
}

/// The entries of a zone.
pub(crate) fn zone_of(sections: &[Section], zone: Value) -> Part<'_>
    requires { AreSections lowest sections.now }
    ensures entries { result.entries.now ≡ part_of zone (joined sections.now) }
    ensures few { length result.entries.now < 2 ^ 31 }
    ensures known { IfSome result.known (λ sum. sum ≡ total_of (numbers result.entries.now)) }
{
    let pair = Pair { zone, key: 0 };
    let count = begun(sections, &pair);
    if count == 0 {
        return Part {
            entries: &[],
            known: None,
        };
    }
    let section = &sections[count - 1];
    let entries = zone_part(section.entries(), zone);
    Part {
        entries,
        known: total_of_whole(section, entries),
    }
}
