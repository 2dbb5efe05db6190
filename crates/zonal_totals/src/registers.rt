//! The counts of one list of a book.
ghost use Rattle.std.specs.Prelude.{◌≡◌, ◌^◌, ◌<◌, [], length, IfSome, IfOk};
ghost use Rattle.map_nums.specs.Stats.{total_of};
ghost use Rattle.zonal_totals.specs.Pairs.{floor};
ghost use Rattle.zonal_totals.specs.Numbers.{numbers, part_of, KeysClimb};
ghost use Rattle.zonal_totals.specs.Steps.{StepsClimb};
ghost use Rattle.zonal_totals.specs.Merges.{Fits, IsMerged};

use crate::sections::{Part, Section, renewed, shared, zone_of};
use crate::steps::Step;
use map_nums::{NoMemory, Value};
use std::alloc::Global;
use std::marker::Model;

/// Counts of pairs, in ascending order, in sections of whole zones. A register after steps shares the sections that have none.
#[derive(Drop)]
pub(crate) struct Register {
    sections: Vec<Section>,
}

impl Model for Register {
    ghost use Rattle.std.specs.Prelude.{List};
    ghost use Rattle.zonal_totals.specs.declared.entries.Entry.{Entry};
    ghost use Rattle.zonal_totals.specs.Sections.{joined, lowest, AreSections};

    ghost Value = { List Entry };

    ghost view = { λ r. joined r.sections.items };

    ghost invariant = { λ r. AreSections lowest r.sections.items };
}

impl Register {
    /// Counts of nothing.
    pub(crate) fn new(alloc: Global) -> Register
        ensures { result ≡ [] }
    {
        Register {
            sections: Vec::new(alloc),
        }
    }

    /// The counts after the steps.
    pub(crate) fn after(&self, alloc: Global, steps: &[Step]) -> Result<Register, NoMemory>
        requires steps { StepsClimb floor steps.now }
        requires fits { Fits self.now steps.now }
        ensures { IfOk result (λ after. IsMerged self.now steps.now after) }
    {
        Ok(Register {
            sections: renewed(alloc, &self.sections, steps)?,
        })
    }

    /// The counts of a zone.
    pub(crate) fn part(&self, zone: Value) -> Part<'_>
        ensures part { result.entries.now ≡ part_of zone self.now }
        ensures few { length result.entries.now < 2 ^ 31 }
        ensures order { KeysClimb floor result.entries.now }
        ensures known { IfSome result.known (λ sum. sum ≡ total_of (numbers result.entries.now)) }
    {
        zone_of(&self.sections, zone)
    }

    /// The same register, with the same memory.
    pub(crate) fn copy(&self, alloc: Global) -> Result<Register, NoMemory>
        ensures { IfOk result (λ copy. copy ≡ self.now) }
    {
        Ok(Register {
            sections: shared(alloc, &self.sections)?,
        })
    }
}
