//! What parts of one kind hold.
ghost use Rattle.std.specs.Prelude.{◌≡◌, ℕ, length, Some, slice_get, IfOk};
ghost use Rattle.op_jobs.specs.declared.ground.Part.{Part};

use crate::ground::Part;
use drainage_flow::FlowBand;
use friction_neighbor::NearestBand;
use friction_spread::CostBand;
use map_nums::NoMemory;
use region_labels::LabelBand;
use std::alloc::Global;
use zonal_totals::TileCounts;

/// What a part of one kind holds.
pub(crate) trait Kind: Sized + Drop {
    ghost use Rattle.std.specs.Prelude.{◌≡◌, Some, IfSome};
    ghost use Rattle.op_jobs.specs.declared.ground.Part.{Part};

    /// The part that holds it.
    ghost part: { Self → Part };

    /// What a part of this kind holds; none of another.
    fn of(held: Part) -> Option<Self>
        ensures some { IfSome result (λ k. held ≡ part k) }
        ensures this { (k : Self) → held ≡ part k → result ≡ Some k };
}

impl Kind for CostBand {
    ghost use Rattle.op_jobs.specs.declared.ground.Part.TheVariants.{Costs};

    ghost part = { λ band. Costs band };

    fn of(held: Part) -> Option<CostBand> {
        match held {
            Part::Costs(band) => Some(band),
            _ => None,
        }
    }
}

impl Kind for NearestBand {
    ghost use Rattle.op_jobs.specs.declared.ground.Part.TheVariants.{Nearest};

    ghost part = { λ band. Nearest band };

    fn of(held: Part) -> Option<NearestBand> {
        match held {
            Part::Nearest(band) => Some(band),
            _ => None,
        }
    }
}

impl Kind for FlowBand {
    ghost use Rattle.op_jobs.specs.declared.ground.Part.TheVariants.{Flows};

    ghost part = { λ band. Flows band };

    fn of(held: Part) -> Option<FlowBand> {
        match held {
            Part::Flows(band) => Some(band),
            _ => None,
        }
    }
}

impl Kind for LabelBand {
    ghost use Rattle.op_jobs.specs.declared.ground.Part.TheVariants.{Labels};

    ghost part = { λ band. Labels band };

    fn of(held: Part) -> Option<LabelBand> {
        match held {
            Part::Labels(band) => Some(band),
            _ => None,
        }
    }
}

impl Kind for TileCounts {
    ghost use Rattle.op_jobs.specs.declared.ground.Part.TheVariants.{Counts};

    ghost part = { λ counts. Counts counts };

    fn of(held: Part) -> Option<TileCounts> {
        match held {
            Part::Counts(counts) => Some(counts),
            _ => None,
        }
    }
}

/// What some parts of one kind hold, in their order.
pub(crate) fn all_of<K: Kind>(alloc: Global, parts: Vec<Part>) -> Result<Vec<K>, NoMemory>
    requires { (k : ℕ) (p : Part) → slice_get parts.items k ≡ Some p → (b : K) × (p ≡ K.part b) }
    ensures count { IfOk result (λ all. length all.items ≡ length parts.items) }
    ensures each { IfOk result (λ all. (k : ℕ) (b : K) → slice_get all.items k ≡ Some b → slice_get parts.items k ≡ Some (K.part b)) }
{
    let mut all = Vec::with_capacity(alloc, parts.len())?;
    for part in parts {
        if let Some(held) = K::of(part) {
            all.push(held)?;
        }
    }
    Ok(all)
}
