//! The jobs of one statement.
ghost use Rattle.std.specs.Prelude.{◌≡◌};

use crate::halts::NoJobs;
use crate::keeping::{Kept, Made};
use layer_tiles::{Extent, KernelRefusal, Operands, Tally};
use map_nums::NoMemory;
use std::alloc::Global;
use std::marker::Model;

/// The jobs of a statement, by their numbers from 0, over its operands and what is kept of it. `own` is what they share.
#[derive(Drop)]
pub struct Jobs<'o, 'a, O, B, W> {
    pub extent: Extent,
    pub op: &'o O,
    pub operands: &'o Operands<'a>,
    pub kept: Option<&'a Kept<B>>,
    pub count: u64,
    pub own: W,
}

impl<'o, 'a, O, B, W> Model for Jobs<'o, 'a, O, B, W> {
    ghost use Rattle.map_waves.specs.Jobs.{JobsState};
    ghost use Rattle.map_waves.specs.Keeping.{kept_now};

    ghost Value = { JobsState O B W };

    ghost view = { λ j. record { size = j.extent; op = j.op.now; operands = j.operands.now; kept = kept_now j.kept; count = j.count; own = j.own } };
}

/// Makes a statement's jobs, does single ones, and gathers their pieces.
pub trait Maker {
    ghost use Rattle.std.specs.Prelude.{ℕ, ◌≡◌, ◌*◌, ◌^◌, ◌<◌, ◌≤◌, List, length, Ok, Some, Option, Result, IfOk, IfErr, IfSome, slice_get, sum_by};
    ghost use Rattle.std.specs.List.{All, range_with_len};
    ghost use Rattle.map_nums.specs.Grids.{Size, Cells};
    ghost use Rattle.map_defs.specs.Ops.{Op};
    ghost use Rattle.layer_tiles.specs.Changes.{ChangeState};
    ghost use Rattle.layer_tiles.specs.Tallies.{TallyState, RisesBy};
    ghost use Rattle.layer_tiles.specs.Operands.{cells_after};
    ghost use Rattle.layer_tiles.specs.declared.kernels.KernelRefusal.{KernelRefusal};
    ghost use Rattle.map_waves.specs.Statements.{damage_by, work_by};
    ghost use Rattle.map_waves.specs.Operands.{IsOperand};
    ghost use Rattle.map_waves.specs.Keeping.{kept_now, was_of, IsRightKept};
    ghost use Rattle.map_waves.specs.Jobs.{JobsState, AreOver, was_in, aside_in};
    ghost use Rattle.map_waves.specs.Answers.{AreJobs, LacksJobs};
    ghost use Rattle.map_waves.specs.Gathered.{IsRepaired};
    ghost use Rattle.map_waves.specs.Found.{AreFound};
    ghost use Rattle.map_waves.specs.declared.keeping.Aside.{Aside};

    /// An operation as it is written.
    type Op: Sync;

    /// What is kept beside a layer, where it is no layer.
    type Beside: Drop + Sync;

    /// What the jobs of one statement share.
    type Own: Drop + Sync;

    /// What a job makes.
    type Piece: Drop + Send;

    /// What parts of a layer that was not there are found from.
    type Ground: Drop + Sync;

    /// What is found of such a part.
    type Part: Drop + Send;

    /// The operation that is meant.
    ghost means: { Self.Op → Op };

    /// It is well formed.
    ghost formed: { Self.Op → Type 0 };

    /// What is kept beside the layer of an operation is right for operands with these cells.
    ghost suits: { Size → Op → List Cells → Aside Self.Beside → Type 0 };

    /// So many parts can be found from a ground.
    ghost grounded: { Size → Op → List ChangeState → ℕ → Self.Ground → Type 0 };

    /// What may be found of a part from a ground: of so many, by its number.
    ghost part: { Size → Op → List ChangeState → Self.Ground → ℕ → ℕ → Self.Part → Type 0 };

    /// The looks that a ground and finding all its parts take at most.
    ghost grounding: { Size → Op → Option Cells → List ChangeState → ℕ };

    /// The looks that finding a part takes at most: of so many, by its number.
    ghost finding: { Size → Op → List ChangeState → ℕ → ℕ → ℕ };

    /// What the jobs rest on.
    ghost sound: { JobsState Self.Op Self.Beside Self.Own → Type 0 };

    /// The looks that finding the damage, and what the parts are found from, takes at most.
    ghost first: { JobsState Self.Op Self.Beside Self.Own → ℕ };

    /// The looks that a job takes at most.
    ghost looks: { JobsState Self.Op Self.Beside Self.Own → ℕ → ℕ };

    /// The picks that a job takes at most.
    ghost picks: { JobsState Self.Op Self.Beside Self.Own → ℕ → ℕ };

    /// What a job may answer.
    ghost pieces: { JobsState Self.Op Self.Beside Self.Own → ℕ → Result Self.Piece KernelRefusal → Type 0 };

    /// What so many workers can find parts of a statement's layer from, and how many parts, where the layer was not there and is one that
    /// they make.
    fn ground_of<M: Tally>(
        alloc: Global,
        op: &Self::Op,
        operands: &Operands<'_>,
        kept: Option<&Kept<Self::Beside>>,
        extent: Extent,
        workers: u32,
        tally: &mut M,
    ) -> Result<Option<(Self::Ground, u64)>, NoMemory>
        requires formed { formed op.now }
        requires operands { All (IsOperand extent) operands.now }
        requires terms { length operands.now ≡ length ((means op.now).terms) }
        ensures ground { IfOk result (λ found. IfSome found (λ q. grounded extent (means op.now) operands.now q.1 q.0)) }
        ensures few { IfOk result (λ found. IfSome found (λ q. q.1 < 2 ^ 32)) }
        ensures fit { grounding extent (means op.now) (was_of (kept_now kept.entry)) operands.now ≤ 60 * length (damage_by extent (means op.now) (was_of (kept_now kept.entry)) operands.now) }
        ensures looks { RisesBy (grounding extent (means op.now) (was_of (kept_now kept.entry)) operands.now) 0 (M.counts tally.old) (M.counts tally.new) }
        ensures parts { let was = was_of (kept_now kept.entry) in
            IfOk result (λ found. IfSome found (λ q. (c : TallyState) → RisesBy (sum_by (finding extent (means op.now) operands.now q.1) (range_with_len 0 q.1)) 0 (M.counts tally.new) c → RisesBy (grounding extent (means op.now) was operands.now) 0 (M.counts tally.old) c)) };

    /// Finds one of so many parts.
    fn find_part<M: Tally>(
        alloc: Global,
        op: &Self::Op,
        operands: &Operands<'_>,
        extent: Extent,
        ground: &Self::Ground,
        count: u64,
        k: u64,
        tally: &mut M,
    ) -> Result<Self::Part, NoMemory>
        requires ground { ∥ grounded extent (means op.now) operands.now count ground.now ∥₁ }
        requires below { k < count }
        ensures part { IfOk result (part extent (means op.now) operands.now ground.now count k) }
        ensures looks { RisesBy (finding extent (means op.now) operands.now count k) 0 (M.counts tally.old) (M.counts tally.new) };

    /// The jobs of a statement: those of its whole damage, from what is kept, or of all tiles where nothing is; of the parts that were
    /// found, where they were.
    fn jobs_of<'o, 'a, M: Tally>(
        alloc: Global,
        op: &'o Self::Op,
        operands: &'o Operands<'a>,
        kept: Option<&'a Kept<Self::Beside>>,
        extent: Extent,
        found: Option<(Self::Ground, Vec<Self::Part>)>,
        tally: &mut M,
    ) -> Result<Jobs<'o, 'a, Self::Op, Self::Beside, Self::Own>, NoJobs>
        requires formed { formed op.now }
        requires operands { All (IsOperand extent) operands.now }
        requires terms { length operands.now ≡ length ((means op.now).terms) }
        requires right { IsRightKept suits extent (means op.now) operands.now (kept_now kept) }
        requires found { IfSome found (λ q. AreFound grounded part extent (means op.now) operands.now q.0 q.1.items) }
        ensures over { IfOk result (λ j. AreOver j extent op.entry.now operands.entry.now (kept_now kept.entry)) }
        ensures jobs { IfOk result (λ j. AreJobs means sound first looks picks pieces j) }
        ensures halt { IfErr result (LacksJobs extent (means op.entry.now) (cells_after operands.entry.now)) }
        ensures tally { let was = was_of (kept_now kept.entry) in
            (c : TallyState) → RisesBy (grounding extent (means op.entry.now) was operands.entry.now) 0 c (M.counts tally.old) → RisesBy (60 * length (damage_by extent (means op.entry.now) was operands.entry.now)) (1000 * work_by extent (means op.entry.now) was operands.entry.now) c (M.counts tally.new) }
        ensures found { let was = was_of (kept_now kept.entry) in
            IfOk result (λ j. (c : TallyState) → RisesBy (grounding extent (means op.entry.now) was operands.entry.now) 0 c (M.counts tally.old) → RisesBy (first j) 0 c (M.counts tally.new)) };

    /// About how many microseconds all jobs of a statement take. It tells how many workers are worth their start, and changes no answer.
    fn weight(jobs: &Jobs<'_, '_, Self::Op, Self::Beside, Self::Own>) -> u64;

    /// Does one job.
    fn do_job<M: Tally>(
        alloc: Global,
        jobs: &Jobs<'_, '_, Self::Op, Self::Beside, Self::Own>,
        job: u64,
        tally: &mut M,
    ) -> Result<Self::Piece, KernelRefusal>
        requires jobs { AreJobs means sound first looks picks pieces jobs.now }
        requires below { job < jobs.now.count }
        ensures piece { pieces jobs.now job result }
        ensures tally { RisesBy (looks jobs.now job) (picks jobs.now job) (M.counts tally.old) (M.counts tally.new) };

    /// The repaired layer, of which all pieces are there in the order of their jobs.
    fn gather(
        alloc: Global,
        jobs: Jobs<'_, '_, Self::Op, Self::Beside, Self::Own>,
        pieces_made: Vec<Self::Piece>,
    ) -> Result<Made<Self::Beside>, NoMemory>
        requires jobs { AreJobs means sound first looks picks pieces jobs }
        requires count { length pieces_made.items ≡ jobs.count }
        requires each { (k : ℕ) (p : Self.Piece) → slice_get pieces_made.items k ≡ Some p → pieces jobs k (Ok p) }
        ensures { IfOk result (IsRepaired suits jobs.entry.size (means jobs.entry.op) jobs.entry.operands (was_in jobs.entry) (aside_in jobs.entry)) };
}
