//! The jobs of statements, class by class.

ghost use Rattle.std.specs.Prelude.{◌≡◌};
ghost use Rattle.op_jobs.specs.Owning.{count_of};

use crate::beside::Beside;
use crate::flow_bands::find_flows;
use crate::fresh::ground_by;
use crate::ground::{Ground, Part};
use crate::label_bands::find_labels;
use crate::nearest_bands::find_nearest;
use crate::own::Own;
use crate::owning::own_of;
use crate::parts::parts_of;
use crate::pieces::Piece;
use crate::spread_bands::find_costs;
use crate::tiles::{do_tile, gather_tiles};
use crate::weights::weight_of;
use crate::whole_jobs::{do_whole, gather_whole};
use crate::zonal_parts::count_part;
use layer_tiles::{Extent, KernelRefusal, Operands, Tally};
use map_nums::NoMemory;
use map_waves::{Jobs, Kept, Made, Maker, NoJobs};
use statement_parser::Op;
use std::alloc::Global;

/// How many jobs.
fn count_of(own: &Own) -> u64
    ensures { result ≡ count_of own.now }
{
    match own {
        Own::Tiles(jobs) => jobs.tiles.len() as u64,
        Own::Whole(_) => 1,
    }
}

/// The jobs of statements: a job for each tile of the damage where its tiles are made one by one, also of the bands that workers found
/// of a layer that was not there; one job where a layer is repaired whole.
pub struct Statements;

impl Maker for Statements {
    ghost use Rattle.std.specs.Prelude.{◌≡◌, ◌*◌, length, IfOk, IfErr, IfSome};
    ghost use Rattle.std.specs.List.{All};
    ghost use Rattle.layer_tiles.specs.Operands.{cells_after};
    ghost use Rattle.layer_tiles.specs.Tallies.{TallyState, RisesBy};
    ghost use Rattle.map_waves.specs.Answers.{AreJobs, LacksJobs};
    ghost use Rattle.map_waves.specs.Found.{AreFound};
    ghost use Rattle.map_waves.specs.Keeping.{kept_now, was_of, IsRightKept};
    ghost use Rattle.map_waves.specs.Operands.{IsOperand};
    ghost use Rattle.map_waves.specs.Statements.{damage_by, work_by};
    ghost use Rattle.map_waves.specs.Gathered.{IsRepaired};
    ghost use Rattle.map_waves.specs.Jobs.{was_in, aside_in, AreOver};
    ghost use Rattle.statement_parser.specs.Views.{op_view};
    ghost use Rattle.op_jobs.specs.Beside.{suits as what_suits};
    ghost use Rattle.op_jobs.specs.Grounds.{IsGrounded, IsPart, grounding, finding};
    ghost use Rattle.op_jobs.specs.Ranges.{HasRanges};
    ghost use Rattle.op_jobs.specs.Sound.{IsSound, IsPiece, ArePieces, first as first_looks, looks as job_looks, picks as job_picks};

    type Op = Op;

    type Beside = Beside;

    type Own = Own;

    type Piece = Piece;

    type Ground = Ground;

    type Part = Part;

    ghost means = { op_view };

    ghost formed = { λ o. HasRanges (op_view o) };

    ghost suits = { what_suits };

    ghost grounded = { IsGrounded };

    ghost part = { IsPart };

    ghost grounding = { grounding };

    ghost finding = { finding };

    ghost sound = { IsSound };

    ghost first = { first_looks };

    ghost looks = { job_looks };

    ghost picks = { job_picks };

    ghost pieces = { IsPiece };

    fn ground_of<M: Tally>(
        alloc: Global,
        op: &Op,
        operands: &Operands<'_>,
        kept: Option<&Kept<Beside>>,
        extent: Extent,
        workers: u32,
        tally: &mut M,
    ) -> Result<Option<(Ground, u64)>, NoMemory> {
        let parts = parts_of(op, extent, workers);
        if kept.is_some() || parts < 2 {
            return Ok(None);
        }
        match ground_by(alloc, op, operands, extent, tally)? {
            Some(ground) => Ok(Some((ground, u64::from(parts)))),
            None => Ok(None),
        }
    }

    fn find_part<M: Tally>(
        alloc: Global,
        op: &Op,
        operands: &Operands<'_>,
        extent: Extent,
        ground: &Ground,
        count: u64,
        k: u64,
        tally: &mut M,
    ) -> Result<Part, NoMemory> {
        match ground {
            Ground::Costs(cells) => Ok(Part::Costs(find_costs(alloc, extent, cells, count, k)?)),
            Ground::Nearest(cells) => {
                Ok(Part::Nearest(find_nearest(alloc, extent, cells, count, k)?))
            }
            Ground::Flow(cells) => Ok(Part::Flows(find_flows(alloc, extent, cells, count, k)?)),
            Ground::Regions(cells) => Ok(Part::Labels(find_labels(
                alloc, extent, cells, count, k,
            )?)),
            Ground::Zones => count_part(alloc, operands, extent, count, k, tally),
        }
    }

    fn jobs_of<'o, 'a, M: Tally>(
        alloc: Global,
        op: &'o Op,
        operands: &'o Operands<'a>,
        kept: Option<&'a Kept<Beside>>,
        extent: Extent,
        found: Option<(Ground, Vec<Part>)>,
        tally: &mut M,
    ) -> Result<Jobs<'o, 'a, Op, Beside, Own>, NoJobs>
        requires formed { HasRanges (op_view op.now) }
        requires operands { All (IsOperand extent) operands.now }
        requires terms { length operands.now ≡ length (op_view op.now).terms }
        requires right { IsRightKept what_suits extent (op_view op.now) operands.now (kept_now kept) }
        requires found { IfSome found (λ q. AreFound IsGrounded IsPart extent (op_view op.now) operands.now q.0 q.1.items) }
        ensures over { IfOk result (λ j. AreOver j extent op.entry.now operands.entry.now (kept_now kept.entry)) }
        ensures jobs { IfOk result (λ j. AreJobs op_view IsSound first_looks job_looks job_picks IsPiece j) }
        ensures halt { IfErr result (LacksJobs extent (op_view op.entry.now) (cells_after operands.entry.now)) }
        ensures tally { let was = was_of (kept_now kept.entry) in
            (c : TallyState) → RisesBy (grounding extent (op_view op.entry.now) was operands.entry.now) 0 c (M.counts tally.old) → RisesBy (60 * length (damage_by extent (op_view op.entry.now) was operands.entry.now)) (1000 * work_by extent (op_view op.entry.now) was operands.entry.now) c (M.counts tally.new) }
        ensures found { let was = was_of (kept_now kept.entry) in
            IfOk result (λ j. (c : TallyState) → RisesBy (grounding extent (op_view op.entry.now) was operands.entry.now) 0 c (M.counts tally.old) → RisesBy (first_looks j) 0 c (M.counts tally.new)) }
    {
        let _size = extent.tiles();
        let own = own_of(alloc, op, operands, kept, extent, found, tally)?;
        let count = count_of(&own);
        Ok(Jobs {
            extent,
            op,
            operands,
            kept,
            count,
            own,
        })
    }

    fn weight(jobs: &Jobs<'_, '_, Op, Beside, Own>) -> u64 {
        weight_of(&jobs.own, jobs.kept)
    }

    fn do_job<M: Tally>(
        alloc: Global,
        jobs: &Jobs<'_, '_, Op, Beside, Own>,
        job: u64,
        tally: &mut M,
    ) -> Result<Piece, KernelRefusal> {
        match &jobs.own {
            Own::Tiles(own) => do_tile(alloc, jobs, own, job, tally),
            Own::Whole(job) => do_whole(alloc, jobs, job, tally),
        }
    }

    fn gather(
        alloc: Global,
        jobs: Jobs<'_, '_, Op, Beside, Own>,
        pieces_made: Vec<Piece>,
    ) -> Result<Made<Beside>, NoMemory>
        requires jobs { AreJobs op_view IsSound first_looks job_looks job_picks IsPiece jobs }
        requires count { length pieces_made.items ≡ jobs.count }
        requires each { ArePieces jobs pieces_made.items }
        ensures { IfOk result (IsRepaired what_suits jobs.entry.size (op_view jobs.entry.op) jobs.entry.operands (was_in jobs.entry) (aside_in jobs.entry)) }
    {
        let Jobs { extent, own, .. } = jobs;
        match own {
            Own::Tiles(own) => gather_tiles(alloc, extent, own, pieces_made),
            Own::Whole(_) => Ok(gather_whole(alloc, extent, pieces_made)),
        }
    }
}
