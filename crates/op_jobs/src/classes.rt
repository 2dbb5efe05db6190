//! Operations by their classes.
ghost use Rattle.std.specs.Prelude.{◌≡◌, ◌≤◌, nat_abs, IfOk};
ghost use Rattle.map_defs.specs.Local.{of_stat};
ghost use Rattle.map_nums.specs.Numbers.{greatest_value};
ghost use Rattle.local_ops.specs.Operations.{op_of};
ghost use Rattle.incremental_ops.specs.Shapes.{form_of as form_of_shape};
ghost use Rattle.statement_parser.specs.Forms.{form_of};
ghost use Rattle.statement_parser.specs.Views.{op_view, reach_view};
ghost use Rattle.op_jobs.specs.Repairs.{IsClassOf};
ghost use Rattle.op_jobs.specs.Ranges.{HasRanges};
ghost use Rattle.op_jobs.specs.declared.classes.Class.TheVariants.{Plain, Whole};
ghost use Rattle.op_jobs.specs.declared.kernels.Kernel.TheVariants.{Local};
ghost use Rattle.op_jobs.specs.declared.own.Repair.TheVariants.{Alone};

use crate::kernels::Kernel;
use crate::own::{Lone, Repair};
use incremental_ops::Shape;
use local_ops::{LocalOp, Rates};
use map_nums::{NoMemory, Stat, Value};
use sight_lines::Sight;
use statement_parser::{Form, Op, Reach};
use std::alloc::Global;

/// What the layer of an operation is repaired by.
#[derive(Drop)]
pub(crate) enum Class {
    /// Tile by tile, from the operands alone.
    Plain(Kernel),
    /// Tile by tile, over a book of the zones.
    Zonal(Stat),
    /// Tile by tile, over the viewers.
    Sight(Sight),
    Whole(Repair),
}

/// The kernel's name of a form.
fn shape_of(form: Form) -> Shape
    ensures { form_of_shape result ≡ form_of form }
{
    match form {
        Form::Linkage => Shape::Linkage,
        Form::Length => Shape::Length,
        Form::Partition => Shape::Partition,
        Form::Frontage => Shape::Frontage,
        Form::Gradient => Shape::Gradient,
        Form::Aspect => Shape::Aspect,
    }
}

/// The radius of a disc; none of the square.
fn radius_in(reach: Reach) -> Option<u32>
    ensures { result ≡ reach_view reach }
{
    match reach {
        Reach::Square => None,
        Reach::Disc(radius) => Some(radius),
    }
}

fn statistic_of(stat: Stat, ignoring: bool) -> LocalOp
    ensures { op_of result ≡ of_stat stat ignoring }
{
    if ignoring {
        LocalOp::Ignoring(stat)
    } else {
        LocalOp::Stat(stat)
    }
}

/// The limit of least costs as it is written.
pub(crate) fn limit_of(limit: Value) -> u64
    requires { nat_abs limit ≤ greatest_value }
    ensures { result ≡ nat_abs limit }
{
    limit.unsigned_abs() as u64
}

fn local(op: LocalOp) -> Class
    ensures { result ≡ Plain (Local op) }
{
    Class::Plain(Kernel::Local(op))
}

fn alone(lone: Lone) -> Class
    ensures { result ≡ Whole (Alone lone) }
{
    Class::Whole(Repair::Alone(lone))
}

/// The class of an operation.
pub(crate) fn class_of(alloc: Global, op: &Op) -> Result<Class, NoMemory>
    requires { HasRanges (op_view op.now) }
    ensures { IfOk result (IsClassOf (op_view op.now)) }
{
    match op {
        Op::Local { stat, ignoring, .. } => Ok(local(statistic_of(*stat, *ignoring))),
        Op::Difference { .. } => Ok(local(LocalOp::Difference)),
        Op::Ratio { .. } => Ok(local(LocalOp::Ratio)),
        Op::Rating { rates, .. } => Ok(local(LocalOp::Rating(Rates::of(alloc, rates)?))),
        Op::Focal { stat, reach, .. } => Ok(Class::Plain(Kernel::Focal(*stat, radius_in(*reach)))),
        Op::Incremental { form, .. } => Ok(Class::Plain(Kernel::Shape(shape_of(*form)))),
        Op::Direction { .. } => Ok(Class::Plain(Kernel::Direction)),
        Op::Zonal { stat, .. } => Ok(Class::Zonal(*stat)),
        Op::Sight {
            from,
            to,
            reach,
            ..
        } => Ok(Class::Sight(Sight {
            from: *from,
            to: *to,
            reach: *reach,
        })),
        Op::Flow { .. } => Ok(alone(Lone::Flow)),
        Op::Spread { limit, .. } => Ok(alone(Lone::Spread(limit_of(*limit)))),
        Op::Neighbor { limit, .. } => Ok(Class::Whole(Repair::Nearest(limit_of(*limit)))),
        Op::Region { .. } => Ok(alone(Lone::Regions)),
    }
}
