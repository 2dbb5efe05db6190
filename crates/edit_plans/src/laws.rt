//! Laws of the plan that an edit makes.
ghost use Rattle.edit_plans.specs.CountLaws.{CountsAreSummed, OneSourceCounts};
ghost use Rattle.edit_plans.specs.TouchLaws.{OrderIsKept, OthersAreKept};
ghost use Rattle.edit_plans.specs.StampLaws.{NewIsStamped, OldIsStamped};
ghost use Rattle.edit_plans.specs.PlanLaws.{FirstFaultIsTold, NoFaultIsNone, ValuesAreMade};
ghost use Rattle.edit_plans.specs.KeptLaws.{KeptIsRight};
ghost use Rattle.statement_parser.specs.Formed.{IsOp};
ghost use Rattle.edit_plans.specs.PlannedLaws.{DepthsRise, PlannedIsInOrder, PlannedIsPlan};
ghost use Rattle.edit_plans.specs.ReadLaws.{ReadsAreAllowed};

use map_waves::Maker;

/// What a plan makes of a statement is the grid of its name.
pub fn value_law()
    ensures { ValuesAreMade }
{}

/// The first fault of a plan is told as the state's, and a state has none exactly where the plan has none.
pub fn fault_law()
    ensures first { FirstFaultIsTold }
    ensures none { NoFaultIsNone }
{}

/// What an edit counts over all layers is what it counts over the sources and over the statements of its plan;
/// of the sources only the touched one counts.
pub fn count_law()
    ensures summed { CountsAreSummed }
    ensures sources { OneSourceCounts }
{}

/// The state that an edit would make differs in what the edit touches alone, and its names stand apart without a cycle.
pub fn touch_law()
    ensures others { OthersAreKept }
    ensures order { OrderIsKept }
{}

/// The stamps of a layer that is put in place are those of the state after.
pub fn stamp_law()
    ensures old { OldIsStamped }
    ensures new { NewIsStamped }
{}

/// What is kept of a statement that the edit did not write, of a state without a fault, is right for its operands before.
pub fn kept_law<K: Maker>()
    ensures { KeptIsRight K.suits }
{}

/// What the sources and the statements of a plan count, up to the end of the depth of a fault, may be read.
pub fn read_law()
    ensures { ReadsAreAllowed }
{}

/// Steps that are planned are the plan that an edit makes; the operands of each stand before the first of its depth, and
/// the depths rise.
pub fn planned_law<K: Maker>()
    ensures plan { PlannedIsPlan K.Beside }
    ensures order { PlannedIsInOrder K.Beside IsOp }
    ensures rise { DepthsRise }
{}
