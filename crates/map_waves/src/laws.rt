//! Laws of plans.
ghost use Rattle.map_waves.specs.Laws.{PlansMakeValues, OperandsAreValues, KeptWasRight, PlacedIsRight};

use crate::jobs::Maker;

/// What a plan makes of a statement is the value of its name after the edit.
pub fn values_law()
    ensures values { PlansMakeValues }
    ensures operands { OperandsAreValues }
{}

/// What is kept of a statement that the edit didn't write is right for its operands before.
pub fn kept_law<K: Maker>()
    ensures { KeptWasRight K.suits }
{}

/// What is put in place of a statement is right for its operands after.
pub fn placed_law<K: Maker>()
    ensures { PlacedIsRight K.suits }
{}
