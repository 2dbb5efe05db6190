ghost use Rattle.map_defs.specs.NearestLaws.{NearestIs, NearestOnly, NearestFromSteps, OneOfSteps};

/// The plain program for nearest sources gives their numbers, and no other cells are they; values that agree along the steps that
/// least costs use are they, and so are the only ones.
pub fn nearest_law()
    ensures is { NearestIs }
    ensures only { NearestOnly }
    ensures from_steps { NearestFromSteps }
    ensures one { OneOfSteps }
{}
