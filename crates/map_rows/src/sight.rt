ghost use Rattle.map_rows.specs.SightRows.{SightRows};

/// Sight: over a slope and a ridge, from above, within a reach.
pub fn sight_rows()
    ensures { SightRows }
{}
