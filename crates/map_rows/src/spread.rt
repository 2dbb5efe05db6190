ghost use Rattle.map_rows.specs.SpreadRows.{SpreadRows};

/// Spreading: barriers and limits, frictions that rise, around and through.
pub fn spread_rows()
    ensures { SpreadRows }
{}
