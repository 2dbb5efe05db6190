ghost use Rattle.map_rows.specs.ZonalRows.{ZonalRows};

/// Zonal operations: a cell that changes its zone, means with nulls.
pub fn zonal_rows()
    ensures { ZonalRows }
{}
