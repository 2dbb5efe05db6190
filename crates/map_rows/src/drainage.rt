ghost use Rattle.map_rows.specs.DrainageRows.{DrainageRows};

/// Drainage: directions, courses, and what flows along them.
pub fn drainage_rows()
    ensures { DrainageRows }
{}
