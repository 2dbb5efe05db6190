ghost use Rattle.map_rows.specs.WorkRows.{WorkRows};

/// Tiles changed, damage and work of statements on small grids with nulls.
pub fn work_rows()
    ensures { WorkRows }
{}
