ghost use Rattle.map_rows.specs.NearRows.{NearRows};

/// Focal and Incremental operations on small grids with nulls.
pub fn near_rows()
    ensures { NearRows }
{}
