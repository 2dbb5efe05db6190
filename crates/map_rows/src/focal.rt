ghost use Rattle.map_rows.specs.FocalRows.{FocalRows};

/// Focal operations: ties, discs, edges, and nulls.
pub fn focal_rows()
    ensures { FocalRows }
{}
