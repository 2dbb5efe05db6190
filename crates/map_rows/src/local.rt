ghost use Rattle.map_rows.specs.LocalRows.{LocalRows};

/// Local operations: sums, ties, floors, ratings, and nulls.
pub fn local_rows()
    ensures { LocalRows }
{}
