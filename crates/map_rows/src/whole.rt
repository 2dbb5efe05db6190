ghost use Rattle.map_rows.specs.WholeRows.{WholeRows};

/// Operations of whole grids on small grids with nulls.
pub fn whole_rows()
    ensures { WholeRows }
{}
