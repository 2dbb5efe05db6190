ghost use Rattle.map_rows.specs.ExpansionRows.{ExpansionRows};

/// Calls expanded: nested, with too few terms, of procedures that are not there.
pub fn expansion_rows()
    ensures { ExpansionRows }
{}
