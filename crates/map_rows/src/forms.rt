ghost use Rattle.map_rows.specs.FormRows.{FormRows};

/// Incremental operations: the smallest grid, nulls, a line and a slope.
pub fn form_rows()
    ensures { FormRows }
{}
