ghost use Rattle.map_rows.specs.ChangeRows.{ChangeRows};

/// Tiles changed, damage and work of statements whose operands change.
pub fn change_rows()
    ensures { ChangeRows }
{}
