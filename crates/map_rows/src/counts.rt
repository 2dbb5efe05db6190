ghost use Rattle.map_rows.specs.CountRows.{CountRows};

/// Tiles changed, damage and work of statements on one tile.
pub fn count_rows()
    ensures { CountRows }
{}
