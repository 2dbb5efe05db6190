ghost use Rattle.map_rows.specs.TileRows.{TileRows};

/// Tiles changed and damaged on several tiles.
pub fn tile_rows()
    ensures { TileRows }
{}
