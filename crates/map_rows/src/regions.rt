ghost use Rattle.map_rows.specs.RegionRows.{RegionRows};

/// Regions: whole, split, and joined over corners.
pub fn region_rows()
    ensures { RegionRows }
{}
