ghost use Rattle.map_rows.specs.NearestRows.{NearestRows};

/// Nearest sources: ties, frictions that rise, a source that goes, limits.
pub fn nearest_rows()
    ensures { NearestRows }
{}
