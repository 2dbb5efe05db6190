//! A law of zones.
ghost use Rattle.zonal_totals.specs.Laws.{UnlistedZonesStay};

/// A zone that is not among those for which a count differs has the same statistic before and after.
pub fn unlisted_zones_law()
    ensures { UnlistedZonesStay }
{}
