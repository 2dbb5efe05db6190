//! What an edit counts.

ghost use Rattle.std.specs.Prelude.{◌≡◌, ◌^◌, ◌<◌};
ghost use Rattle.kept_map.specs.Repairs.{counts_view};
ghost use Rattle.edit_plans.specs.SourceCounts.{joined as joined_counts};

use map_waves::Counts;

/// The counts of an edit: the tiles of its own source that changed and were damaged, beside those of all statements.
pub(crate) fn joined(changed: u32, evaluated: u32, counts: Counts) -> Counts
    requires changed { counts.changed < 2 ^ 63 }
    requires evaluated { counts.evaluated < 2 ^ 63 }
    ensures { counts_view result ≡ joined_counts (record { changed = changed; evaluated = evaluated; worked = 0 }) (counts_view counts) }
{
    Counts {
        changed: u64::from(changed) + counts.changed,
        evaluated: u64::from(evaluated) + counts.evaluated,
        worked: counts.worked,
    }
}
