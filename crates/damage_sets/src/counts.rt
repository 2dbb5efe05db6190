//! How many tiles a set and patches have.
ghost use Rattle.std.specs.Prelude.{◌≡◌, ◌<◌, ◌||◌, if◌then◌else◌, length, filter, IfSome};
ghost use Rattle.std.specs.Option.{option_copied};
ghost use Rattle.map_nums.specs.Tiles.{tiles, tiles_in};
ghost use Rattle.damage_sets.specs.Sets.{has_tile};
ghost use Rattle.damage_sets.specs.Counted.{has_in, is_new, count_any};

use crate::sets::TileSet;
use layer_tiles::Patch;

/// Whether there is a patch, and it has the tile.
fn has_in(patch: Option<&Patch>, tile: u32) -> bool
    ensures { result ≡ has_in (option_copied patch.entry) tile }
{
    match patch {
        Some(patch) => patch.has(tile),
        None => false,
    }
}

/// Whether a set or a patch has the tile.
fn has_either(set: &TileSet, other: Option<&Patch>, tile: u32) -> bool
    requires { tile < tiles_in set.now.size }
    ensures { result ≡ (has_tile set.now tile || has_in (option_copied other.entry) tile) }
{
    set.has(tile) || has_in(other, tile)
}

/// One where a test passes, else none.
fn one_if(passes: bool) -> u32
    ensures value { result ≡ (if passes then 1 else 0) }
    ensures most { result < 2 }
{
    if passes { 1 } else { 0 }
}

/// How many tiles a set has.
fn count_set(set: &TileSet) -> u32
    ensures { result ≡ length (filter (has_tile set.now) (tiles set.now.size)) }
{
    let mut count = 0;
    for tile in 0..set.extent().tiles() {
        count += one_if(set.has(tile));
    }
    count
}

/// How many tiles of a patch neither a set nor another patch has.
fn count_new(patch: &Patch, set: &TileSet, other: Option<&Patch>) -> u32
    requires { set.now.size ≡ patch.now.size }
    ensures { result ≡ length (filter (is_new patch.now set.now (option_copied other.entry)) (tiles patch.now.size)) }
{
    let extent = patch.extent();
    let _tiles = extent.tiles();
    let mut count = 0;
    let mut from = 0;
    while let Some(tile) = patch.next_from(from) {
        count += one_if(!has_either(set, other, tile));
        from = tile + 1;
    }
    count
}

/// How many tiles a set, a patch or a further patch has. It goes over the marks of the set once, and then over the patches' tiles alone.
pub fn count_any(set: &TileSet, patch: &Patch, further: Option<&Patch>) -> u32
    requires size { set.now.size ≡ patch.now.size }
    requires further { IfSome (option_copied further) (λ other. set.now.size ≡ other.size) }
    ensures { result ≡ count_any set.now patch.now (option_copied further.entry) }
{
    let _tiles = set.extent().tiles();
    let own = count_set(set) + count_new(patch, set, None);
    match further {
        Some(other) => own + count_new(other, set, Some(patch)),
        None => own,
    }
}
