//! Tiles of a patch left out where they are a layer's own.
ghost use Rattle.std.specs.Prelude.{◌≡◌, ◌*◌, ◌<◌, length};
ghost use Rattle.layer_tiles.specs.Tiles.{IsBlockOf, tiles_in};
ghost use Rattle.layer_tiles.specs.Patches.{IsPatch};
ghost use Rattle.layer_tiles.specs.Narrowed.{is_same_tile, narrowed};
ghost use Rattle.layer_tiles.specs.Tallies.{looked};

use crate::layers::Layer;
use crate::shared::SharedTile;
use crate::tallies::Tally;

/// Keeps the tiles that differ from the layer's, in order. Two looks each.
pub(crate) fn narrow_tiles<M: Tally>(
    layer: &Layer,
    tiles: &mut Vec<(u32, SharedTile)>,
    tally: &mut M,
)
    requires { IsPatch (record { size = layer.now.size; tiles = tiles.old.items }) }
    ensures tiles { tiles.new.items ≡ narrowed layer.now.size layer.now.cells tiles.old.items }
    ensures looks { M.counts tally.new ≡ looked (2 * length tiles.old.items) (M.counts tally.old) }
{
    let mut kept = 0;
    for i in 0..tiles.len() {
        if !is_layers(layer, &tiles[i], tally) {
            tiles.swap(kept, i);
            kept += 1;
        }
    }
    tiles.truncate(kept);
}

/// Whether a numbered tile is the layer's. Two looks.
fn is_layers<M: Tally>(layer: &Layer, entry: &(u32, SharedTile), tally: &mut M) -> bool
    requires within { entry.now.0 < tiles_in layer.now.size }
    requires size { IsBlockOf layer.now.size entry.now.0 entry.now.1 }
    ensures same { result ≡ is_same_tile layer.now.size layer.now.cells entry.now }
    ensures looks { M.counts tally.new ≡ looked 2 (M.counts tally.old) }
{
    tally.look();
    let old = layer.view(entry.0, tally);
    old.same(&entry.1.tile().view())
}
