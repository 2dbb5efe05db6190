//! What is told of the layers of a map.

ghost use Rattle.std.specs.Prelude.{◌≡◌, IfOk, option_map, unwrap_or};
ghost use Rattle.kept_map.specs.Maps.{seen};
ghost use Rattle.kept_map.specs.Keeps.{IsKept};
ghost use Rattle.kept_map.specs.Asked.{TellsLayer};

use crate::maps::KeptMap;
use layer_tiles::Layer;
use map_words::Name;

/// Why a name has no layer: its first missing name, none where the name itself isn't there.
#[derive(Clone, Copy)]
pub struct Missing<'a> {
    pub name: Option<&'a Name>,
}

impl<'a> Missing<'a> {
    /// The first missing name, the name itself where it isn't there.
    pub fn or(self, own: &'a Name) -> &'a Name
        ensures { result.now ≡ unwrap_or (option_map (λ b. b.now) self.entry.name) own.now }
    {
        match self.name {
            None => own,
            Some(missing) => missing,
        }
    }
}

impl KeptMap {
    /// The layer of a name, or why it has none.
    pub fn layer(&self, name: &Name) -> Result<&Layer, Missing<'_>>
        requires { IsKept self.now }
        ensures tells { TellsLayer (seen self.now) name.now result }
        ensures size { IfOk result (λ layer. layer.now.size ≡ self.now.extent) }
    {
        if let Some(place) = self.sources.names.get_index_of(name) {
            return Ok(&self.sources.layers[place]);
        }
        match self.planned.names.get_index_of(name) {
            Some(place) => Ok(&self.kept[place].layer),
            None => Err(Missing {
                name: self.graph.missing(name),
            }),
        }
    }
}
