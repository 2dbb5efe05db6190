//! The tiles that the operands' changed cells reach.
ghost use Rattle.std.specs.Prelude.{◌≡◌, ◌*◌, ◌<◌, ◌≤◌, length, IfOk, IsSome};
ghost use Rattle.std.specs.List.{All};
ghost use Rattle.layer_tiles.specs.Operands.{size_of};
ghost use Rattle.layer_tiles.specs.Tallies.{RisesBy};
ghost use Rattle.damage_sets.specs.Classes.{reach_of};
ghost use Rattle.damage_sets.specs.Damage.{damage_of, touched_in};

use crate::changed::add_changed;
use crate::classes::Class;
use crate::sets::TileSet;
use layer_tiles::{Operands, Tally};
use map_nums::NoMemory;
use std::alloc::Global;

/// The tiles whose square, grown by the class's reach, has a changed cell of an operand. Two looks at each tile that an
/// operand's patch holds.
///
/// # Errors
///
/// `NoMemory`.
pub fn damaged<M: Tally>(
    alloc: Global,
    class: Class,
    operands: &Operands<'_>,
    tally: &mut M,
) -> Result<TileSet, NoMemory>
    requires some { 0 < length operands.now }
    requires one_size { All (λ c. c.size ≡ size_of operands.now) operands.now }
    requires there { All (λ c. IsSome c.before) operands.now }
    requires reach { reach_of class ≤ 64 }
    ensures damage { IfOk result (λ set. set ≡ damage_of (reach_of class) (size_of operands.now) operands.now) }
    ensures looks { RisesBy (2 * touched_in operands.now) 0 (M.counts tally.old) (M.counts tally.new) }
{
    let reach = class.reach();
    let first = operands.at(0);
    let mut set = TileSet::new(alloc, first.extent())?;
    for k in 0..operands.len() {
        let change = operands.at(k);
        add_changed(change, reach, &mut set, tally);
    }
    Ok(set)
}
