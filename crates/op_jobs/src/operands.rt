//! The operands of an operation that has one or two.
ghost use Rattle.std.specs.Prelude.{◌≡◌, ◌∷◌, [], length};

use layer_tiles::{Change, Operands};

/// The only operand.
pub(crate) fn only_of<'o, 'a>(operands: &'o Operands<'a>) -> &'o Change<'a>
    requires { length operands.now ≡ 1 }
    ensures { operands.now ≡ result.now ∷ [] }
{
    operands.at(0)
}

/// Both operands.
pub(crate) fn both_of<'o, 'a>(operands: &'o Operands<'a>) -> (&'o Change<'a>, &'o Change<'a>)
    requires { length operands.now ≡ 2 }
    ensures { operands.now ≡ result.0.now ∷ result.1.now ∷ [] }
{
    (operands.at(0), operands.at(1))
}
