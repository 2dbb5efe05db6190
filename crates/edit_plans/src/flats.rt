//! The flat statements that a plan is made of.

ghost use Rattle.std.specs.Prelude.{◌≡◌, bytes_eq, option_map};
ghost use Rattle.std.specs.Map.{lookup};
ghost use Rattle.edit_plans.specs.Planned.{FlatDef};

use map_words::Name;
use statement_parser::Op;

/// A flat statement that may come into a plan.
#[derive(Clone, Copy)]
pub struct Flat<'a> {
    pub op: &'a Op,
    /// The edit wrote it.
    pub written: bool,
}

/// The flat statements of a map after an edit, by name.
pub trait FlatStatements {
    ghost use Rattle.std.specs.Prelude.{List, ℕ};

    ghost all: { Self → List (List ℕ × FlatDef) };

    fn find(&self, name: &Name) -> Option<Flat<'_>>
        ensures { option_map (λ f. record { op = f.op.now; written = f.written }) result ≡ lookup (bytes_eq name.now) (all self.now) };
}
