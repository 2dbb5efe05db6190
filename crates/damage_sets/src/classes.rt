//! How far off a changed cell is felt.
ghost use Rattle.std.specs.Prelude.{◌≡◌};
ghost use Rattle.damage_sets.specs.Classes.{reach_of};

/// How far off a changed cell is felt.
#[derive(Clone, Copy)]
pub enum Class {
    /// In its own tile.
    Cells,
    /// Within so many rows and columns.
    Square(u32),
}

impl Class {
    /// How many rows and columns.
    pub(crate) fn reach(self) -> u32
        ensures { result ≡ reach_of self }
    {
        match self {
            Class::Cells => 0,
            Class::Square(radius) => radius,
        }
    }
}
