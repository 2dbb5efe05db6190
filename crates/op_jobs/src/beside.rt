//! What is kept beside a layer.
ghost use Rattle.std.specs.Prelude.{◌≡◌, IfOk};

use map_nums::NoMemory;
use map_waves::Aside;
use sight_lines::Viewers;
use std::alloc::Global;
use zonal_totals::Book;

/// What is kept beside a layer, where it is no layer.
#[derive(Drop)]
pub enum Beside {
    Nothing,
    /// Of a Zonal statement.
    Book(Book),
    /// Of a sight statement.
    Viewers(Viewers),
}

impl Beside {
    /// The same, to be changed on its own.
    fn copy(&self, alloc: Global) -> Result<Beside, NoMemory>
        ensures { IfOk result (λ copy. copy ≡ self.now) }
    {
        match self {
            Beside::Nothing => Ok(Beside::Nothing),
            Beside::Book(book) => Ok(Beside::Book(book.copy(alloc)?)),
            Beside::Viewers(viewers) => Ok(Beside::Viewers(viewers.copy(alloc)?)),
        }
    }
}

/// The same as stands beside a layer, to be changed on its own.
///
/// # Errors
///
/// `NoMemory`.
pub fn copy_aside(alloc: Global, aside: &Aside<Beside>) -> Result<Aside<Beside>, NoMemory>
    ensures { IfOk result (λ copy. copy ≡ aside.now) }
{
    match aside {
        Aside::Layer(layer) => Ok(Aside::Layer(layer.copy(alloc)?)),
        Aside::Other(other) => Ok(Aside::Other(other.copy(alloc)?)),
    }
}
