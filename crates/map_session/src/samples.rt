//! The session of the sample.
ghost use Rattle.std.specs.Prelude.{◌≡◌, ◌≤◌, IfOk};
ghost use Rattle.map_machine.specs.SampleGrids.{sample_header};
ghost use Rattle.map_machine.specs.Samples.{sample_state};

use crate::session::{FIRST_PLACE, Session};
use grid_text::{Corner, Header};
use layer_tiles::{Extent, Text};
use live_engine::Engine;
use map_nums::NoMemory;
use std::alloc::Global;
use undo_shelf::History;

impl Session {
    /// A session over a map without names, for the sample of so many rows and columns.
    ///
    /// # Errors
    ///
    /// `NoMemory` alone.
    pub fn sample(alloc: Global, side: u32) -> Result<Session, NoMemory>
        requires some { 1 ≤ side }
        requires most { side ≤ 1224 }
        ensures { IfOk result (λ s. s ≡ sample_state side) }
    {
        let header = sample_header(alloc)?;
        let engine = Engine::new(alloc, square(side));
        let history = History::new(alloc)?;
        Ok(Session {
            header,
            place: FIRST_PLACE,
            engine,
            history,
        })
    }
}

/// The header texts of the sample.
fn sample_header(alloc: Global) -> Result<Header, NoMemory>
    ensures { IfOk result (λ h. h ≡ sample_header) }
{
    Ok(Header {
        x: Corner {
            center: false,
            text: Text::of(alloc, b"0")?,
        },
        y: Corner {
            center: false,
            text: Text::of(alloc, b"0")?,
        },
        size: Text::of(alloc, b"1")?,
    })
}

/// The extent of so many rows and columns.
fn square(side: u32) -> Extent
    requires some { 1 ≤ side }
    requires most { side ≤ 1224 }
    ensures { result ≡ record { rows = side; columns = side } }
{
    let Some(extent) = Extent::new(side, side) else {
        unreachable!()
    };
    extent
}
