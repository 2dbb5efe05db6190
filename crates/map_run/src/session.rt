//! The session, from a source to a sink.
ghost use Rattle.std.specs.Prelude.{◌≡◌, ◌≤◌, ◌<◌, ℕ, length, vec_len, IfOk};
ghost use Rattle.layer_tiles.specs.Tallies.{KeepsParts, IsUndivided};
ghost use Rattle.map_run.specs.FaultCounts.{RunCounts};
ghost use Rattle.map_run.specs.Played.{Plays};
ghost use Rattle.map_run.specs.Shown.{progress};
ghost use Rattle.map_run.specs.Stops.{status_of};

use crate::lines::{Fed, feed, finish};
use crate::piece::Piece;
use crate::setup::Setup;
use crate::stop::Stop;
use layer_tiles::Tally;
use map_nums::NoMemory;
use map_outside::{Failed, Sink, Source};
use map_session::Session;
use std::alloc::Global;
use std::thread::Threads;
use tile_workers::Gate;

/// How many bytes are asked for at once.
const CHUNK: usize = 65_536;

fn zeroed(alloc: Global, size: usize) -> Result<Vec<u8>, NoMemory>
    ensures { IfOk result (λ bytes. vec_len bytes ≡ size) }
{
    Ok(vec![in alloc; 0u8; size]?)
}

// Plays a session through a buffer.
fn play_chunks<S: Source, K: Sink, M: Tally + Send, G: Gate + Sync, R: Threads + Sync>(
    setup: &Setup<'_, G, R>,
    session: &mut Session,
    source: &mut S,
    sink: &mut K,
    tally: &mut M,
    chunk: &mut [u8],
) -> Result<(), Stop>
    requires some { 0 < length chunk.old }
    requires whole { IsUndivided (M.counts tally.old) }
    ensures counts { (shelf : ℕ) → RunCounts shelf shelf (S.faults source.old) (S.faults source.new) (K.faults sink.old) (K.faults sink.new) (status_of result) }
    ensures parts { KeepsParts (M.counts tally.old) (M.counts tally.new) }
    ensures plays { Plays setup.now.limits.session session.old (S.left source.old) (S.left source.new)
        (progress K.held K.faults sink.old (M.counts tally.old)) (progress K.held K.faults sink.new (M.counts tally.new)) (status_of result) }
{
    let limit = setup.limits.session;
    let mut piece = Piece::new(setup.crew.alloc);
    let mut taken = 0;
    while taken < limit {
        let room = (limit - taken).min(chunk.len() as u64) as usize;
        match source.take(&mut chunk[..room]) {
            Err(Failed) => return Err(Stop::SourceFault),
            Ok(0) => {
                finish(setup, session, sink, tally, &piece)?;
                return Ok(());
            }
            Ok(count) => {
                taken += count as u64;
                match feed(setup, session, sink, tally, &mut piece, &chunk[..count])? {
                    Fed::More => {}
                    Fed::Quit => return Ok(()),
                }
            }
        }
    }
    Err(Stop::TooLong)
}

/// Answers the lines of a source, up to its end, to a line that ends the session, or to so many bytes.
pub fn play_session<S: Source, K: Sink, M: Tally + Send, G: Gate + Sync, R: Threads + Sync>(
    setup: &Setup<'_, G, R>,
    session: &mut Session,
    source: &mut S,
    sink: &mut K,
    tally: &mut M,
) -> Result<(), Stop>
    requires whole { IsUndivided (M.counts tally.old) }
    ensures counts { (shelf : ℕ) → RunCounts shelf shelf (S.faults source.old) (S.faults source.new) (K.faults sink.old) (K.faults sink.new) (status_of result) }
    ensures parts { KeepsParts (M.counts tally.old) (M.counts tally.new) }
    ensures plays { Plays setup.now.limits.session session.old (S.left source.old) (S.left source.new)
        (progress K.held K.faults sink.old (M.counts tally.old)) (progress K.held K.faults sink.new (M.counts tally.new)) (status_of result) }
{
    let mut chunk = zeroed(setup.crew.alloc, CHUNK)?;
    play_chunks(setup, session, source, sink, tally, &mut chunk)
}
