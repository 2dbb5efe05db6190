//! All that a source has left, taken up to a limit.
ghost use Rattle.std.specs.Prelude.{◌≡◌, ◌<◌, IfOk, length, vec_len};
ghost use Rattle.map_outside.specs.Causes.{FetchCounts};
ghost use Rattle.map_outside.specs.Takings.{TakesAll};

use crate::{Failed, FetchFault, Source};
use std::alloc::{AllocError, Global};

/// How many bytes are asked for at once.
const CHUNK: usize = 65_536;

/// Takes all bytes that are left, where they are at most `limit`. Otherwise it stops at the first byte past them.
pub fn take_all<S: Source>(source: &mut S, alloc: Global, limit: u64) -> Result<Vec<u8>, FetchFault>
    ensures bytes { TakesAll (S.left source.old) (S.left source.new) limit result }
    ensures cause { FetchCounts (S.faults source.old) (S.faults source.new) result }
{
    match zeroed(alloc, CHUNK) {
        Ok(mut chunk) => take_through(source, alloc, &mut chunk, limit),
        Err(_) => Err(FetchFault::NoMemory),
    }
}

// Each turn takes a byte or more.
fn take_through<S: Source>(
    source: &mut S,
    alloc: Global,
    chunk: &mut [u8],
    limit: u64,
) -> Result<Vec<u8>, FetchFault>
    requires { 0 < length chunk.old }
    ensures bytes { TakesAll (S.left source.old) (S.left source.new) limit result }
    ensures cause { FetchCounts (S.faults source.old) (S.faults source.new) result }
{
    let mut bytes = Vec::new(alloc);
    while (bytes.len() as u64) <= limit {
        let wanted = (limit - bytes.len() as u64).saturating_add(1);
        let room = wanted.min(chunk.len() as u64) as usize;
        match source.take(&mut chunk[..room]) {
            Ok(0) => return Ok(bytes),
            Ok(count) => {
                if bytes.extend_from_slice(&chunk[..count]).is_err() {
                    return Err(FetchFault::NoMemory);
                }
            }
            Err(Failed) => return Err(FetchFault::Failed),
        }
    }
    Err(FetchFault::Long)
}

fn zeroed(alloc: Global, size: usize) -> Result<Vec<u8>, AllocError>
    ensures { IfOk result (λ bytes. vec_len bytes ≡ size) }
{
    vec![in alloc; 0u8; size]
}
