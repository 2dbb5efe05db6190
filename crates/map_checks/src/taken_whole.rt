//! All that a source has left, taken up to a limit.
use map_outside::{FetchFault, ReadSource, take_all};
use std::alloc::{AllocError, Global};
use std::io;
use std::io::Read;
use std::test::Fail;

/// Gives bytes in pieces, and fails once it has given so many.
#[derive(Drop)]
struct Pieces<'a> {
    bytes: &'a [u8],
    at: usize,
    step: usize,
    fails_at: usize,
}

impl Read for Pieces<'_> {
    fn read(&mut self, buf: &mut [u8]) -> io::Result<usize> {
        if self.at >= self.fails_at || self.at > self.bytes.len() {
            return Err(io::Error::from(io::ErrorKind::Other));
        }
        let count = buf.len().min(self.step).min(self.bytes.len() - self.at);
        buf[..count].copy_from_slice(&self.bytes[self.at..self.at + count]);
        self.at += count;
        Ok(count)
    }
}

/// So many bytes, of which neighbours differ.
pub(crate) fn bytes_of(alloc: Global, count: usize) -> Result<Vec<u8>, AllocError> {
    let mut bytes = Vec::new(alloc);
    for at in 0..count {
        bytes.push((at % 251) as u8)?;
    }
    Ok(bytes)
}

#[test]
fn takes_all_of_a_reader(rt: HostRuntime) -> Result<(), Fail> {
    let alloc = rt.alloc();
    for (count, step) in [
        (0, 1),
        (1, 1),
        (4097, 1000),
        (65_536, 65_536),
        (70_000, 65_536),
    ] {
        let bytes = bytes_of(alloc, count)?;
        for limit in [count as u64, count as u64 + 1] {
            let mut source = ReadSource::new(Pieces {
                bytes: &bytes,
                at: 0,
                step,
                fails_at: usize::MAX,
            });
            match take_all(&mut source, alloc, limit) {
                Ok(taken) => assert!(rt; taken.as_slice() == bytes.as_slice(), "{count} {limit}"),
                Err(_) => assert!(rt; false, "{count} {limit}"),
            }
        }
    }
    Ok(())
}

#[test]
fn stops_past_the_limit(rt: HostRuntime) -> Result<(), Fail> {
    let alloc = rt.alloc();
    let bytes = bytes_of(alloc, 70_000)?;
    for limit in [0, 1, 4096, 69_999] {
        let mut source = ReadSource::new(Pieces {
            bytes: &bytes,
            at: 0,
            step: 1000,
            fails_at: limit as usize + 1,
        });
        let taken = take_all(&mut source, alloc, limit);
        assert!(rt; matches!(taken, Err(FetchFault::Long)), "{limit}");
    }
    Ok(())
}

#[test]
fn a_read_that_fails_is_a_fault(rt: HostRuntime) -> Result<(), Fail> {
    let alloc = rt.alloc();
    let bytes = bytes_of(alloc, 70_000)?;
    for fails_at in [0, 1, 65_536, 70_000] {
        let mut source = ReadSource::new(Pieces {
            bytes: &bytes,
            at: 0,
            step: 1,
            fails_at,
        });
        let taken = take_all(&mut source, alloc, 70_000);
        assert!(rt; matches!(taken, Err(FetchFault::Failed)), "{fails_at}");
    }
    Ok(())
}
