//! Each form of what a run reads from and writes to, where all goes well and where it fails.
use crate::taken_whole::bytes_of;
use map_outside::{
    Failed, FetchFault, FileShelf, MemoryShelf, MemorySink, MemorySource, PutFault, ReadSource,
    Shelf, Sink, Source, WriteSink,
};
use std::alloc::{AllocError, Global};
use std::io::Write;
use std::process::Abort;
use std::test::Fail;
use std::{fs, io};

pub(crate) fn named(
    alloc: Global,
    name: &str,
    bytes: &[u8],
) -> Result<(String, Vec<u8>), AllocError> {
    Ok((String::from_str(alloc, name)?, bytes.to_vec(alloc)?))
}

/// What was fetched is these bytes, or this fault.
pub(crate) fn is_fetched(
    rt: &impl Abort,
    fetched: Result<Vec<u8>, FetchFault>,
    want: Result<&[u8], FetchFault>,
) {
    match (fetched, want) {
        (Ok(bytes), Ok(wanted)) => assert!(rt; bytes.as_slice() == wanted),
        (Err(fault), Err(wanted)) => assert_eq!(rt; fault, wanted),
        _ => assert!(rt; false, "{want:?}"),
    }
}

/// A shelf gives these bytes of a file, or this fault.
fn fetches(
    rt: &(impl AllocGlobal + Abort),
    shelf: &mut MemoryShelf,
    name: &str,
    limit: u64,
    want: Result<&[u8], FetchFault>,
) {
    is_fetched(rt, shelf.fetch(rt.alloc(), name, limit), want);
}

#[test]
fn memory_shelf(rt: HostRuntime) -> Result<(), Fail> {
    let alloc = rt.alloc();
    let files = vec![in alloc;
        named(alloc, "a", b"one")?,
        named(alloc, "b", b"three")?,
        named(alloc, "a", b"two")?,
    ]?;
    let mut shelf = MemoryShelf::new(files, vec![in alloc; 2, 6]?);
    fetches(&rt, &mut shelf, "a", 3, Ok(b"one"));
    fetches(&rt, &mut shelf, "b", 5, Err(FetchFault::Failed));
    fetches(&rt, &mut shelf, "b", 4, Err(FetchFault::Long));
    fetches(&rt, &mut shelf, "c", 4, Err(FetchFault::Failed));
    fetches(&rt, &mut shelf, "b", 5, Ok(b"three"));
    fetches(&rt, &mut shelf, "a", 3, Err(FetchFault::Failed));
    Ok(())
}

/// How many bytes are taken into three dots, or into the first of them, and what stands there then.
fn taken<S: Source>(source: &mut S, is_short: bool) -> Result<(usize, [u8; 3]), Failed> {
    let mut into = [b'.'; 3];
    let count = if is_short {
        source.take(&mut into[..1])?
    } else {
        source.take(&mut into)?
    };
    Ok((count, into))
}

/// A source gives this many bytes into three dots, or into the first of them.
pub(crate) fn takes<S: Source>(
    rt: &impl Abort,
    source: &mut S,
    is_short: bool,
    want: Result<(usize, [u8; 3]), Failed>,
) {
    assert_eq!(rt; taken(source, is_short), want);
}

#[test]
fn memory_source(rt: HostRuntime) -> Result<(), Fail> {
    let alloc = rt.alloc();
    let bytes = b"abcdef".as_slice().to_vec(alloc)?;
    let mut source = MemorySource::new(bytes, 2, vec![in alloc; 1, 3]?);
    takes(&rt, &mut source, false, Err(Failed));
    takes(&rt, &mut source, false, Ok((2, *b"ab.")));
    takes(&rt, &mut source, false, Err(Failed));
    takes(&rt, &mut source, true, Ok((1, *b"c..")));
    takes(&rt, &mut source, false, Ok((2, *b"de.")));
    takes(&rt, &mut source, false, Ok((1, *b"f..")));
    takes(&rt, &mut source, false, Ok((0, *b"...")));
    Ok(())
}

#[test]
fn read_source(rt: HostRuntime) {
    let mut source = ReadSource::new(b"abcd".as_slice());
    takes(&rt, &mut source, false, Ok((3, *b"abc")));
    takes(&rt, &mut source, false, Ok((1, *b"d..")));
    takes(&rt, &mut source, false, Ok((0, *b"...")));
}

/// A sink answers this to bytes.
pub(crate) fn puts<S: Sink>(
    rt: &impl Abort,
    sink: &mut S,
    bytes: &[u8],
    want: Result<(), PutFault>,
) {
    assert_eq!(rt; sink.put(bytes), want);
}

#[test]
fn memory_sink(rt: HostRuntime) -> Result<(), Fail> {
    let alloc = rt.alloc();
    let mut sink = MemorySink::new(alloc, vec![in alloc; 2]?);
    puts(&rt, &mut sink, b"ab", Ok(()));
    puts(&rt, &mut sink, b"cd", Err(PutFault::Failed));
    puts(&rt, &mut sink, b"ef", Ok(()));
    assert_eq!(rt; sink.bytes(), b"abef".as_slice());
    Ok(())
}

#[test]
fn write_sink(rt: HostRuntime) {
    let mut bytes = Vec::new(rt.alloc());
    {
        let mut sink = WriteSink::new(&mut bytes);
        assert_eq!(rt; sink.put(b"ab"), Ok(()));
        assert_eq!(rt; sink.put(b"c"), Ok(()));
    }
    assert_eq!(rt; bytes.as_slice(), b"abc".as_slice());
}

#[test]
fn full_writer(rt: HostRuntime) {
    let mut room = [b'.'; 3];
    {
        let mut sink = WriteSink::new(room.as_mut_slice());
        assert_eq!(rt; sink.put(b"ab"), Ok(()));
        assert_eq!(rt; sink.put(b"cd"), Err(PutFault::Failed));
    }
    assert_eq!(rt; room, *b"abc");
}

#[test]
fn file_shelf(rt: HostRuntime) -> Result<(), Fail> {
    const NAME: &str = "map_checks_test_file";
    fs::write(&rt, NAME, b"three".as_slice())?;
    let alloc = rt.alloc();
    let mut shelf = FileShelf::new(&rt);
    is_fetched(&rt, shelf.fetch(alloc, NAME, 5), Ok(b"three"));
    is_fetched(&rt, shelf.fetch(alloc, NAME, 4), Err(FetchFault::Long));
    fs::remove_file(&rt, NAME)?;
    is_fetched(&rt, shelf.fetch(alloc, NAME, 5), Err(FetchFault::Failed));
    Ok(())
}

#[test]
fn a_blank_at_the_end_of_a_name(rt: HostRuntime) -> Result<(), Fail> {
    const NAME: &str = "map_checks_test_name";
    const BLANK: &str = "map_checks_test_name ";
    fs::write(&rt, BLANK, b"three".as_slice())?;
    let alloc = rt.alloc();
    let mut shelf = FileShelf::new(&rt);
    is_fetched(&rt, shelf.fetch(alloc, BLANK, 5), Ok(b"three"));
    is_fetched(&rt, shelf.fetch(alloc, NAME, 5), Err(FetchFault::Failed));
    fs::remove_file(&rt, BLANK)?;
    Ok(())
}

#[test]
fn a_file_of_more_than_a_mebibyte(rt: HostRuntime) -> Result<(), Fail> {
    const NAME: &str = "map_checks_test_large";
    const SIZE: u64 = 1_048_577;
    let alloc = rt.alloc();
    let bytes = bytes_of(alloc, SIZE as usize)?;
    fs::write(&rt, NAME, bytes.as_slice())?;
    let mut shelf = FileShelf::new(&rt);
    is_fetched(&rt, shelf.fetch(alloc, NAME, SIZE), Ok(&bytes));
    is_fetched(
        &rt,
        shelf.fetch(alloc, NAME, SIZE - 1),
        Err(FetchFault::Long),
    );
    fs::remove_file(&rt, NAME)?;
    Ok(())
}

/// Counts the bytes that were written, and those that were flushed.
#[derive(Drop)]
struct Flushes {
    written: usize,
    flushed: usize,
}

impl Write for Flushes {
    fn write(&mut self, buf: &[u8]) -> io::Result<usize> {
        self.written = self.written.saturating_add(buf.len());
        Ok(buf.len())
    }

    fn flush(&mut self) -> io::Result<()> {
        self.flushed = self.written;
        Ok(())
    }
}

#[test]
fn each_put_is_flushed(rt: HostRuntime) {
    let mut writer = Flushes {
        written: 0,
        flushed: 0,
    };
    {
        let mut sink = WriteSink::new(&mut writer);
        assert_eq!(rt; sink.put(b"abc"), Ok(()));
    }
    assert_eq!(rt; writer.flushed, 3);
}

/// Takes all bytes, and fails to flush.
#[derive(Drop)]
struct Unflushed;

impl Write for Unflushed {
    fn write(&mut self, buf: &[u8]) -> io::Result<usize> {
        Ok(buf.len())
    }

    fn flush(&mut self) -> io::Result<()> {
        Err(io::Error::from(io::ErrorKind::Other))
    }
}

#[test]
fn a_flush_that_fails_is_a_fault(rt: HostRuntime) {
    let mut sink = WriteSink::new(Unflushed);
    assert_eq!(rt; sink.put(b"abc"), Err(PutFault::Failed));
}
