//! The forms in memory that never fail, and runs over them.
use crate::runs::{FILE, LOADED, SESSION, SHOWN, WORDS, owned};
use crate::shelves_and_sinks::{is_fetched, named, puts, takes};
use map_outside::{Counts, FetchFault, RepeatSource, Shelf, SteadyShelf, SteadySink, SteadySource};
use map_run::{Means, Status, run, run_steady};
use std::alloc::{AllocError, Global};
use std::process::Abort;
use std::test::Fail;
use std::thread::Threads;
use tile_workers::NoGate;

#[test]
fn steady_shelf(rt: HostRuntime) -> Result<(), Fail> {
    let alloc = rt.alloc();
    let files = vec![in alloc; named(alloc, "a", b"one")?, named(alloc, "a", b"two")?]?;
    let mut shelf = SteadyShelf::new(files);
    is_fetched(&rt, shelf.fetch(alloc, "a", 3), Ok(b"one"));
    is_fetched(&rt, shelf.fetch(alloc, "a", 2), Err(FetchFault::Long));
    is_fetched(&rt, shelf.fetch(alloc, "b", 0), Ok(b""));
    Ok(())
}

#[test]
fn steady_source(rt: HostRuntime) -> Result<(), Fail> {
    let mut source = SteadySource::new(b"abcd".as_slice().to_vec(rt.alloc())?, 2);
    takes(&rt, &mut source, false, Ok((2, *b"ab.")));
    takes(&rt, &mut source, true, Ok((1, *b"c..")));
    takes(&rt, &mut source, false, Ok((1, *b"d..")));
    takes(&rt, &mut source, false, Ok((0, *b"...")));
    Ok(())
}

#[test]
fn repeat_source(rt: HostRuntime) {
    let mut source = RepeatSource::new(b'x', 5);
    takes(&rt, &mut source, false, Ok((3, *b"xxx")));
    takes(&rt, &mut source, true, Ok((1, *b"x..")));
    takes(&rt, &mut source, false, Ok((1, *b"x..")));
    takes(&rt, &mut source, false, Ok((0, *b"...")));
}

/// A sink has these bytes, and more were put or not.
fn has(rt: &impl Abort, sink: &SteadySink, bytes: &[u8], is_past: bool) {
    assert_eq!(rt; sink.bytes(), bytes);
    assert_eq!(rt; sink.is_past(), is_past);
}

#[test]
fn steady_sink(rt: HostRuntime) -> Result<(), Fail> {
    let mut sink = sink_of(rt.alloc(), 3)?;
    puts(&rt, &mut sink, b"ab", Ok(()));
    has(&rt, &sink, b"ab", false);
    puts(&rt, &mut sink, b"c", Ok(()));
    has(&rt, &sink, b"abc", false);
    puts(&rt, &mut sink, b"de", Ok(()));
    has(&rt, &sink, b"abc", true);
    Ok(())
}

/// A sink with room for so many bytes.
fn sink_of(alloc: Global, room: usize) -> Result<SteadySink, AllocError> {
    Ok(SteadySink::new(vec![in alloc; 0u8; room]?))
}

/// A shelf with one file.
fn shelf_of(alloc: Global, name: &str, file: &[u8]) -> Result<SteadyShelf, AllocError> {
    let files = vec![in alloc; named(alloc, name, file)?]?;
    Ok(SteadyShelf::new(files))
}

/// How a run over one file ends, with what its sink has room for.
fn play<R: AllocGlobal + Threads + Sync>(
    rt: &R,
    words: &[String],
    file: &[u8],
    session: &[u8],
    room: usize,
) -> Result<(Status, SteadySink), AllocError> {
    let alloc = rt.alloc();
    let mut shelf = shelf_of(alloc, "a", file)?;
    let mut source = SteadySource::new(session.to_vec(alloc)?, 12);
    let mut sink = sink_of(alloc, room)?;
    let mut tally = Counts::new();
    let gate = &NoGate;
    let means = Means { rt, alloc, gate };
    let status = run_steady(means, words, &mut shelf, &mut source, &mut sink, &mut tally);
    Ok((status, sink))
}

/// A run over steady forms, with so much room, ends so and writes this.
fn plays_steadily<R: AllocGlobal + Abort + Threads + Sync>(
    rt: &R,
    texts: &[&str],
    room: usize,
    status: Status,
    wrote: &[u8],
) -> Result<(), Fail> {
    let words = owned(rt.alloc(), texts)?;
    let (ended, sink) = play(rt, &words, FILE, SESSION, room)?;
    assert_eq!(rt; ended, status, "{texts:?}");
    assert_eq!(rt; sink.bytes(), wrote, "{texts:?}");
    Ok(())
}

#[test]
fn runs_over_steady_forms(rt: HostRuntime) -> Result<(), Fail> {
    plays_steadily(&rt, &WORDS, 300, Status::Done, SHOWN)?;
    // past the room it goes on
    plays_steadily(&rt, &WORDS, LOADED.len(), Status::Done, LOADED)?;
    // a file that the shelf lacks is empty
    let words = ["run", "1", "-", "A=b"];
    plays_steadily(&rt, &words, 300, Status::Load, b"refused load A key 1\n")
}

/// How a run ends whose session is so many blanks.
fn play_blanks<R: AllocGlobal + Threads + Sync>(
    rt: &R,
    words: &[String],
    blanks: u64,
) -> Result<(Status, SteadySink), AllocError> {
    let alloc = rt.alloc();
    let mut shelf = shelf_of(alloc, "a", FILE)?;
    let mut source = RepeatSource::new(b' ', blanks);
    let mut sink = sink_of(alloc, 100)?;
    let mut tally = Counts::new();
    let status = run(
        rt,
        alloc,
        words,
        &mut shelf,
        &mut source,
        &mut sink,
        &NoGate,
        &mut tally,
    );
    Ok((status, sink))
}

#[test]
fn a_session_that_is_too_long(rt: HostRuntime) -> Result<(), Fail> {
    let words = owned(rt.alloc(), &WORDS)?;
    let (status, sink) = play_blanks(&rt, &words, 1_073_741_824)?;
    assert_eq!(rt; status, Status::TooLong);
    assert_eq!(rt; sink.bytes(), LOADED);
    Ok(())
}
