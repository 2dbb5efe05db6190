//! Whole runs, over the forms in memory and over the adapters.
ghost use Rattle.std.specs.Prelude.{◌<◌};

use map_outside::{
    Counts, FileShelf, MemoryShelf, MemorySink, MemorySource, ReadSource, WriteSink,
};
use map_run::{Limits, Means, Status, run, run_within};
use std::alloc::{AllocError, Global};
use std::fs;
use std::fs::Files;
use std::process::Abort;
use std::test::Fail;
use std::thread::Threads;
use tile_workers::NoGate;

pub(crate) const WORDS: [&str; 4] = ["run", "1", "-", "A=a"];

pub(crate) const FILE: &[u8] =
    b"ncols 3\nnrows 3\nxllcorner 0\nyllcorner 0\ncellsize 1\n1 2 3\n4 5 6\n7 8 9\n";

const SEVEN: &[u8] = b"ncols 1\nnrows 1\nxllcorner 0\nyllcorner 0\ncellsize 1\n7\n";

const SPACED: &[u8] =
    b"NCOLS        2\r\nNROWS        2\r\nXLLCORNER    100.5\r\nYLLCORNER    -20.000000000000\r\nCELLSIZE     60.000000000000\r\n 1 2\r\n -9999 4\r\n";

pub(crate) const SESSION: &[u8] = b"B = LocalSum of A and 3\ngrid B\n";

// The replies to the load, then to the first line too, then to both lines.
pub(crate) const LOADED: &[u8] = b"ok 1 changed 1 evaluated 1 worked 0\n";

const SUMMED: &[u8] = b"ok 1 changed 1 evaluated 1 worked 0\nok 2 changed 1 evaluated 1 worked 0\n";

pub(crate) const SHOWN: &[u8] =
    b"ok 1 changed 1 evaluated 1 worked 0\nok 2 changed 1 evaluated 1 worked 0\nncols 3\nnrows 3\nxllcorner 0\nyllcorner 0\ncellsize 1\nNODATA_value -1000000000000001\n4 5 6\n7 8 9\n10 11 12\n";

/// The numbers of the calls that fail. No call has the number 0.
#[derive(Clone, Copy)]
struct Fails {
    shelf: u64,
    source: u64,
    sink: u64,
}

const NONE: Fails = Fails {
    shelf: 0,
    source: 0,
    sink: 0,
};

pub(crate) fn owned(alloc: Global, texts: &[&str]) -> Result<Vec<String>, AllocError> {
    let mut words = Vec::new(alloc);
    for text in texts {
        words.push(String::from_str(alloc, text)?)?;
    }
    Ok(words)
}

fn shelf_of(
    alloc: Global,
    files: &[(&str, &[u8])],
    fails: Fails,
) -> Result<MemoryShelf, AllocError> {
    let mut held = Vec::new(alloc);
    for (name, bytes) in files {
        held.push((String::from_str(alloc, name)?, bytes.to_vec(alloc)?))?;
    }
    Ok(MemoryShelf::new(held, vec![in alloc; fails.shelf]?))
}

/// A source that gives at most so many bytes at a time.
fn source_of(
    alloc: Global,
    session: &[u8],
    step: usize,
    fails: Fails,
) -> Result<MemorySource, AllocError>
    requires { 0 < step }
{
    let bytes = session.to_vec(alloc)?;
    Ok(MemorySource::new(bytes, step, vec![in alloc; fails.source]?))
}

fn sink_of(alloc: Global, fails: Fails) -> Result<MemorySink, AllocError> {
    Ok(MemorySink::new(alloc, vec![in alloc; fails.sink]?))
}

/// How a run ended, with what it wrote.
fn ended(
    alloc: Global,
    status: Status,
    sink: &MemorySink,
) -> Result<(Status, Vec<u8>), AllocError> {
    Ok((status, sink.bytes().to_vec(alloc)?))
}

/// How a run of these words ends, and what it writes.
fn play_words<R: AllocGlobal + Threads + Sync>(
    rt: &R,
    words: &[String],
    files: &[(&str, &[u8])],
    session: &[u8],
    fails: Fails,
) -> Result<(Status, Vec<u8>), AllocError> {
    let alloc = rt.alloc();
    let mut shelf = shelf_of(alloc, files, fails)?;
    let mut source = source_of(alloc, session, 12, fails)?;
    let mut sink = sink_of(alloc, fails)?;
    let mut tally = Counts::new();
    let status = run(
        rt,
        alloc,
        words,
        &mut shelf,
        &mut source,
        &mut sink,
        &NoGate,
        &mut tally,
    );
    ended(alloc, status, &sink)
}

/// How a run of these words with these limits ends, and what it writes.
fn play_within<R: AllocGlobal + Threads + Sync>(
    rt: &R,
    words: &[String],
    files: &[(&str, &[u8])],
    session: &[u8],
    limits: Limits,
) -> Result<(Status, Vec<u8>), AllocError> {
    let alloc = rt.alloc();
    let mut shelf = shelf_of(alloc, files, NONE)?;
    let mut source = source_of(alloc, session, 5, NONE)?;
    let mut sink = sink_of(alloc, NONE)?;
    let mut tally = Counts::new();
    let means = Means {
        rt,
        alloc,
        gate: &NoGate,
    };
    let status = run_within(
        means,
        words,
        limits,
        &mut shelf,
        &mut source,
        &mut sink,
        &mut tally,
    );
    ended(alloc, status, &sink)
}

/// A run of these words, in which these calls fail, ends with this code and writes this.
fn plays<R: AllocGlobal + Abort + Threads + Sync>(
    rt: &R,
    texts: &[&str],
    files: &[(&str, &[u8])],
    session: &[u8],
    fails: Fails,
    want: (u8, &[u8]),
) -> Result<(), Fail> {
    let words = owned(rt.alloc(), texts)?;
    let (status, wrote) = play_words(rt, &words, files, session, fails)?;
    assert_eq!(rt; (status.code(), wrote.as_slice()), want, "{texts:?}");
    Ok(())
}

/// A run with these limits over one file ends so and writes this.
fn keeps_within<R: AllocGlobal + Abort + Threads + Sync>(
    rt: &R,
    texts: &[&str],
    files: &[(&str, &[u8])],
    session: &[u8],
    limits: Limits,
    want: (Status, &[u8]),
) -> Result<(), Fail> {
    let words = owned(rt.alloc(), texts)?;
    let (status, wrote) = play_within(rt, &words, files, session, limits)?;
    assert_eq!(rt; (status, wrote.as_slice()), want);
    Ok(())
}

#[test]
fn shows_a_sum(rt: HostRuntime) -> Result<(), Fail> {
    plays(&rt, &WORDS, &[("a", FILE)], SESSION, NONE, (0, SHOWN))
}

#[test]
fn answers_lines(rt: HostRuntime) -> Result<(), Fail> {
    for (pair, file, session, replies) in [
        (
            "S=a",
            SEVEN,
            b"A = LocalSum of B and 1\nB = LocalSum of A and 1\nB = LocalSum of B and 1\nlist\n".as_slice(),
            b"ok 1 changed 1 evaluated 1 worked 0\nok 2 changed 0 evaluated 0 worked 0\nrefused cycle B\nrefused cycle B\nlist 2\nsource S\nA = LocalSum of B and 1\n".as_slice(),
        ),
        (
            "A=a",
            FILE,
            b"C = LocalSum of A and Q\nvalue C 1 1\nA = LocalSum of A and 1\ndrop Q\n".as_slice(),
            b"ok 1 changed 1 evaluated 1 worked 0\nok 2 changed 0 evaluated 0 worked 0\nundefined C: Q\nrefused exists A\nrefused unknown Q\n".as_slice(),
        ),
        (
            "A=a",
            SEVEN,
            b"B = LocalSum of C and 1\ngrid B\nnew C 1\nvalue B 1 1\ndrop C\nvalue B 1 1\nvalue C 1 1\nnew C 1\nvalue B 2 1\n".as_slice(),
            b"ok 1 changed 1 evaluated 1 worked 0\nok 2 changed 0 evaluated 0 worked 0\nundefined B: C\nok 3 changed 2 evaluated 2 worked 0\nvalue B 1 1 2\nok 4 changed 0 evaluated 0 worked 0\nundefined B: C\nundefined C: C\nok 5 changed 2 evaluated 2 worked 0\nvalue B 2 1 outside\n".as_slice(),
        ),
        (
            "A=a",
            SPACED,
            b"grid A\n".as_slice(),
            b"ok 1 changed 1 evaluated 1 worked 0\nncols 2\nnrows 2\nxllcorner 100.5\nyllcorner -20.000000000000\ncellsize 60.000000000000\nNODATA_value -1000000000000001\n1 2\n-1000000000000001 4\n".as_slice(),
        ),
    ] {
        let words = ["run", "1", "-", pair];
        plays(&rt, &words, &[("a", file)], session, NONE, (0, replies))?;
    }
    Ok(())
}

#[test]
fn refuses_a_load(rt: HostRuntime) -> Result<(), Fail> {
    for (file, reply) in [
        (
            b"ncols x\n".as_slice(),
            b"refused load A number 7\n".as_slice(),
        ),
        (
            b"ncols 1\nnrows 1\nxllcorner 0\nyllcorner 0\ndx 1\n".as_slice(),
            b"refused load A key 41\n".as_slice(),
        ),
        (
            b"ncols 0\nnrows 1\nxllcorner 0\nyllcorner 0\ncellsize 1\n7\n".as_slice(),
            b"refused load A limits 1 0\n".as_slice(),
        ),
        (
            b"ncols 1\nnrows 1\nxllcorner 0\nyllcorner 0\ncellsize 1\n7.5\n".as_slice(),
            b"refused load A cell 1\n".as_slice(),
        ),
        (
            b"ncols 1\nnrows 1\nxllcorner 0\nyllcorner 0\ncellsize 1\n1000000000000001\n".as_slice(),
            b"refused load A range 1\n".as_slice(),
        ),
    ] {
        plays(&rt, &WORDS, &[("a", file)], SESSION, NONE, (3, reply))?;
    }
    Ok(())
}

#[test]
fn refuses_a_second_load(rt: HostRuntime) -> Result<(), Fail> {
    let words = ["run", "64", "-", "A=a", "B=b"];
    for (file, code, replies) in [
        (
            SEVEN,
            3,
            b"ok 1 changed 1 evaluated 1 worked 0\nrefused load B size 3 3\n".as_slice(),
        ),
        (
            FILE,
            0,
            b"ok 1 changed 1 evaluated 1 worked 0\nok 2 changed 1 evaluated 1 worked 0\nlist 2\nsource A\nsource B\n".as_slice(),
        ),
    ] {
        let files = [("a", FILE), ("b", file)];
        plays(&rt, &words, &files, b"list\n", NONE, (code, replies))?;
    }
    Ok(())
}

#[test]
fn refuses_words(rt: HostRuntime) -> Result<(), Fail> {
    plays(&rt, &[], &[("a", FILE)], SESSION, NONE, (2, b""))?;
    for words in [
        ["run", "1", "-", "A"].as_slice(),
        ["run", "1", "-", "=a"].as_slice(),
        ["run", "1", "-", "A="].as_slice(),
        ["run", "1", "-", "grid=a"].as_slice(),
        ["run", "1", "-", "A.b=a"].as_slice(),
        ["run", "0", "-", "A=a"].as_slice(),
        ["run", "65", "-", "A=a"].as_slice(),
        ["run", "01", "-", "A=a"].as_slice(),
        ["run", "+1", "-", "A=a"].as_slice(),
        ["run", "", "-", "A=a"].as_slice(),
        ["run", "1 ", "-", "A=a"].as_slice(),
        ["run", "1", "-"].as_slice(),
        ["run", "1", "A=a"].as_slice(),
        ["sample", "1", "0"].as_slice(),
        ["sample", "1", "1225"].as_slice(),
        ["sample", "1", "01"].as_slice(),
        ["sample", "1", "1", "1"].as_slice(),
        ["sample", "0", "1"].as_slice(),
        ["run", "1", "", "A=a"].as_slice(),
        ["run", "1", "-", "A=a", "B=a", "A=b"].as_slice(),
    ] {
        plays(&rt, words, &[("a", FILE)], SESSION, NONE, (2, b""))?;
    }
    Ok(())
}

/// Words with so many pairs.
fn words_with(alloc: Global, pairs: u32) -> Result<Vec<String>, AllocError> {
    let mut words = owned(alloc, &["run", "1", "-"])?;
    for pair in 0..pairs {
        words.push(format!(in alloc; "L{pair}=a")?)?;
    }
    Ok(words)
}

/// A run with so many pairs ends with this code and writes so many lines.
fn loads_pairs<R: AllocGlobal + Abort + Threads + Sync>(
    rt: &R,
    pairs: u32,
    want: (u8, usize),
) -> Result<(), Fail> {
    let words = words_with(rt.alloc(), pairs)?;
    let (status, wrote) = play_words(rt, &words, &[("a", SEVEN)], b"", NONE)?;
    let lines = wrote.iter().filter(|byte| **byte == b'\n').count();
    assert_eq!(rt; (status.code(), lines), want, "{pairs}");
    Ok(())
}

#[test]
fn loads_up_to_thirty_two_pairs(rt: HostRuntime) -> Result<(), Fail> {
    loads_pairs(&rt, 32, (0, 32))?;
    loads_pairs(&rt, 33, (2, 0))
}

#[test]
fn stops_at_a_fault_of_the_source(rt: HostRuntime) -> Result<(), Fail> {
    for (call, code, wrote) in [
        (1, 5, LOADED),
        (2, 5, LOADED),
        (3, 5, SUMMED),
        (4, 5, SHOWN),
        (5, 0, SHOWN),
    ] {
        let fails = Fails {
            shelf: 0,
            source: call,
            sink: 0,
        };
        plays(&rt, &WORDS, &[("a", FILE)], SESSION, fails, (code, wrote))?;
    }
    Ok(())
}

#[test]
fn stops_at_a_fault_of_the_sink(rt: HostRuntime) -> Result<(), Fail> {
    for (call, code, wrote) in [
        (1, 6, b"".as_slice()),
        (2, 6, LOADED),
        (3, 6, SUMMED),
        (4, 0, SHOWN),
    ] {
        let fails = Fails {
            shelf: 0,
            source: 0,
            sink: call,
        };
        plays(&rt, &WORDS, &[("a", FILE)], SESSION, fails, (code, wrote))?;
    }
    Ok(())
}

#[test]
fn stops_at_a_fault_of_the_shelf(rt: HostRuntime) -> Result<(), Fail> {
    let fails = Fails {
        shelf: 1,
        source: 0,
        sink: 0,
    };
    plays(&rt, &WORDS, &[("a", FILE)], SESSION, fails, (4, b""))?;
    let words = ["run", "1", "-", "A=b"];
    plays(&rt, &words, &[("a", FILE)], SESSION, NONE, (4, b""))
}

#[test]
fn keeps_to_the_limits(rt: HostRuntime) -> Result<(), Fail> {
    for (file, session, status, wrote) in [
        (
            69,
            14,
            Status::Done,
            b"ok 1 changed 1 evaluated 1 worked 0\nundefined B: B\nundefined C: C\n".as_slice(),
        ),
        (
            69,
            13,
            Status::TooLong,
            b"ok 1 changed 1 evaluated 1 worked 0\nundefined B: B\n".as_slice(),
        ),
        (69, 6, Status::TooLong, LOADED),
        (69, 0, Status::TooLong, LOADED),
        (68, 14, Status::Load, b"refused load A long 68\n".as_slice()),
    ] {
        keeps_within(
            &rt,
            &WORDS,
            &[("a", FILE)],
            b"grid B\ngrid C",
            Limits { file, session },
            (status, wrote),
        )?;
    }
    Ok(())
}

/// A line of so many blanks, and a further one.
fn long_session(alloc: Global, blanks: usize) -> Result<Vec<u8>, AllocError> {
    let mut session = vec![in alloc; b' '; blanks]?;
    session.extend_from_slice(b"\ngrid B")?;
    Ok(session)
}

#[test]
fn refuses_a_long_line(rt: HostRuntime) -> Result<(), Fail> {
    let session = long_session(rt.alloc(), 4097)?;
    keeps_within(
        &rt,
        &WORDS,
        &[("a", FILE)],
        &session,
        Limits {
            file: 69,
            session: 5000,
        },
        (
            Status::Done,
            b"ok 1 changed 1 evaluated 1 worked 0\nrefused long 4097\nundefined B: B\n",
        ),
    )
}

/// How a run over the adapters of a reader and a writer ends.
fn play_adapted<R: AllocGlobal + Threads + Sync>(
    rt: &R,
    words: &[String],
    shelf: &mut MemoryShelf,
    wrote: &mut Vec<u8>,
) -> Status {
    let mut source = ReadSource::new(SESSION);
    let mut sink = WriteSink::new(wrote);
    let mut tally = Counts::new();
    run(
        rt,
        rt.alloc(),
        words,
        shelf,
        &mut source,
        &mut sink,
        &NoGate,
        &mut tally,
    )
}

#[test]
fn runs_over_a_reader_and_a_writer(rt: HostRuntime) -> Result<(), Fail> {
    let alloc = rt.alloc();
    let words = owned(alloc, &WORDS)?;
    let mut shelf = shelf_of(alloc, &[("a", FILE)], NONE)?;
    let mut wrote = Vec::new(alloc);
    let status = play_adapted(&rt, &words, &mut shelf, &mut wrote);
    assert_eq!(rt; status, Status::Done);
    assert_eq!(rt; wrote.as_slice(), SHOWN);
    Ok(())
}

/// How a run over the files of the system ends, and how many bytes it writes.
fn play_files<R: AllocGlobal + Files + Threads + Sync>(
    rt: &R,
    words: &[String],
) -> (Status, usize) {
    let mut shelf = FileShelf::new(rt);
    let mut source = ReadSource::new(SESSION);
    let mut sink = MemorySink::new(rt.alloc(), Vec::new(rt.alloc()));
    let mut tally = Counts::new();
    let status = run(
        rt,
        rt.alloc(),
        words,
        &mut shelf,
        &mut source,
        &mut sink,
        &NoGate,
        &mut tally,
    );
    (status, sink.bytes().len())
}

#[test]
fn misses_a_file_of_the_system(rt: HostRuntime) -> Result<(), Fail> {
    let words = owned(rt.alloc(), &["run", "1", "-", "A=no/such/file"])?;
    assert_eq!(rt; play_files(&rt, &words), (Status::ShelfFault, 0));
    Ok(())
}

#[test]
fn loads_a_file_by_its_very_name(rt: HostRuntime) -> Result<(), Fail> {
    const NAME: &str = "map_checks_test_run ";
    fs::write(&rt, NAME, FILE)?;
    let words = owned(rt.alloc(), &["run", "1", "-", "A=map_checks_test_run "])?;
    assert_eq!(rt; play_files(&rt, &words), (Status::Done, SHOWN.len()));
    let words = owned(rt.alloc(), &["run", "1", "-", "A=map_checks_test_run"])?;
    assert_eq!(rt; play_files(&rt, &words), (Status::ShelfFault, 0));
    fs::remove_file(&rt, NAME)?;
    Ok(())
}

#[test]
fn plays_a_model_file(rt: HostRuntime) -> Result<(), Fail> {
    for (model, code, replies) in [
        (
            b"B = LocalSum of A and 3\n".as_slice(),
            0,
            b"ok 1 changed 1 evaluated 1 worked 0\nok 2 changed 1 evaluated 1 worked 0\nvalue B 1 1 4\n".as_slice(),
        ),
        (
            b"B = LocalSum of A and".as_slice(),
            3,
            b"ok 1 changed 1 evaluated 1 worked 0\nrefused syntax 22\n".as_slice(),
        ),
        (
            b"drop Q\nB = LocalSum of A and 3\n".as_slice(),
            3,
            b"ok 1 changed 1 evaluated 1 worked 0\nrefused unknown Q\n".as_slice(),
        ),
        (
            b"\r\nquit\r\nB = LocalSum of A and 3\n".as_slice(),
            0,
            b"ok 1 changed 1 evaluated 1 worked 0\nundefined B: B\n".as_slice(),
        ),
    ] {
        let files = [("a", FILE), ("m", model)];
        let words = ["run", "1", "m", "A=a"];
        plays(&rt, &words, &files, b"value B 1 1\n", NONE, (code, replies))?;
    }
    Ok(())
}

#[test]
fn fetches_a_model_file_after_the_loads(rt: HostRuntime) -> Result<(), Fail> {
    let words = ["run", "1", "m", "A=a"];
    plays(&rt, &words, &[("a", FILE)], SESSION, NONE, (4, LOADED))?;
    let model = vec![in rt.alloc(); b' '; 70]?;
    keeps_within(
        &rt,
        &words,
        &[("a", FILE), ("m", &model)],
        SESSION,
        Limits {
            file: 69,
            session: 5000,
        },
        (
            Status::Load,
            b"ok 1 changed 1 evaluated 1 worked 0\nrefused model long 69\n",
        ),
    )
}

/// What a sample of one row and one column writes, up to so many of its edits.
fn smallest_sample(alloc: Global, edits: u32) -> Result<Vec<u8>, AllocError> {
    let mut text = Vec::new(alloc);
    for number in 1..61 {
        if number > edits {
            return Ok(text);
        }
        let counts = match number {
            1..=6 | 10 => "changed 1 evaluated 1 worked 0",
            7..=9 => "changed 1 evaluated 1 worked 2",
            _ if number % 2 == 1 => "changed 1 evaluated 2 worked 1",
            _ => "changed 2 evaluated 4 worked 1",
        };
        text.extend_from_slice(format!(in alloc; "ok {number} {counts}\n")?.as_bytes())?;
    }
    Ok(text)
}

/// What a sample of one row and one column writes.
fn whole_sample(alloc: Global) -> Result<Vec<u8>, AllocError> {
    let mut text = smallest_sample(alloc, 60)?;
    text.extend_from_slice(b"legend M 1\n0 1 0\n")?;
    Ok(text)
}

const SAMPLE: [&str; 3] = ["sample", "1", "1"];

#[test]
fn a_sample_needs_no_shelf_and_no_source(rt: HostRuntime) -> Result<(), Fail> {
    let all = whole_sample(rt.alloc())?;
    let fails = Fails {
        shelf: 1,
        source: 1,
        sink: 0,
    };
    plays(&rt, &SAMPLE, &[], b"list\n", fails, (0, &all))
}

/// A sample whose sink fails after so many edits writes the replies to these.
fn stops_after<R: AllocGlobal + Abort + Threads + Sync>(rt: &R, edits: u32) -> Result<(), Fail> {
    let front = smallest_sample(rt.alloc(), edits)?;
    let fails = Fails {
        shelf: 0,
        source: 0,
        sink: edits as u64 + 1,
    };
    plays(rt, &SAMPLE, &[], b"", fails, (6, &front))
}

#[test]
fn a_sample_stops_at_a_fault_of_the_sink(rt: HostRuntime) -> Result<(), Fail> {
    stops_after(&rt, 0)?;
    stops_after(&rt, 3)?;
    stops_after(&rt, 10)
}
