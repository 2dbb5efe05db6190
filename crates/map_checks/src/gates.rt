//! Whole runs by two workers, whose jobs a gate counts and holds.

use map_outside::{Counts, MemoryShelf, MemorySink, MemorySource};
use map_run::{Status, run};
use std::alloc::{AllocError, Global};
use std::process::Abort;
use std::sync::atomic::{AtomicU64, Ordering};
use std::test::Fail;
use std::thread::Threads;
use tile_workers::Gate;

const WORDS: [&str; 4] = ["run", "2", "-", "A=a"];

/// A grid, a session on it, and what is counted and held meanwhile.
#[derive(Clone, Copy)]
struct Case {
    header: &'static [u8],
    row: &'static [u8],
    rows: u32,
    session: &'static [u8],
    replies: &'static [u8],
    /// Entries with ticket 0 that are held, by their number from 0, each until so many entries with ticket 1 were made.
    holds: [(u64, u64); 2],
    /// How many entries there are with ticket 0, and with ticket 1.
    entries: (u64, u64),
}

/// No entry with ticket 0 has this number.
const NONE: u64 = u64::MAX;

// The first definition has a job for each of four tiles, the second one job, and the paint one for each tile of the sum and one for
// the costs, of which no repair is known.
const REPAIRS: Case = Case {
    header: b"ncols 33\nnrows 33\nxllcorner 0\nyllcorner 0\ncellsize 1\n",
    row: b"1 1 1 1 1 1 1 1 1 1 1 1 1 1 1 1 1 1 1 1 1 1 1 1 1 1 1 1 1 1 1 1 1\n",
    rows: 33,
    session: b"B = FocalSum of A\nC = FocalProximity of A\npaint A 32 32 32 32 2\n",
    replies: b"ok 1 changed 4 evaluated 4 worked 0\nok 2 changed 4 evaluated 4 worked 0\nok 3 changed 4 evaluated 4 worked 2178\nok 4 changed 5 evaluated 6 worked 1\n",
    holds: [(0, 1), (2, 2)],
    entries: (3, 2),
};

// The definition has one job, and the line of branches one for each branch; of the jobs of a branch's edits no gate is told.
const BRANCHES: Case = Case {
    header: b"ncols 3\nnrows 3\nxllcorner 0\nyllcorner 0\ncellsize 1\n1 2 3\n4 5 6\n",
    row: b"7 8 9\n",
    rows: 1,
    session: b"B = LocalSum of A and 3\nbranch paint A 1 1 1 1 5; value B 1 1 branch C = LocalSum of B and B; value C 3 3; drop Z end\n",
    replies: b"ok 1 changed 1 evaluated 1 worked 0\nok 2 changed 1 evaluated 1 worked 0\nbranch 1\nok 3 changed 2 evaluated 2 worked 0\nvalue B 1 1 8\nbranch 2\nok 3 changed 1 evaluated 1 worked 0\nvalue C 3 3 24\nrefused unknown Z\n",
    holds: [(1, 1), (NONE, 0)],
    entries: (2, 1),
};

/// Counts the entries with ticket 0 and those with ticket 1, and holds some of the former, each for so many turns at most.
#[derive(Drop)]
struct Turnstile {
    holds: [(u64, u64); 2],
    zeros: AtomicU64,
    ones: AtomicU64,
    late: AtomicU64,
}

impl Turnstile {
    fn new(holds: [(u64, u64); 2]) -> Self {
        Turnstile {
            holds,
            zeros: AtomicU64::new(0),
            ones: AtomicU64::new(0),
            late: AtomicU64::new(0),
        }
    }

    /// Waits until so many entries with ticket 1 were made.
    fn hold(&self, ones: u64) {
        for _turn in 0..100_000_000u64 {
            if self.ones.load(Ordering::SeqCst) >= ones {
                return;
            }
        }
        self.late.fetch_add(1, Ordering::SeqCst);
    }
}

impl Gate for Turnstile {
    fn enter(&self, ticket: u64) {
        if ticket == 1 {
            self.ones.fetch_add(1, Ordering::SeqCst);
        }
        if ticket == 0 {
            let entry = self.zeros.fetch_add(1, Ordering::SeqCst);
            for (held, ones) in self.holds {
                if entry == held {
                    self.hold(ones);
                }
            }
        }
    }
}

fn words_of(alloc: Global) -> Result<Vec<String>, AllocError> {
    let mut words = Vec::new(alloc);
    for text in WORDS {
        words.push(String::from_str(alloc, text)?)?;
    }
    Ok(words)
}

/// The text of a grid.
fn grid_of(alloc: Global, case: Case) -> Result<Vec<u8>, AllocError> {
    let mut text = case.header.to_vec(alloc)?;
    for _row in 0..case.rows {
        text.extend_from_slice(case.row)?;
    }
    Ok(text)
}

/// How a run of the words and a session ends, and what it writes. The gate is told of each job.
fn play<G: Gate + Sync, R: AllocGlobal + Threads + Sync>(
    rt: &R,
    words: &[String],
    case: Case,
    gate: &G,
) -> Result<(Status, Vec<u8>), AllocError> {
    let alloc = rt.alloc();
    let files = vec![in alloc; (String::from_str(alloc, "a")?, grid_of(alloc, case)?)]?;
    let mut shelf = MemoryShelf::new(files, Vec::new(alloc));
    let mut source = MemorySource::new(case.session.to_vec(alloc)?, 4096, Vec::new(alloc));
    let mut sink = MemorySink::new(alloc, Vec::new(alloc));
    let mut tally = Counts::new();
    let status = run(
        rt,
        alloc,
        words,
        &mut shelf,
        &mut source,
        &mut sink,
        gate,
        &mut tally,
    );
    Ok((status, sink.bytes().to_vec(alloc)?))
}

/// Two workers are at work at once where a case holds an entry, and no job is done twice.
fn is_played<R: AllocGlobal + Abort + Threads + Sync>(rt: &R, case: Case) -> Result<(), Fail> {
    let words = words_of(rt.alloc())?;
    let gate = Turnstile::new(case.holds);
    let (status, wrote) = play(rt, &words, case, &gate)?;
    let entries = (
        gate.zeros.load(Ordering::SeqCst),
        gate.ones.load(Ordering::SeqCst),
    );
    assert_eq!(rt; (status, wrote.as_slice()), (Status::Done, case.replies));
    assert_eq!(rt; gate.late.load(Ordering::SeqCst), 0);
    assert_eq!(rt; entries, case.entries);
    Ok(())
}

#[test]
fn two_workers_make_a_layer_and_repair_two(rt: HostRuntime) -> Result<(), Fail> {
    is_played(&rt, REPAIRS)
}

#[test]
fn two_workers_try_two_branches(rt: HostRuntime) -> Result<(), Fail> {
    is_played(&rt, BRANCHES)
}
