//! Sessions that are played line by line.
use map_machine::Kind;
use map_outside::Counts;
use map_session::{Begun, Reply, Session};
use map_words::Name;
use std::mem::forget;
use std::process::Abort;
use std::test::Fail;
use std::thread::Threads;
use tile_workers::NoGate;

/// How many workers each session has.
const WORKERS: u32 = 2;

/// A grid of one cell.
pub const CELL: &str = "ncols 1\nnrows 1\nxllcorner 0\nyllcorner 0\ncellsize 1\n7\n";

/// A grid of three rows and columns.
pub const SQUARE: &str =
    "ncols 3\nnrows 3\nxllcorner 0\nyllcorner 0\ncellsize 1\n1 2 3\n4 5 6\n7 8 9\n";

/// A session by its first grid.
pub(crate) fn begun<R: AllocGlobal + Threads + Sync>(
    rt: &R,
    name: &str,
    grid: &str,
) -> Result<Begun, Fail> {
    let alloc = rt.alloc();
    let Ok(name) = Name::plain(alloc, name.as_bytes()) else {
        return Err(Fail::from("no name"));
    };
    let mut tally = Counts::new();
    let begun = Session::begin(
        rt,
        alloc,
        name,
        grid.as_bytes(),
        WORKERS,
        &NoGate,
        &mut tally,
    )?;
    Ok(begun)
}

/// What is said to a further grid.
fn loaded<R: AllocGlobal + Threads + Sync>(
    rt: &R,
    session: &mut Session,
    name: &str,
    grid: &str,
) -> Result<Reply, Fail> {
    let alloc = rt.alloc();
    let Ok(name) = Name::plain(alloc, name.as_bytes()) else {
        return Err(Fail::from("no name"));
    };
    let mut tally = Counts::new();
    let reply = session.load(
        rt,
        alloc,
        name,
        grid.as_bytes(),
        WORKERS,
        &NoGate,
        &mut tally,
    )?;
    Ok(reply)
}

/// What is said to a line.
fn said<R: AllocGlobal + Threads + Sync>(
    rt: &R,
    session: &mut Session,
    line: &str,
) -> Result<Reply, Fail> {
    let mut tally = Counts::new();
    let reply = session.step(
        rt,
        rt.alloc(),
        line.as_bytes(),
        WORKERS,
        &NoGate,
        &mut tally,
    )?;
    Ok(reply)
}

/// What is given to a session, and the text and kind of its reply.
#[derive(Clone, Copy)]
pub(crate) enum Step<'a> {
    Line(&'a str, &'a str),
    /// A line of this kind, which is answered by nothing.
    Silent(&'a str, Kind),
    /// A grid for a name.
    Load(&'a str, &'a str, Kind, &'a str),
    /// A line that is given so many times, each time with a reply of this kind.
    Repeat(u32, &'a str, Kind),
    /// An edit that is accepted, taken back, so that all that is asked is answered as before, and made again.
    TakenBack(&'a str, &'a [&'a str]),
}

/// The replies to lines, put end to end.
fn replies<R: AllocGlobal + Threads + Sync>(
    rt: &R,
    session: &mut Session,
    lines: &[&str],
) -> Result<Vec<u8>, Fail> {
    let mut text = Vec::new(rt.alloc());
    for line in lines {
        let reply = said(rt, session, *line)?;
        text.extend_from_slice(&reply.bytes)?;
    }
    Ok(text)
}

/// A line has a reply of this kind.
fn is_of_kind<R: AllocGlobal + Abort + Threads + Sync>(
    rt: &R,
    session: &mut Session,
    line: &str,
    kind: Kind,
) -> Result<(), Fail> {
    let reply = said(rt, session, line)?;
    assert!(rt; reply.kind == kind, "{line}");
    Ok(())
}

/// An edit is taken back, and made again.
fn is_taken_back<R: AllocGlobal + Abort + Threads + Sync>(
    rt: &R,
    session: &mut Session,
    edit: &str,
    asked: &[&str],
) -> Result<(), Fail> {
    let before = replies(rt, session, asked)?;
    is_of_kind(rt, session, edit, Kind::Accepted)?;
    is_of_kind(rt, session, "undo", Kind::Accepted)?;
    let after = replies(rt, session, asked)?;
    assert!(rt; before.as_slice() == after.as_slice(), "{edit}");
    is_of_kind(rt, session, edit, Kind::Accepted)
}

/// A session replies so to this step.
fn answer<R: AllocGlobal + Abort + Threads + Sync>(
    rt: &R,
    session: &mut Session,
    step: Step<'_>,
) -> Result<(), Fail> {
    match step {
        Step::Line(line, want) => {
            let reply = said(rt, session, line)?;
            assert_eq!(rt; reply.bytes.as_slice(), want.as_bytes(), "{line}");
        }
        Step::Silent(line, kind) => {
            let reply = said(rt, session, line)?;
            assert_eq!(rt; (reply.kind, reply.bytes.len()), (kind, 0), "{line}");
        }
        Step::Load(name, grid, kind, want) => {
            let reply = loaded(rt, session, name, grid)?;
            assert_eq!(rt;
                (reply.kind, reply.bytes.as_slice()),
                (kind, want.as_bytes()),
                "{name}"
            );
        }
        Step::Repeat(times, line, kind) => {
            for _time in 0..times {
                is_of_kind(rt, session, line, kind)?;
            }
        }
        Step::TakenBack(edit, asked) => is_taken_back(rt, session, edit, asked)?,
    }
    Ok(())
}

/// A session replies so to these steps, one after another.
pub(crate) fn answers<R: AllocGlobal + Abort + Threads + Sync>(
    rt: &R,
    session: &mut Session,
    steps: &[Step<'_>],
) -> Result<(), Fail> {
    for step in steps {
        answer(rt, session, *step)?;
    }
    Ok(())
}

/// A session by its first grid, which is accepted, and what is said to that.
fn ready<R: AllocGlobal + Threads + Sync>(
    rt: &R,
    name: &str,
    grid: &str,
) -> Result<(Session, Reply), Fail> {
    match begun(rt, name, grid)? {
        Begun::Ready(session, reply) => Ok((session, reply)),
        Begun::Refused(_) => Err(Fail::from("refused")),
    }
}

/// The first accepted grid of one tile is told so.
fn is_first<R: AllocGlobal + Abort>(rt: &R, reply: &Reply) {
    assert_eq!(rt;
        reply.bytes.as_slice(),
        b"ok 1 changed 1 evaluated 1 worked 0\n".as_slice()
    );
}

/// A session by its first grid, which is accepted, replies so to these steps.
pub(crate) fn plays<R: AllocGlobal + Abort + Threads + Sync>(
    rt: &R,
    name: &str,
    grid: &str,
    steps: &[Step<'_>],
) -> Result<(), Fail> {
    let (mut session, reply) = ready(rt, name, grid)?;
    is_first(rt, &reply);
    let said = answers(rt, &mut session, steps);
    // The test ends here: that the session goes piece by piece would have to be proved too.
    forget(session);
    said
}
