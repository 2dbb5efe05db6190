//! First grids that are refused.
use crate::plays::begun;
use map_session::{Begun, Reply};
use std::process::Abort;
use std::test::Fail;
use std::thread::Threads;

/// What is said to a first grid A that is refused.
fn refusal_of<R: AllocGlobal + Threads + Sync>(rt: &R, grid: &str) -> Result<Reply, Fail> {
    match begun(rt, "A", grid)? {
        Begun::Refused(reply) => Ok(reply),
        Begun::Ready(..) => Err(Fail::from("accepted")),
    }
}

/// These first grids A are refused with these texts.
fn turns_away<R: AllocGlobal + Abort + Threads + Sync>(
    rt: &R,
    grids: &[(&str, &str)],
) -> Result<(), Fail> {
    for (grid, want) in grids {
        let reply = refusal_of(rt, grid)?;
        assert_eq!(rt; reply.bytes.as_slice(), want.as_bytes(), "{grid}");
    }
    Ok(())
}

#[test]
fn refused_headers(rt: HostRuntime) -> Result<(), Fail> {
    let grids = [
        ("ncols x\n", "refused load A number 7\n"),
        (
            "ncols 1\nnrows 1\nxllcorner 0\nyllcorner 0\ndx 1\n",
            "refused load A key 41\n",
        ),
        (
            "ncols 0\nnrows 1\nxllcorner 0\nyllcorner 0\ncellsize 1\n7\n",
            "refused load A limits 1 0\n",
        ),
    ];
    turns_away(&rt, &grids)
}

#[test]
fn refused_cells(rt: HostRuntime) -> Result<(), Fail> {
    let grids = [
        (
            "ncols 2\nnrows 2\nxllcorner 0\nyllcorner 0\ncellsize 1\n1 2 3\n",
            "refused load A few 3 4\n",
        ),
        (
            "ncols 2\nnrows 2\nxllcorner 0\nyllcorner 0\ncellsize 1\n1 2 3 4 5\n",
            "refused load A more 60\n",
        ),
        (
            "ncols 1\nnrows 1\nxllcorner 0\nyllcorner 0\ncellsize 1\n7.5\n",
            "refused load A cell 1\n",
        ),
        (
            "ncols 1\nnrows 1\nxllcorner 0\nyllcorner 0\ncellsize 1\n1000000000000001\n",
            "refused load A range 1\n",
        ),
    ];
    turns_away(&rt, &grids)
}
