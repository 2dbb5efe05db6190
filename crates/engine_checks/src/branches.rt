//! No branches, and a branch without items, on an engine.
ghost use Rattle.std.specs.Prelude.{◌≤◌, length};
ghost use Rattle.statement_parser.specs.Formed.{Each, IsItem};
ghost use Rattle.statement_parser.specs.Views.{branches_view};

use layer_tiles::Extent;
use live_engine::Engine;
use map_outside::Counts;
use statement_parser::Item;
use std::mem::forget;
use std::process::Abort;
use std::test::Fail;
use std::thread::Threads;
use tile_workers::{Crew, NoGate};
use what_if::run_branches;

/// How many branches are told, and how much of the first.
fn told<R: AllocGlobal + Threads + Sync>(
    rt: &R,
    engine: &Engine,
    branches: &[Vec<Item>],
) -> Result<(usize, usize), Fail>
    requires few { length branches.now ≤ 16 }
    requires formed { Each (Each IsItem) (branches_view branches.now) }
{
    let crew = Crew::new(rt, rt.alloc(), &NoGate, 3);
    let told = run_branches(&crew, engine, branches, &mut Counts::new())?;
    match told.first() {
        Some(first) => Ok((told.len(), first.len())),
        None => Ok((0, 0)),
    }
}

/// No branch is told where there is none, and nothing of an empty one.
fn are_told<R: AllocGlobal + Abort + Threads + Sync>(
    rt: &R,
    engine: &Engine,
    empty: &[Vec<Item>],
) -> Result<(), Fail>
    requires few { length empty.now ≤ 16 }
    requires formed { Each (Each IsItem) (branches_view empty.now) }
{
    assert_eq!(rt; told(rt, engine, &[])?, (0, 0));
    assert_eq!(rt; told(rt, engine, empty)?, (1, 0));
    Ok(())
}

#[test]
fn nothing_is_tried(rt: HostRuntime) -> Result<(), Fail> {
    let extent = Extent::new(1, 1).ok_or("limits")?;
    let empty = vec![in rt.alloc(); Vec::new(rt.alloc())]?;
    let engine = Engine::new(rt.alloc(), extent);
    let said = are_told(&rt, &engine, &empty);
    // The test ends here, as in `tried`.
    forget(engine);
    said
}
