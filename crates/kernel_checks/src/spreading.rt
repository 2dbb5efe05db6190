//! Least costs, first and repaired.
ghost use Rattle.std.specs.Prelude.{◌≡◌, ◌≤ℤ◌, pos, nat_abs, IfOk};
ghost use Rattle.map_nums.specs.Numbers.{greatest_value};
ghost use Rattle.map_defs.specs.Spread.{IsSpread};

use crate::makers::{NULL, hold, layer_of, patch_with, values_of};
use friction_spread::spread_repair;
use layer_tiles::{Change, Extent, Layer, Patch, Value};
use map_outside::Counts;
use std::alloc::Global;
use std::test::Fail;

/// The greatest cost that counts where nothing is said.
const MOST: Value = 1_000_000_000_000_000;

/// Least costs that were not there, and their work.
fn first(
    alloc: Global,
    sources: &Layer,
    friction: &Layer,
    limit: Value,
) -> Result<(Layer, u64), Fail>
    requires size { friction.now.size ≡ sources.now.size }
    requires limit { (pos 0 ≤ℤ limit) × (limit ≤ℤ pos greatest_value) }
    ensures size { IfOk result (λ r. r.0.size ≡ sources.now.size) }
    ensures right { IfOk result (λ r. IsSpread sources.now.size sources.now.cells friction.now.cells (nat_abs limit) r.0.cells) }
{
    let still = Change::same(sources);
    let ground = Change::same(friction);
    let mut tally = Counts::new();
    let repair = spread_repair(alloc, None, &still, &ground, limit, &mut tally)?;
    let worked = repair.worked;
    Ok((Layer::fresh(repair.patch, 1), worked))
}

/// The costs after tile 0 of the frictions was replaced, and their work.
fn again(
    alloc: Global,
    base: &Layer,
    sources: &Layer,
    friction: &Layer,
    patch: &Patch,
    limit: Value,
) -> Result<(Vec<Option<Value>>, u64), Fail>
    requires size { friction.now.size ≡ sources.now.size }
    requires limit { (pos 0 ≤ℤ limit) × (limit ≤ℤ pos greatest_value) }
    requires patch { patch.now.size ≡ friction.now.size }
    requires base { base.now.size ≡ sources.now.size }
    requires right { IsSpread sources.now.size sources.now.cells friction.now.cells (nat_abs limit) base.now.cells }
{
    let _patch = patch.extent();
    let _friction = friction.extent();
    let still = Change::same(sources);
    let ground = Change::patched(friction, patch);
    let mut tally = Counts::new();
    let repair = spread_repair(alloc, Some(base), &still, &ground, limit, &mut tally)?;
    let after = Change::patched(base, &repair.patch);
    let mut values = Vec::new(alloc);
    for at in 0..after.extent().cells() {
        values.push(after.cell(at, &mut tally).get())?;
    }
    Ok((values, repair.worked))
}

/// Whether costs that were not there are these, with this work.
fn begins(
    alloc: Global,
    extent: Extent,
    sources: &[Value],
    friction: &[Value],
    limit: Value,
    wanted: &[Value],
    work: u64,
) -> Result<bool, Fail>
    requires { (pos 0 ≤ℤ limit) × (limit ≤ℤ pos greatest_value) }
{
    let sources = layer_of(alloc, extent, sources)?;
    let friction = layer_of(alloc, extent, friction)?;
    let (costs, worked) = first(alloc, &sources, &friction, limit)?;
    Ok(worked == work && hold(&values_of(alloc, &costs)?, wanted))
}

/// Whether costs are these, with this work, after this patch of the frictions.
fn repairs_to(
    alloc: Global,
    sources: &Layer,
    friction: &Layer,
    patch: &Patch,
    wanted: &[Value],
    work: u64,
) -> Result<bool, Fail>
    requires friction { friction.now.size ≡ sources.now.size }
    requires patch { patch.now.size ≡ sources.now.size }
{
    let (base, _) = first(alloc, sources, friction, MOST)?;
    let (values, worked) = again(alloc, &base, sources, friction, patch, MOST)?;
    Ok(worked == work && hold(&values, wanted))
}

/// Whether costs are these, with this work, after tile 0 of the frictions became that of other ones.
fn becomes(
    alloc: Global,
    extent: Extent,
    sources: &[Value],
    friction: &[Value],
    other: &[Value],
    wanted: &[Value],
    work: u64,
) -> Result<bool, Fail> {
    let sources = layer_of(alloc, extent, sources)?;
    let friction = layer_of(alloc, extent, friction)?;
    let patch = patch_with(alloc, extent, other)?;
    repairs_to(alloc, &sources, &friction, &patch, wanted, work)
}

/// A source in the first of five cells.
const FIRST: [Value; 5] = [1, NULL, NULL, NULL, NULL];

/// A source in the first of nine cells.
const CORNER: [Value; 9] = [1, NULL, NULL, NULL, NULL, NULL, NULL, NULL, NULL];

#[test]
fn straight_and_diagonal_steps(rt: HostRuntime) -> Result<(), Fail> {
    let square = Extent::new(2, 2).ok_or("limits")?;
    let sources = [1, NULL, NULL, NULL];
    let costs = [0, 10, 10, 14];
    assert!(rt; begins(rt.alloc(), square, &sources, &[1; 4], MOST, &costs, 8)?);
    Ok(())
}

#[test]
fn barriers_and_a_limit(rt: HostRuntime) -> Result<(), Fail> {
    let row = Extent::new(1, 5).ok_or("limits")?;
    let sources = [1, NULL, NULL, 1, NULL];
    let friction = [1, 1, 1, 0, 1];
    let nulls = [1, 1, 1, NULL, 1];
    let at_limit = [0, 10, 20, NULL, NULL];
    let below = [0, 10, NULL, NULL, NULL];
    assert!(rt; begins(rt.alloc(), row, &sources, &friction, 20, &at_limit, 8)?);
    assert!(rt; begins(rt.alloc(), row, &sources, &friction, 19, &below, 7)?);
    assert!(rt; begins(rt.alloc(), row, &sources, &nulls, 20, &at_limit, 8)?);
    assert!(rt; begins(rt.alloc(), row, &sources, &nulls, 19, &below, 7)?);
    Ok(())
}

#[test]
fn one_friction_rises_and_falls(rt: HostRuntime) -> Result<(), Fail> {
    let row = Extent::new(1, 5).ok_or("limits")?;
    let ones = [1; 5];
    let one = [1, 1, 5, 1, 1];
    let low = [0, 10, 20, 30, 40];
    let high = [0, 10, 40, 70, 80];
    assert!(rt; begins(rt.alloc(), row, &FIRST, &ones, MOST, &low, 10)?);
    assert!(rt; becomes(rt.alloc(), row, &FIRST, &ones, &one, &high, 4)?);
    assert!(rt; becomes(rt.alloc(), row, &FIRST, &one, &ones, &low, 4)?);
    Ok(())
}

#[test]
fn three_frictions_rise_and_fall(rt: HostRuntime) -> Result<(), Fail> {
    let row = Extent::new(1, 5).ok_or("limits")?;
    let ones = [1; 5];
    let three = [1, 2, 2, 2, 1];
    let low = [0, 10, 20, 30, 40];
    let high = [0, 15, 35, 55, 70];
    assert!(rt; becomes(rt.alloc(), row, &FIRST, &ones, &three, &high, 7)?);
    assert!(rt; becomes(rt.alloc(), row, &FIRST, &three, &ones, &low, 7)?);
    Ok(())
}

#[test]
fn a_way_round_and_through(rt: HostRuntime) -> Result<(), Fail> {
    let square = Extent::new(3, 3).ok_or("limits")?;
    let middle = [1, 1, 1, 1, 5, 1, 1, 1, 1];
    let round = [0, 10, 20, 10, 40, 24, 20, 24, 34];
    let through = [0, 10, 20, 10, 14, 24, 20, 24, 28];
    assert!(rt; begins(rt.alloc(), square, &CORNER, &middle, MOST, &round, 18)?);
    assert!(rt; becomes(rt.alloc(), square, &CORNER, &middle, &[1; 9], &through, 3)?);
    assert!(rt; becomes(rt.alloc(), square, &CORNER, &[1; 9], &middle, &round, 3)?);
    Ok(())
}
