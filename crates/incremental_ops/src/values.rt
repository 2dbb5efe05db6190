//! What the shapes make of a number and the cells round it.
ghost use Rattle.std.specs.Prelude.{◌≡◌, ◌+◌, ◌*◌, ◌≤◌, ℤ, pos, ◌≤ℤ◌, neg_ℤ, nat_abs, Some, not, unwrap_or, if◌then◌else◌, IsTrue};
ghost use Rattle.map_nums.specs.Numbers.{is_value};
ghost use Rattle.map_nums.specs.Exact.{IsExact};
ghost use Rattle.map_defs.specs.Cells.{has_number};
ghost use Rattle.map_defs.specs.Roots.{floor_root};
ghost use Rattle.map_defs.specs.Slopes.{octant, axis, diagonal};
ghost use Rattle.incremental_ops.specs.declared.values.Shape.TheVariants.{Linkage, Length, Partition, Frontage};
ghost use Rattle.incremental_ops.specs.Shapes.{shape_cell, shape_of, linked, parted, leaning_of, slope_p_of, slope_q_of};

use crate::rings::Ring;
use crate::roots::root_of_squares;
use layer_tiles::{Cell, Value};
use map_nums::{VMAX, Wide};

/// An Incremental operation.
#[derive(Clone, Copy, Debug, PartialEq, Eq)]
pub enum Shape {
    Linkage,
    Length,
    Partition,
    Frontage,
    Gradient,
    Aspect,
}

/// The shape's value at a cell, null at a null one.
pub(crate) fn value_of(shape: Shape, own: Cell, ring: &Ring) -> Result<Option<Value>, Wide>
    ensures { IsExact (shape_cell shape ring.now own) result }
{
    match own.get() {
        None => Ok(None),
        Some(number) => kept(shape_number(shape, number, ring)),
    }
}

/// The shape's value at the number of a cell.
#[tactic(auto, unfolding(crate::specs::Shapes::shape_of))]
fn shape_number(shape: Shape, number: Value, ring: &Ring) -> u64
    requires { IsTrue (is_value number) }
    ensures { result ≡ shape_of shape ring.now number }
{
    match shape {
        Shape::Linkage => linkage(number, ring),
        Shape::Length => length_of(number, ring),
        Shape::Partition => partition(number, ring),
        Shape::Frontage => frontage(number, ring),
        Shape::Gradient => gradient(slope_p(number, ring), slope_q(number, ring)),
        Shape::Aspect => octant_of(
            falling(slope_p(number, ring)),
            falling(slope_q(number, ring)),
        ),
    }
}

/// The number, or that no cell may hold it.
fn kept(number: u64) -> Result<Option<Value>, Wide>
    ensures { IsExact (Some (pos number)) result }
{
    if number > VMAX as u64 {
        return Err(Wide);
    }
    Ok(Some(number as Value))
}

/// The weight of a cell that has the number.
fn if_linked(number: Value, cell: Cell, weight: u64) -> u64
    ensures weight { result ≡ linked number cell weight }
    ensures most { result ≤ weight }
{
    match cell.get() {
        Some(value) if value == number => weight,
        _ => 0,
    }
}

/// The weight of a cell that has it not.
fn if_parted(number: Value, cell: Cell, weight: u64) -> u64
    ensures weight { result ≡ parted number cell weight }
    ensures most { result ≤ weight }
{
    match cell.get() {
        Some(value) if value == number => 0,
        _ => weight,
    }
}

#[tactic(auto, unfolding(crate::specs::Shapes::shape_of))]
fn linkage(number: Value, ring: &Ring) -> u64
    ensures { result ≡ shape_of Linkage ring.now number }
{
    if_linked(number, ring.n, 1)
        + if_linked(number, ring.ne, 2)
        + if_linked(number, ring.e, 4)
        + if_linked(number, ring.se, 8)
        + if_linked(number, ring.s, 16)
        + if_linked(number, ring.sw, 32)
        + if_linked(number, ring.w, 64)
        + if_linked(number, ring.nw, 128)
}

#[tactic(auto, unfolding(crate::specs::Shapes::shape_of))]
fn length_of(number: Value, ring: &Ring) -> u64
    ensures { result ≡ shape_of Length ring.now number }
{
    if_linked(number, ring.n, 5)
        + if_linked(number, ring.ne, 7)
        + if_linked(number, ring.e, 5)
        + if_linked(number, ring.se, 7)
        + if_linked(number, ring.s, 5)
        + if_linked(number, ring.sw, 7)
        + if_linked(number, ring.w, 5)
        + if_linked(number, ring.nw, 7)
}

#[tactic(auto, unfolding(crate::specs::Shapes::shape_of))]
fn partition(number: Value, ring: &Ring) -> u64
    ensures { result ≡ shape_of Partition ring.now number }
{
    if_parted(number, ring.n, 1)
        + if_parted(number, ring.e, 2)
        + if_parted(number, ring.s, 4)
        + if_parted(number, ring.w, 8)
}

#[tactic(auto, unfolding(crate::specs::Shapes::shape_of))]
fn frontage(number: Value, ring: &Ring) -> u64
    ensures { result ≡ shape_of Frontage ring.now number }
{
    if_parted(number, ring.n, 10)
        + if_parted(number, ring.e, 10)
        + if_parted(number, ring.s, 10)
        + if_parted(number, ring.w, 10)
}

/// The cell's number, or the given one where it has none.
fn number_or(cell: Cell, number: Value) -> i64
    requires { IsTrue (is_value number) }
    ensures number { result ≡ unwrap_or cell number }
    ensures low { neg_ℤ (pos 1000000000000000) ≤ℤ result }
    ensures high { result ≤ℤ pos 1000000000000000 }
{
    match cell.get() {
        Some(value) => value as i64,
        None => number as i64,
    }
}

/// The first, twice the second and the third.
fn leaning(number: Value, first: Cell, second: Cell, third: Cell) -> i64
    requires { IsTrue (is_value number) }
    ensures sum { result ≡ leaning_of number first second third }
    ensures low { neg_ℤ (pos 4000000000000000) ≤ℤ result }
    ensures high { result ≤ℤ pos 4000000000000000 }
{
    number_or(first, number) + 2 * number_or(second, number) + number_or(third, number)
}

fn slope_p(number: Value, ring: &Ring) -> i64
    requires { IsTrue (is_value number) }
    ensures slope { result ≡ slope_p_of ring.now number }
    ensures low { neg_ℤ (pos 8000000000000000) ≤ℤ result }
    ensures high { result ≤ℤ pos 8000000000000000 }
{
    leaning(number, ring.ne, ring.e, ring.se) - leaning(number, ring.nw, ring.w, ring.sw)
}

fn slope_q(number: Value, ring: &Ring) -> i64
    requires { IsTrue (is_value number) }
    ensures slope { result ≡ slope_q_of ring.now number }
    ensures low { neg_ℤ (pos 8000000000000000) ≤ℤ result }
    ensures high { result ≤ℤ pos 8000000000000000 }
{
    leaning(number, ring.nw, ring.n, ring.ne) - leaning(number, ring.sw, ring.s, ring.se)
}

/// A slope seen from above.
fn falling(slope: i64) -> i64
    requires low { neg_ℤ (pos 8000000000000000) ≤ℤ slope }
    requires high { slope ≤ℤ pos 8000000000000000 }
    ensures value { result ≡ neg_ℤ slope }
    ensures least { neg_ℤ (pos 8000000000000000) ≤ℤ result }
    ensures most { result ≤ℤ pos 8000000000000000 }
{
    -slope
}

/// The root of the slopes' squares, rounded down.
#[tactic(auto, using(map_defs::proofs::Roots::floor_root_only))]
fn gradient(p: i64, q: i64) -> u64
    requires p_low { neg_ℤ (pos 8000000000000000) ≤ℤ p }
    requires p_high { p ≤ℤ pos 8000000000000000 }
    requires q_low { neg_ℤ (pos 8000000000000000) ≤ℤ q }
    requires q_high { q ≤ℤ pos 8000000000000000 }
    ensures { result ≡ floor_root (nat_abs p * nat_abs p + nat_abs q * nat_abs q) }
{
    root_of_squares(p.unsigned_abs(), q.unsigned_abs())
}

/// The octant of an east and a north part.
#[tactic(auto, unfolding(map_defs::specs::Slopes::octant))]
fn octant_of(east: i64, north: i64) -> u64
    requires east_low { neg_ℤ (pos 8000000000000000) ≤ℤ east }
    requires east_high { east ≤ℤ pos 8000000000000000 }
    requires north_low { neg_ℤ (pos 8000000000000000) ≤ℤ north }
    requires north_high { north ≤ℤ pos 8000000000000000 }
    ensures { result ≡ octant east north }
{
    let across = east.unsigned_abs();
    let up = north.unsigned_abs();
    let small = across.min(up);
    let large = across.max(up);
    if large == 0 {
        return 0;
    }
    if 70 * small <= 29 * large {
        return axis_of(east, north);
    }
    diagonal_of(east, north)
}

fn axis_of(east: i64, north: i64) -> u64
    ensures { result ≡ axis east north }
{
    if east.unsigned_abs() < north.unsigned_abs() {
        return if 0 < north { 1 } else { 5 };
    }
    if 0 < east { 3 } else { 7 }
}

fn diagonal_of(east: i64, north: i64) -> u64
    ensures { result ≡ diagonal east north }
{
    if 0 < north {
        return if 0 < east { 2 } else { 8 };
    }
    if 0 < east { 4 } else { 6 }
}
