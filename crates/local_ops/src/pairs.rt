//! What an operation makes of two cells. Nothing is copied, and the simple operations stay within 64 bits.
ghost use Rattle.std.specs.Prelude.{◌≡◌, [], ◌∷◌, Some, pos, IsTrue, ◌-ℤ◌};
ghost use Rattle.std.specs.Int.{int_div_euclid};
ghost use Rattle.map_nums.specs.Numbers.{is_value};
ghost use Rattle.map_nums.specs.Exact.{IsExact};
ghost use Rattle.map_nums.specs.Stats.{statistic_of, total_of, product_of, maximum_of, minimum_of, variety_of};

use crate::values::{kept, ratio};
use layer_tiles::{Cell, Value};
use map_nums::{Stat, Wide, exact};

/// An operation on two cells as a type: so the loop over a row has none to choose.
pub(crate) trait Pairing {
    ghost use Rattle.std.specs.Prelude.{[], ◌∷◌};
    ghost use Rattle.map_nums.specs.Exact.{IsExact};
    ghost use Rattle.map_defs.specs.Local.{LocalOp, local_cell};

    /// The operation.
    ghost op: { Self → LocalOp };

    /// Its value of two cells.
    fn of(&self, left: Cell, right: Cell) -> Result<Option<Value>, Wide>
        ensures { IsExact (local_cell (op self.now) (left ∷ right ∷ [])) result };
}

/// A statistic of two values as a type.
pub(crate) trait StatOfTwo {
    ghost use Rattle.std.specs.Prelude.{◌≡◌, [], ◌∷◌, IsTrue};
    ghost use Rattle.map_nums.specs.Numbers.{is_value};
    ghost use Rattle.map_nums.specs.Exact.{IsExact};
    ghost use Rattle.map_nums.specs.Stats.{statistic_of};
    ghost use Rattle.map_nums.specs.declared.Stat.{Stat};

    /// The statistic.
    ghost stat: { Self → Stat };

    /// Its name.
    fn name(&self) -> Stat
        ensures { result ≡ stat self.now };

    /// Its value of two values of cells.
    fn of(&self, left: Value, right: Value) -> Result<Option<Value>, Wide>
        requires left { IsTrue (is_value left) }
        requires right { IsTrue (is_value right) }
        ensures { IsExact (statistic_of (stat self.now) (left ∷ right ∷ [])) result };
}

/// A statistic of two cells, null where one is null.
#[derive(Drop)]
pub(crate) struct BothPresent<P> {
    pub(crate) statistic: P,
}

/// A statistic of those of two cells that aren't null.
#[derive(Drop)]
pub(crate) struct AnyPresent<P> {
    pub(crate) statistic: P,
}

/// The first cell minus the second, null where one is null.
#[derive(Drop)]
pub(crate) struct Differences;

/// The floor of the first cell over the second, null where one is null or the second is 0.
#[derive(Drop)]
pub(crate) struct Ratios;

impl<P: StatOfTwo> Pairing for BothPresent<P> {
    ghost use Rattle.std.specs.Prelude.{false};
    ghost use Rattle.map_defs.specs.Local.{of_stat};

    ghost op = { λ m. of_stat (P.stat m.statistic) false };

    fn of(&self, left: Cell, right: Cell) -> Result<Option<Value>, Wide> {
        let (Some(first), Some(second)) = (left.get(), right.get()) else {
            return Ok(None);
        };
        self.statistic.of(first, second)
    }
}

impl<P: StatOfTwo> Pairing for AnyPresent<P> {
    ghost use Rattle.std.specs.Prelude.{true};
    ghost use Rattle.map_defs.specs.Local.{of_stat};

    ghost op = { λ m. of_stat (P.stat m.statistic) true };

    fn of(&self, left: Cell, right: Cell) -> Result<Option<Value>, Wide> {
        match (left.get(), right.get()) {
            (Some(first), Some(second)) => self.statistic.of(first, second),
            (Some(only), None) | (None, Some(only)) => {
                statistic_of_one(self.statistic.name(), only)
            }
            (None, None) => Ok(None),
        }
    }
}

impl Pairing for Differences {
    ghost use Rattle.map_defs.specs.Local.{difference};

    ghost op = { λ _. difference };

    fn of(&self, left: Cell, right: Cell) -> Result<Option<Value>, Wide> {
        let (Some(first), Some(second)) = (left.get(), right.get()) else {
            return Ok(None);
        };
        kept(rest(first, second))
    }
}

impl Pairing for Ratios {
    ghost use Rattle.map_defs.specs.Local.{ratio};

    ghost op = { λ _. ratio };

    fn of(&self, left: Cell, right: Cell) -> Result<Option<Value>, Wide> {
        let (Some(first), Some(second)) = (left.get(), right.get()) else {
            return Ok(None);
        };
        ratio(first, second)
    }
}

/// The sum.
#[derive(Drop)]
pub(crate) struct Sums;

/// The product.
#[derive(Drop)]
pub(crate) struct Products;

/// The greater value.
#[derive(Drop)]
pub(crate) struct Maxima;

/// The lesser value.
#[derive(Drop)]
pub(crate) struct Minima;

/// Any statistic, chosen anew for each pair.
#[derive(Drop)]
pub(crate) struct AnyStat(pub(crate) Stat);

impl StatOfTwo for Sums {
    ghost use Rattle.map_nums.specs.declared.Stat.TheVariants.{Sum};

    ghost stat = { λ _. Sum };

    fn name(&self) -> Stat {
        Stat::Sum
    }

    fn of(&self, left: Value, right: Value) -> Result<Option<Value>, Wide> {
        kept(sum(left, right))
    }
}

impl StatOfTwo for Products {
    ghost use Rattle.map_nums.specs.declared.Stat.TheVariants.{Product};

    ghost stat = { λ _. Product };

    fn name(&self) -> Stat {
        Stat::Product
    }

    fn of(&self, left: Value, right: Value) -> Result<Option<Value>, Wide> {
        exact(product(left, right))
    }
}

impl StatOfTwo for Maxima {
    ghost use Rattle.map_nums.specs.declared.Stat.TheVariants.{Maximum};

    ghost stat = { λ _. Maximum };

    fn name(&self) -> Stat {
        Stat::Maximum
    }

    fn of(&self, left: Value, right: Value) -> Result<Option<Value>, Wide> {
        kept(greater(left, right))
    }
}

impl StatOfTwo for Minima {
    ghost use Rattle.map_nums.specs.declared.Stat.TheVariants.{Minimum};

    ghost stat = { λ _. Minimum };

    fn name(&self) -> Stat {
        Stat::Minimum
    }

    fn of(&self, left: Value, right: Value) -> Result<Option<Value>, Wide> {
        kept(lesser(left, right))
    }
}

impl StatOfTwo for AnyStat {
    ghost stat = { λ m. m.0 };

    fn name(&self) -> Stat {
        self.0
    }

    fn of(&self, left: Value, right: Value) -> Result<Option<Value>, Wide> {
        statistic_of_two(self.0, left, right)
    }
}

/// A statistic of two values.
fn statistic_of_two(stat: Stat, left: Value, right: Value) -> Result<Option<Value>, Wide>
    ensures { IsExact (statistic_of stat (left ∷ right ∷ [])) result }
{
    match stat {
        Stat::Sum => exact(total(left, right)),
        Stat::Product => exact(product(left, right)),
        Stat::Maximum => kept(greater(left, right)),
        Stat::Mean => exact(mean(left, right)),
        // of two values, the least is in the lower middle, and it leads where both occur as often
        Stat::Minimum | Stat::Median | Stat::Majority | Stat::Minority => kept(lesser(left, right)),
        Stat::Variety => kept(variety(left, right)),
    }
}

/// A statistic of one value of a cell.
fn statistic_of_one(stat: Stat, value: Value) -> Result<Option<Value>, Wide>
    requires { IsTrue (is_value value) }
    ensures { IsExact (statistic_of stat (value ∷ [])) result }
{
    match stat {
        Stat::Variety => Ok(Some(1)),
        _ => Ok(Some(value)),
    }
}

/// The sum of two values of cells.
fn sum(left: Value, right: Value) -> i64
    requires left { IsTrue (is_value left) }
    requires right { IsTrue (is_value right) }
    ensures { result ≡ total_of (left ∷ right ∷ []) }
{
    left + right
}

/// The first of two values of cells minus the second.
fn rest(left: Value, right: Value) -> i64
    requires left { IsTrue (is_value left) }
    requires right { IsTrue (is_value right) }
    ensures { result ≡ left -ℤ right }
{
    left - right
}

/// The sum of two values.
fn total(left: Value, right: Value) -> i128
    ensures { result ≡ total_of (left ∷ right ∷ []) }
{
    left as i128 + right as i128
}

/// The product of two values.
fn product(left: Value, right: Value) -> i128
    ensures { result ≡ product_of (left ∷ right ∷ []) }
{
    left as i128 * right as i128
}

/// The mean of two values, rounded down.
fn mean(left: Value, right: Value) -> i128
    ensures { result ≡ int_div_euclid (total_of (left ∷ right ∷ [])) (pos 2) }
{
    total(left, right).div_euclid(2)
}

/// How many different values two are.
fn variety(left: Value, right: Value) -> i64
    ensures { result ≡ pos (variety_of (left ∷ right ∷ [])) }
{
    if left == right { 1 } else { 2 }
}

/// The greater of two values.
fn greater(left: Value, right: Value) -> Value
    ensures { maximum_of (left ∷ right ∷ []) ≡ Some result }
{
    if left < right { right } else { left }
}

/// The lesser of two values.
fn lesser(left: Value, right: Value) -> Value
    ensures { minimum_of (left ∷ right ∷ []) ≡ Some result }
{
    if right < left { right } else { left }
}
