//! The names of operations.

ghost use Rattle.std.specs.Prelude.{◌≡◌, ◌∷◌, ◌++◌, codes, find, bytes_eq};
ghost use Rattle.map_nums.specs.declared.Stat.TheVariants.{Sum};
ghost use Rattle.statement_parser.specs.declared.operation.Operation.TheVariants.{Local};
ghost use Rattle.statement_parser.specs.Operations.{operations, stat_text, form_text, operation_text, has_row, find_operation, operation_named as operation_of_name};
ghost use Rattle.statement_parser.specs.Views.{manner_of};

use crate::op::Form;
use crate::rows::Rows;
use map_nums::Stat;

/// What follows an operation's name.
#[derive(Clone, Copy, Debug, PartialEq, Eq)]
pub enum Operation {
    Local(Stat),
    Difference,
    Ratio,
    Rating,
    Focal(Stat),
    Proximity,
    Neighbor,
    Insularity,
    Zonal(Stat),
    Incremental(Form),
    Drainage,
}

/// All operations. No product is Focal or Zonal.
const OPERATIONS: [Operation; 38] = [
    Operation::Local(Stat::Sum),
    Operation::Local(Stat::Product),
    Operation::Local(Stat::Maximum),
    Operation::Local(Stat::Minimum),
    Operation::Local(Stat::Mean),
    Operation::Local(Stat::Median),
    Operation::Local(Stat::Majority),
    Operation::Local(Stat::Minority),
    Operation::Local(Stat::Variety),
    Operation::Difference,
    Operation::Ratio,
    Operation::Rating,
    Operation::Focal(Stat::Sum),
    Operation::Focal(Stat::Maximum),
    Operation::Focal(Stat::Minimum),
    Operation::Focal(Stat::Mean),
    Operation::Focal(Stat::Median),
    Operation::Focal(Stat::Majority),
    Operation::Focal(Stat::Minority),
    Operation::Focal(Stat::Variety),
    Operation::Proximity,
    Operation::Neighbor,
    Operation::Insularity,
    Operation::Zonal(Stat::Sum),
    Operation::Zonal(Stat::Maximum),
    Operation::Zonal(Stat::Minimum),
    Operation::Zonal(Stat::Mean),
    Operation::Zonal(Stat::Median),
    Operation::Zonal(Stat::Majority),
    Operation::Zonal(Stat::Minority),
    Operation::Zonal(Stat::Variety),
    Operation::Incremental(Form::Linkage),
    Operation::Incremental(Form::Length),
    Operation::Incremental(Form::Partition),
    Operation::Incremental(Form::Frontage),
    Operation::Incremental(Form::Gradient),
    Operation::Incremental(Form::Aspect),
    Operation::Drainage,
];

/// All operations there are.
pub fn all_operations() -> &'static [Operation]
    ensures { result.now ≡ operations }
{
    &OPERATIONS
}

fn local_name(stat: Stat) -> &'static [u8]
    ensures { result.now ≡ codes "Local" ++ stat_text stat }
{
    match stat {
        Stat::Sum => b"LocalSum",
        Stat::Product => b"LocalProduct",
        Stat::Maximum => b"LocalMaximum",
        Stat::Minimum => b"LocalMinimum",
        Stat::Mean => b"LocalMean",
        Stat::Median => b"LocalMedian",
        Stat::Majority => b"LocalMajority",
        Stat::Minority => b"LocalMinority",
        Stat::Variety => b"LocalVariety",
    }
}

fn focal_name(stat: Stat) -> &'static [u8]
    ensures { result.now ≡ codes "Focal" ++ stat_text stat }
{
    match stat {
        Stat::Sum => b"FocalSum",
        Stat::Product => b"FocalProduct",
        Stat::Maximum => b"FocalMaximum",
        Stat::Minimum => b"FocalMinimum",
        Stat::Mean => b"FocalMean",
        Stat::Median => b"FocalMedian",
        Stat::Majority => b"FocalMajority",
        Stat::Minority => b"FocalMinority",
        Stat::Variety => b"FocalVariety",
    }
}

fn zonal_name(stat: Stat) -> &'static [u8]
    ensures { result.now ≡ codes "Zonal" ++ stat_text stat }
{
    match stat {
        Stat::Sum => b"ZonalSum",
        Stat::Product => b"ZonalProduct",
        Stat::Maximum => b"ZonalMaximum",
        Stat::Minimum => b"ZonalMinimum",
        Stat::Mean => b"ZonalMean",
        Stat::Median => b"ZonalMedian",
        Stat::Majority => b"ZonalMajority",
        Stat::Minority => b"ZonalMinority",
        Stat::Variety => b"ZonalVariety",
    }
}

fn incremental_name(form: Form) -> &'static [u8]
    ensures { result.now ≡ codes "Incremental" ++ form_text form }
{
    match form {
        Form::Linkage => b"IncrementalLinkage",
        Form::Length => b"IncrementalLength",
        Form::Partition => b"IncrementalPartition",
        Form::Frontage => b"IncrementalFrontage",
        Form::Gradient => b"IncrementalGradient",
        Form::Aspect => b"IncrementalAspect",
    }
}

/// The name of an operation.
pub fn operation_name(operation: Operation) -> &'static [u8]
    ensures { result.now ≡ operation_text operation }
{
    match operation {
        Operation::Local(stat) => local_name(stat),
        Operation::Difference => b"LocalDifference",
        Operation::Ratio => b"LocalRatio",
        Operation::Rating => b"LocalRating",
        Operation::Focal(stat) => focal_name(stat),
        Operation::Proximity => b"FocalProximity",
        Operation::Neighbor => b"FocalNeighbor",
        Operation::Insularity => b"FocalInsularity",
        Operation::Zonal(stat) => zonal_name(stat),
        Operation::Incremental(form) => incremental_name(form),
        Operation::Drainage => b"IncrementalDrainage",
    }
}

/// The first of these operations that has this name.
fn named_among(operations: &[Operation], name: &[u8]) -> Option<Operation>
    ensures { result ≡ find (λ o. bytes_eq (operation_text o) name.now) operations.now }
{
    operations
        .iter()
        .copied()
        .find(|operation| operation_name(*operation) == name)
}

/// The operation of a name, whether it is there or not.
#[tactic(auto, unfolding(crate::specs::Operations::find_operation))]
fn known_operation(name: &[u8]) -> Option<Operation>
    ensures { result ≡ find_operation name.now }
{
    named_among(&OPERATIONS, name)
}

/// Whether one of these operations has this name.
fn is_among(operations: &[Operation], name: &[u8]) -> bool
    ensures { result ≡ has_row operations.now name.now }
{
    operations
        .iter()
        .any(|operation| operation_name(*operation) == name)
}

/// Whether a name is that of an operation that is there.
fn is_there(rows: &Rows<'_>, name: &[u8]) -> bool
    ensures { result ≡ has_row (Local Sum ∷ rows.now.operations.now) name.now }
{
    if operation_name(Operation::Local(Stat::Sum)) == name {
        return true;
    }
    is_among(rows.operations, name)
}

/// The operation of a name, where it is there.
#[tactic(auto, unfolding(crate::specs::Operations::operation_named))]
pub fn operation_named(rows: &Rows<'_>, name: &[u8]) -> Option<Operation>
    ensures { result ≡ operation_of_name (manner_of rows.now) name.now }
{
    if !is_there(rows, name) {
        return None;
    }
    known_operation(name)
}
