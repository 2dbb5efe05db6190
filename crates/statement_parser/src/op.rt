//! Operations and their terms.

ghost use Rattle.std.specs.Prelude.{◌≡◌, ◌∷◌, [], option_map, slice_get};
ghost use Rattle.statement_parser.specs.Views.{term_view};

use map_nums::{Rate, Stat, Value};
use map_words::Name;

/// An operand: a layer, or a number that stands for a layer of it everywhere.
#[derive(Debug, Drop)]
pub enum Term {
    Layer(Name),
    Number(Value),
}

/// A cell's neighbourhood.
#[derive(Clone, Copy, Debug, PartialEq, Eq)]
pub enum Reach {
    /// The square of three by three cells.
    Square,
    /// All cells no farther than this radius, in cells.
    Disc(u32),
}

/// What an Incremental operation gives of a cell.
#[derive(Clone, Copy, Debug, PartialEq, Eq)]
pub enum Form {
    Linkage,
    Length,
    Partition,
    Frontage,
    Gradient,
    Aspect,
}

#[derive(Debug, Drop)]
pub enum Op {
    /// A statistic of each cell's operands; of those that are not null, where nulls are ignored.
    Local {
        stat: Stat,
        terms: Vec<Term>,
        ignoring: bool,
    },
    Difference {
        left: Term,
        right: Term,
    },
    Ratio {
        left: Term,
        right: Term,
    },
    /// The `give` of the first rate that holds a value.
    Rating {
        of: Term,
        rates: Vec<Rate>,
    },
    /// A statistic of each cell's neighbourhood.
    Focal {
        stat: Stat,
        of: Term,
        reach: Reach,
    },
    /// A statistic of each cell's zone.
    Zonal {
        stat: Stat,
        of: Term,
        zones: Term,
    },
    Incremental {
        form: Form,
        of: Term,
    },
    /// Where each cell drains to.
    Direction {
        of: Term,
    },
    /// The weights that drain through each cell.
    Flow {
        of: Term,
        weights: Term,
    },
    /// The least cost from a source, by the friction, no higher than the limit.
    Spread {
        of: Term,
        friction: Term,
        limit: Value,
    },
    /// The number of the source whose path to a cell costs least; the least number where several do.
    Neighbor {
        of: Term,
        friction: Term,
        limit: Value,
    },
    /// The viewers that see each cell. Heights `from` and `to` are added to the surface, `reach` counts cells.
    Sight {
        of: Term,
        surface: Term,
        from: Value,
        to: Value,
        reach: u32,
    },
    /// The number of each cell's region.
    Region {
        of: Term,
    },
}

/// The first or the second of two terms, by their place from 0.
fn of_two<'t>(first: &'t Term, second: &'t Term, k: u32) -> Option<&'t Term>
    ensures { option_map (λ t. term_view t.now) result ≡ slice_get (term_view first.now ∷ term_view second.now ∷ []) k }
{
    match k {
        0 => Some(first),
        1 => Some(second),
        _ => None,
    }
}

fn of_one(only: &Term, k: u32) -> Option<&Term>
    ensures { option_map (λ t. term_view t.now) result ≡ slice_get (term_view only.now ∷ []) k }
{
    match k {
        0 => Some(only),
        _ => None,
    }
}

impl Op {
    ghost use Rattle.statement_parser.specs.Views.{op_view};

    /// The term at this place, from 0, in the order in which a statement writes them; none past the last.
    pub fn term(&self, k: u32) -> Option<&Term>
        ensures { option_map (λ t. term_view t.now) result ≡ slice_get (op_view self.now).terms k }
    {
        match self {
            Op::Local { terms, .. } => terms.get(k as usize),
            Op::Difference { left, right } | Op::Ratio { left, right } => of_two(left, right, k),
            Op::Zonal { of, zones, .. } => of_two(of, zones, k),
            Op::Flow { of, weights } => of_two(of, weights, k),
            Op::Spread { of, friction, .. } | Op::Neighbor { of, friction, .. } => {
                of_two(of, friction, k)
            }
            Op::Sight { of, surface, .. } => of_two(of, surface, k),
            Op::Rating { of, .. }
            | Op::Focal { of, .. }
            | Op::Incremental { of, .. }
            | Op::Direction { of }
            | Op::Region { of } => of_one(of, k),
        }
    }
}
