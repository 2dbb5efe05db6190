//! Operations on other operands.

ghost use Rattle.std.specs.Prelude.{◌≡◌, IfOk, map};
ghost use Rattle.map_defs.specs.Ops.{with_terms};
ghost use Rattle.statement_parser.specs.Views.{terms_view, op_view};

use crate::op::{Op, Term};
use map_nums::NoMemory;
use std::alloc::Global;

/// What stands in place of each term.
pub trait Substitution {
    ghost use Rattle.std.specs.Prelude.{◌≡◌, IfOk};
    ghost use Rattle.map_defs.specs.Ops.{Term as Meant};
    ghost use Rattle.statement_parser.specs.Views.{term_view};

    /// What a term becomes.
    ghost becomes: { Self → Meant → Meant };

    fn term(&self, alloc: Global, term: &Term) -> Result<Term, NoMemory>
        ensures { IfOk result (λ t. term_view t ≡ becomes self.now (term_view term.now)) };
}

/// Each term replaced.
pub fn terms_with<S: Substitution>(
    alloc: Global,
    by: &S,
    terms: &[Term],
) -> Result<Vec<Term>, NoMemory>
    ensures { IfOk result (λ v. terms_view v.items ≡ map (S.becomes by.now) (terms_view terms.now)) }
{
    let mut replaced = Vec::new(alloc);
    for term in terms {
        replaced.push(by.term(alloc, term)?)?;
    }
    Ok(replaced)
}

impl Op {
    /// The same operation with each of its terms replaced.
    pub fn with_terms<S: Substitution>(&self, alloc: Global, by: &S) -> Result<Op, NoMemory>
        ensures { IfOk result (λ o. op_view o ≡ with_terms (S.becomes by.now) (op_view self.now)) }
    {
        match self {
            Op::Local {
                stat,
                terms,
                ignoring,
            } => {
                let terms = terms_with(alloc, by, terms.as_slice())?;
                Ok(Op::Local {
                    stat: *stat,
                    terms,
                    ignoring: *ignoring,
                })
            }
            Op::Difference { left, right } => {
                let left = by.term(alloc, left)?;
                let right = by.term(alloc, right)?;
                Ok(Op::Difference { left, right })
            }
            Op::Ratio { left, right } => {
                let left = by.term(alloc, left)?;
                let right = by.term(alloc, right)?;
                Ok(Op::Ratio { left, right })
            }
            Op::Rating { of, rates } => {
                let of = by.term(alloc, of)?;
                let rates = Vec::from_slice(alloc, rates.as_slice())?;
                Ok(Op::Rating { of, rates })
            }
            Op::Focal { stat, of, reach } => {
                let of = by.term(alloc, of)?;
                Ok(Op::Focal {
                    stat: *stat,
                    of,
                    reach: *reach,
                })
            }
            Op::Zonal { stat, of, zones } => {
                let of = by.term(alloc, of)?;
                let zones = by.term(alloc, zones)?;
                Ok(Op::Zonal {
                    stat: *stat,
                    of,
                    zones,
                })
            }
            Op::Incremental { form, of } => {
                let of = by.term(alloc, of)?;
                Ok(Op::Incremental { form: *form, of })
            }
            Op::Direction { of } => {
                let of = by.term(alloc, of)?;
                Ok(Op::Direction { of })
            }
            Op::Flow { of, weights } => {
                let of = by.term(alloc, of)?;
                let weights = by.term(alloc, weights)?;
                Ok(Op::Flow { of, weights })
            }
            Op::Spread {
                of,
                friction,
                limit,
            } => {
                let of = by.term(alloc, of)?;
                let friction = by.term(alloc, friction)?;
                Ok(Op::Spread {
                    of,
                    friction,
                    limit: *limit,
                })
            }
            Op::Neighbor {
                of,
                friction,
                limit,
            } => {
                let of = by.term(alloc, of)?;
                let friction = by.term(alloc, friction)?;
                Ok(Op::Neighbor {
                    of,
                    friction,
                    limit: *limit,
                })
            }
            Op::Sight {
                of,
                surface,
                from,
                to,
                reach,
            } => {
                let of = by.term(alloc, of)?;
                let surface = by.term(alloc, surface)?;
                Ok(Op::Sight {
                    of,
                    surface,
                    from: *from,
                    to: *to,
                    reach: *reach,
                })
            }
            Op::Region { of } => {
                let of = by.term(alloc, of)?;
                Ok(Op::Region { of })
            }
        }
    }
}
