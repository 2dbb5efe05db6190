//! Reading what follows the names of operations.

ghost use Rattle.std.specs.Prelude.{◌≡◌, suc, length, nat_abs, None, option_map, codes};
ghost use Rattle.statement_parser.specs.Views.{texts_of, term_view, terms_view, op_view, reach_view, written_view, manner_of};
ghost use Rattle.statement_parser.specs.Gives.{Gives};
ghost use Rattle.statement_parser.specs.Lines.{Manner};
ghost use Rattle.statement_parser.specs.declared.operation.Operation.TheVariants.{Proximity, Neighbor};
ghost use Rattle.grammar_core.specs.Readers.{starts};
ghost use Rattle.map_nums.specs.Numbers.{greatest_value};
ghost use Rattle.statement_parser.specs.Bodies.{radiates, drainage_op};
ghost use Rattle.statement_parser.specs.Places.{the as word_of, maybe, call_of, value_of, disc_of, reach_of, limit_of, weights_of};
ghost use Rattle.statement_parser.specs.ReadBodies.{nulls_at, ignoring_at, statistic_at, pair_at, rating_at, radius_at, sight_at, reaching_at, focal_at, costs_at, drainage_at, operation_at, given_at, call_at, plain_at, called_at, body_at};
ghost use Rattle.statement_parser.specs.ScopeViews.{scope_of};
ghost use Rattle.statement_parser.specs.ReadParts.{term_after_at, further_at, optional_at, range_at, rate_at, with_at, friction_at};

use crate::fault::ReadError;
use crate::line::Written;
use crate::op::{Op, Reach, Term};
use crate::operation::{Operation, operation_named};
use crate::places::{
    cell, is_next, is_unknown_operation, limit, misfit, radius, reach, term, the, value, weights,
};
use crate::rows::Rows;
use crate::scope::Scope;
use grammar_core::{Fault, Kind};
use map_nums::{Rate, Stat, VMAX, Value};
use map_words::{Name, NameRefusal, Word};
use std::alloc::Global;

/// This word and a term.
#[tactic(auto, unfolding(crate::specs::ReadParts::term_after_at))]
fn term_after<'t, 'a>(
    alloc: Global,
    scope: &Scope<'_>,
    word: &[u8],
    words: &'t [Word<'a>],
) -> Result<(Term, &'t [Word<'a>]), ReadError>
    ensures { Gives (λ x. (term_view x.0, texts_of x.1.now)) result (term_after_at (scope_of scope.now) word.now (texts_of words.now)) }
{
    let rest = the(word, words)?;
    term(alloc, scope, rest)
}

/// Further terms, each after this word, at most so many.
#[tactic(auto, unfolding(crate::specs::ReadParts::further_at))]
fn further_terms<'t, 'a>(
    alloc: Global,
    scope: &Scope<'_>,
    word: &[u8],
    most: u32,
    front: Vec<Term>,
    words: &'t [Word<'a>],
) -> Result<(Vec<Term>, &'t [Word<'a>]), ReadError>
    ensures { Gives (λ x. (terms_view x.0.items, texts_of x.1.now)) result (further_at (scope_of scope.now) word.now most (terms_view front.items) (texts_of words.now)) }
{
    if most == 0 {
        return Ok((front, words));
    }
    if !is_next(word, words) {
        return Ok((front, words));
    }
    let (one, rest) = term_after(alloc, scope, word, words)?;
    let mut terms = front;
    terms.push(one)?;
    further_terms(alloc, scope, word, most - 1, terms, rest)
}

/// A number after this word; the default where the word doesn't follow.
#[tactic(auto, unfolding(crate::specs::ReadParts::optional_at))]
fn optional_value<'t, 'a>(
    word: &[u8],
    default: Value,
    words: &'t [Word<'a>],
) -> Result<(Value, &'t [Word<'a>]), ReadError>
    ensures { Gives (λ x. (x.0, texts_of x.1.now)) result (optional_at word.now value_of default (texts_of words.now)) }
{
    if !is_next(word, words) {
        return Ok((default, words));
    }
    let rest = the(word, words)?;
    value(rest)
}

/// That nulls are ignored.
#[tactic(auto, unfolding(crate::specs::ReadBodies::nulls_at))]
fn nulls<'t, 'a>(words: &'t [Word<'a>]) -> Result<(bool, &'t [Word<'a>]), ReadError>
    ensures { Gives (λ x. (x.0, texts_of x.1.now)) result (nulls_at (texts_of words.now)) }
{
    let rest = the(b"ignoring", words)?;
    let rest = the(b"nulls", rest)?;
    Ok((true, rest))
}

/// Whether it follows that nulls are ignored.
fn is_ignoring(rows: &Rows<'_>, words: &[Word<'_>]) -> bool
    ensures { result ≡ starts (maybe (manner_of rows.now).ignoring (word_of (codes "ignoring"))) (texts_of words.now) }
{
    if !rows.ignoring {
        return false;
    }
    is_next(b"ignoring", words)
}

/// Whether nulls are ignored, which is written only where they are.
#[tactic(auto, unfolding(crate::specs::ReadBodies::ignoring_at))]
fn ignoring<'t, 'a>(
    rows: &Rows<'_>,
    words: &'t [Word<'a>],
) -> Result<(bool, &'t [Word<'a>]), ReadError>
    ensures { Gives (λ x. (x.0, texts_of x.1.now)) result (ignoring_at (manner_of rows.now) (texts_of words.now)) }
{
    if is_ignoring(rows, words) {
        return nulls(words);
    }
    Ok((false, words))
}

#[tactic(auto, unfolding(crate::specs::ReadBodies::statistic_at))]
fn statistic<'t, 'a>(
    alloc: Global,
    scope: &Scope<'_>,
    rows: &Rows<'_>,
    stat: Stat,
    words: &'t [Word<'a>],
) -> Result<(Op, &'t [Word<'a>]), ReadError>
    ensures { Gives (λ x. (op_view x.0, texts_of x.1.now)) result (statistic_at (scope_of scope.now) (manner_of rows.now) stat (texts_of words.now)) }
{
    let (first, rest) = term_after(alloc, scope, b"of", words)?;
    let (second, rest) = term_after(alloc, scope, b"and", rest)?;
    let mut terms = Vec::new(alloc);
    terms.push(first)?;
    terms.push(second)?;
    let (terms, rest) = further_terms(alloc, scope, b"and", 6, terms, rest)?;
    let (ignoring, rest) = ignoring(rows, rest)?;
    Ok((
        Op::Local {
            stat,
            terms,
            ignoring,
        },
        rest,
    ))
}

/// Two terms, with this word between.
#[tactic(auto, unfolding(crate::specs::ReadBodies::pair_at))]
fn pair<'t, 'a>(
    alloc: Global,
    scope: &Scope<'_>,
    word: &[u8],
    words: &'t [Word<'a>],
) -> Result<((Term, Term), &'t [Word<'a>]), ReadError>
    ensures { Gives (λ x. ((term_view x.0.0, term_view x.0.1), texts_of x.1.now)) result (pair_at (scope_of scope.now) word.now (texts_of words.now)) }
{
    let (left, rest) = term_after(alloc, scope, b"of", words)?;
    let (right, rest) = term_after(alloc, scope, word, rest)?;
    Ok(((left, right), rest))
}

/// What follows what a rate gives.
#[tactic(auto, unfolding(crate::specs::ReadParts::range_at))]
fn range<'t, 'a>(
    give: Option<Value>,
    words: &'t [Word<'a>],
) -> Result<(Rate, &'t [Word<'a>]), ReadError>
    ensures { Gives (λ x. (x.0, texts_of x.1.now)) result (range_at give (texts_of words.now)) }
{
    let rest = the(b"for", words)?;
    let (low, rest) = value(rest)?;
    let (high, rest) = optional_value(b"to", low, rest)?;
    Ok((Rate { low, high, give }, rest))
}

#[tactic(auto, unfolding(crate::specs::ReadParts::rate_at))]
fn rate<'t, 'a>(words: &'t [Word<'a>]) -> Result<(Rate, &'t [Word<'a>]), ReadError>
    ensures { Gives (λ x. (x.0, texts_of x.1.now)) result (rate_at (texts_of words.now)) }
{
    match cell(words) {
        Ok((give, rest)) => range(give.get(), rest),
        Err(error) => Err(error),
    }
}

/// Further rates, at most so many.
#[tactic(auto, unfolding(crate::specs::ReadParts::with_at))]
fn with_rates<'t, 'a>(
    most: u32,
    front: Vec<Rate>,
    words: &'t [Word<'a>],
) -> Result<(Vec<Rate>, &'t [Word<'a>]), ReadError>
    ensures { Gives (λ x. (x.0.items, texts_of x.1.now)) result (with_at most front.items (texts_of words.now)) }
{
    if most == 0 {
        return Ok((front, words));
    }
    if !is_next(b"with", words) {
        return Ok((front, words));
    }
    let rest = the(b"with", words)?;
    let (one, rest) = rate(rest)?;
    let mut rates = front;
    rates.push(one)?;
    with_rates(most - 1, rates, rest)
}

#[tactic(auto, unfolding(crate::specs::ReadBodies::rating_at))]
fn rating<'t, 'a>(
    alloc: Global,
    scope: &Scope<'_>,
    words: &'t [Word<'a>],
) -> Result<(Op, &'t [Word<'a>]), ReadError>
    ensures { Gives (λ x. (op_view x.0, texts_of x.1.now)) result (rating_at (scope_of scope.now) (texts_of words.now)) }
{
    let (of, rest) = term_after(alloc, scope, b"of", words)?;
    let rest = the(b"with", rest)?;
    let (first, rest) = rate(rest)?;
    let mut rates = Vec::new(alloc);
    rates.push(first)?;
    let (rates, rest) = with_rates(31, rates, rest)?;
    Ok((Op::Rating { of, rates }, rest))
}

/// The radius after `at`, or the square.
#[tactic(auto, unfolding(crate::specs::ReadParts::optional_at))]
fn reach_part<'t, 'a>(words: &'t [Word<'a>]) -> Result<(Reach, &'t [Word<'a>]), ReadError>
    ensures { Gives (λ x. (reach_view x.0, texts_of x.1.now)) result (optional_at (codes "at") disc_of None (texts_of words.now)) }
{
    if !is_next(b"at", words) {
        return Ok((Reach::Square, words));
    }
    let rest = the(b"at", words)?;
    let (radius, rest) = radius(rest)?;
    Ok((Reach::Disc(radius), rest))
}

#[tactic(auto, unfolding(crate::specs::ReadBodies::radius_at))]
fn near<'t, 'a>(
    stat: Stat,
    of: Term,
    words: &'t [Word<'a>],
) -> Result<(Op, &'t [Word<'a>]), ReadError>
    ensures { Gives (λ x. (op_view x.0, texts_of x.1.now)) result (radius_at stat (term_view of) (texts_of words.now)) }
{
    let (reach, rest) = reach_part(words)?;
    Ok((Op::Focal { stat, of, reach }, rest))
}

/// How far sight reaches, after `within`; the default where it is left out.
#[tactic(auto, unfolding(crate::specs::ReadParts::optional_at))]
fn sight_reach<'t, 'a>(words: &'t [Word<'a>]) -> Result<(u32, &'t [Word<'a>]), ReadError>
    ensures { Gives (λ x. (x.0, texts_of x.1.now)) result (optional_at (codes "within") reach_of 64 (texts_of words.now)) }
{
    if !is_next(b"within", words) {
        return Ok((64, words));
    }
    let rest = the(b"within", words)?;
    reach(rest)
}

#[tactic(auto, unfolding(crate::specs::ReadBodies::sight_at))]
fn sight<'t, 'a>(
    alloc: Global,
    scope: &Scope<'_>,
    of: Term,
    words: &'t [Word<'a>],
) -> Result<(Op, &'t [Word<'a>]), ReadError>
    ensures { Gives (λ x. (op_view x.0, texts_of x.1.now)) result (sight_at (scope_of scope.now) (term_view of) (texts_of words.now)) }
{
    let rest = the(b"radiating", words)?;
    let (surface, rest) = term_after(alloc, scope, b"on", rest)?;
    let (from, rest) = optional_value(b"from", 0, rest)?;
    let (to, rest) = optional_value(b"to", 0, rest)?;
    let (reach, rest) = sight_reach(rest)?;
    Ok((
        Op::Sight {
            of,
            surface,
            from,
            to,
            reach,
        },
        rest,
    ))
}

/// Whether this statistic may radiate.
fn may_radiate(rows: &Rows<'_>, stat: Stat) -> bool
    ensures { result ≡ radiates (manner_of rows.now) stat }
{
    match stat {
        Stat::Sum => rows.sight,
        _ => false,
    }
}

/// Whether a sum that radiates follows.
fn is_radiating(rows: &Rows<'_>, stat: Stat, words: &[Word<'_>]) -> bool
    ensures { result ≡ starts (maybe (radiates (manner_of rows.now) stat) (word_of (codes "radiating"))) (texts_of words.now) }
{
    if !may_radiate(rows, stat) {
        return false;
    }
    is_next(b"radiating", words)
}

#[tactic(auto, unfolding(crate::specs::ReadBodies::reaching_at))]
fn reaching<'t, 'a>(
    alloc: Global,
    scope: &Scope<'_>,
    rows: &Rows<'_>,
    stat: Stat,
    of: Term,
    words: &'t [Word<'a>],
) -> Result<(Op, &'t [Word<'a>]), ReadError>
    ensures { Gives (λ x. (op_view x.0, texts_of x.1.now)) result (reaching_at (scope_of scope.now) (manner_of rows.now) stat (term_view of) (texts_of words.now)) }
{
    if is_radiating(rows, stat, words) {
        return sight(alloc, scope, of, words);
    }
    near(stat, of, words)
}

#[tactic(auto, unfolding(crate::specs::ReadBodies::focal_at))]
fn focal<'t, 'a>(
    alloc: Global,
    scope: &Scope<'_>,
    rows: &Rows<'_>,
    stat: Stat,
    words: &'t [Word<'a>],
) -> Result<(Op, &'t [Word<'a>]), ReadError>
    ensures { Gives (λ x. (op_view x.0, texts_of x.1.now)) result (focal_at (scope_of scope.now) (manner_of rows.now) stat (texts_of words.now)) }
{
    let (of, rest) = term_after(alloc, scope, b"of", words)?;
    reaching(alloc, scope, rows, stat, of, rest)
}

/// The friction after `spreading in`, or 1.
#[tactic(auto, unfolding(crate::specs::ReadParts::friction_at))]
fn friction_part<'t, 'a>(
    alloc: Global,
    scope: &Scope<'_>,
    words: &'t [Word<'a>],
) -> Result<(Term, &'t [Word<'a>]), ReadError>
    ensures { Gives (λ x. (term_view x.0, texts_of x.1.now)) result (friction_at (scope_of scope.now) (texts_of words.now)) }
{
    if !is_next(b"spreading", words) {
        return Ok((Term::Number(1), words));
    }
    let rest = the(b"spreading", words)?;
    term_after(alloc, scope, b"in", rest)
}

/// The limit after `within`, or the greatest value.
#[tactic(auto, unfolding(crate::specs::ReadParts::optional_at))]
fn limit_part<'t, 'a>(words: &'t [Word<'a>]) -> Result<(Value, &'t [Word<'a>]), ReadError>
    ensures { Gives (λ x. (nat_abs x.0, texts_of x.1.now)) result (optional_at (codes "within") limit_of greatest_value (texts_of words.now)) }
{
    if !is_next(b"within", words) {
        return Ok((VMAX as Value, words));
    }
    let rest = the(b"within", words)?;
    limit(rest)
}

/// Sources, the friction and the limit.
#[tactic(auto, unfolding(crate::specs::ReadBodies::costs_at))]
fn costs<'t, 'a>(
    alloc: Global,
    scope: &Scope<'_>,
    words: &'t [Word<'a>],
) -> Result<((Term, Term, Value), &'t [Word<'a>]), ReadError>
    ensures { Gives (λ x. ((term_view x.0.0, term_view x.0.1, nat_abs x.0.2), texts_of x.1.now)) result (costs_at (scope_of scope.now) (texts_of words.now)) }
{
    let (of, rest) = term_after(alloc, scope, b"of", words)?;
    let (friction, rest) = friction_part(alloc, scope, rest)?;
    let (limit, rest) = limit_part(rest)?;
    Ok(((of, friction, limit), rest))
}

#[tactic(auto, unfolding(crate::specs::ReadBodies::spread_at))]
fn spread<'t, 'a>(
    alloc: Global,
    scope: &Scope<'_>,
    words: &'t [Word<'a>],
) -> Result<(Op, &'t [Word<'a>]), ReadError>
    ensures { (m : Manner) → Gives (λ x. (op_view x.0, texts_of x.1.now)) result (operation_at (scope_of scope.now) m Proximity (texts_of words.now)) }
{
    let ((of, friction, limit), rest) = costs(alloc, scope, words)?;
    Ok((
        Op::Spread {
            of,
            friction,
            limit,
        },
        rest,
    ))
}

#[tactic(auto, unfolding(crate::specs::ReadBodies::spread_at))]
fn neighbor<'t, 'a>(
    alloc: Global,
    scope: &Scope<'_>,
    words: &'t [Word<'a>],
) -> Result<(Op, &'t [Word<'a>]), ReadError>
    ensures { (m : Manner) → Gives (λ x. (op_view x.0, texts_of x.1.now)) result (operation_at (scope_of scope.now) m Neighbor (texts_of words.now)) }
{
    let ((of, friction, limit), rest) = costs(alloc, scope, words)?;
    Ok((
        Op::Neighbor {
            of,
            friction,
            limit,
        },
        rest,
    ))
}

/// The weights after `carrying`, where they are there.
#[tactic(auto, unfolding(crate::specs::ReadParts::optional_at))]
fn weights_part<'t, 'a>(
    alloc: Global,
    scope: &Scope<'_>,
    words: &'t [Word<'a>],
) -> Result<(Option<Term>, &'t [Word<'a>]), ReadError>
    ensures { Gives (λ x. (option_map term_view x.0, texts_of x.1.now)) result (optional_at (codes "carrying") (weights_of (scope_of scope.now)) None (texts_of words.now)) }
{
    if !is_next(b"carrying", words) {
        return Ok((None, words));
    }
    let rest = the(b"carrying", words)?;
    weights(alloc, scope, rest)
}

/// The operation of a surface, with weights or without.
fn drained(of: Term, weights: Option<Term>) -> Op
    ensures { op_view result ≡ drainage_op (term_view of) (option_map term_view weights) }
{
    match weights {
        None => Op::Direction { of },
        Some(weights) => Op::Flow { of, weights },
    }
}

#[tactic(auto, unfolding(crate::specs::ReadBodies::drainage_at))]
fn drainage<'t, 'a>(
    alloc: Global,
    scope: &Scope<'_>,
    words: &'t [Word<'a>],
) -> Result<(Op, &'t [Word<'a>]), ReadError>
    ensures { Gives (λ x. (op_view x.0, texts_of x.1.now)) result (drainage_at (scope_of scope.now) (texts_of words.now)) }
{
    let (of, rest) = term_after(alloc, scope, b"of", words)?;
    let (weights, rest) = weights_part(alloc, scope, rest)?;
    Ok((drained(of, weights), rest))
}

/// What follows an operation's name.
#[tactic(auto, unfolding(crate::specs::ReadBodies::two_at, crate::specs::ReadBodies::single_at))]
fn operation<'t, 'a>(
    alloc: Global,
    scope: &Scope<'_>,
    rows: &Rows<'_>,
    operation: Operation,
    words: &'t [Word<'a>],
) -> Result<(Op, &'t [Word<'a>]), ReadError>
    ensures { Gives (λ x. (op_view x.0, texts_of x.1.now)) result (operation_at (scope_of scope.now) (manner_of rows.now) operation (texts_of words.now)) }
{
    match operation {
        Operation::Local(stat) => statistic(alloc, scope, rows, stat, words),
        Operation::Difference => {
            let ((left, right), rest) = pair(alloc, scope, b"and", words)?;
            Ok((Op::Difference { left, right }, rest))
        }
        Operation::Ratio => {
            let ((left, right), rest) = pair(alloc, scope, b"and", words)?;
            Ok((Op::Ratio { left, right }, rest))
        }
        Operation::Rating => rating(alloc, scope, words),
        Operation::Focal(stat) => focal(alloc, scope, rows, stat, words),
        Operation::Proximity => spread(alloc, scope, words),
        Operation::Neighbor => neighbor(alloc, scope, words),
        Operation::Insularity => {
            let (of, rest) = term_after(alloc, scope, b"of", words)?;
            Ok((Op::Region { of }, rest))
        }
        Operation::Zonal(stat) => {
            let ((of, zones), rest) = pair(alloc, scope, b"within", words)?;
            Ok((Op::Zonal { stat, of, zones }, rest))
        }
        Operation::Incremental(form) => {
            let (of, rest) = term_after(alloc, scope, b"of", words)?;
            Ok((Op::Incremental { form, of }, rest))
        }
        Operation::Drainage => drainage(alloc, scope, words),
    }
}

#[tactic(auto, unfolding(crate::specs::ReadBodies::plain_at))]
fn plain<'t, 'a>(
    alloc: Global,
    scope: &Scope<'_>,
    rows: &Rows<'_>,
    named: Operation,
    words: &'t [Word<'a>],
) -> Result<(Written, &'t [Word<'a>]), ReadError>
    ensures { Gives (λ x. (written_view x.0, texts_of x.1.now)) result (plain_at (scope_of scope.now) (manner_of rows.now) named (texts_of words.now)) }
{
    let (op, rest) = operation(alloc, scope, rows, named, words)?;
    Ok((Written::Plain(op), rest))
}

/// The terms of a call, to its end.
#[tactic(auto, unfolding(crate::specs::ReadBodies::given_at))]
fn given<'t, 'a>(
    alloc: Global,
    scope: &Scope<'_>,
    words: &'t [Word<'a>],
) -> Result<(Vec<Term>, &'t [Word<'a>]), ReadError>
    ensures { Gives (λ x. (terms_view x.0.items, texts_of x.1.now)) result (given_at (scope_of scope.now) (texts_of words.now)) }
{
    let (first, rest) = term_after(alloc, scope, b"(", words)?;
    let mut terms = Vec::new(alloc);
    terms.push(first)?;
    let (terms, rest) = further_terms(alloc, scope, b",", 7, terms, rest)?;
    let rest = the(b")", rest)?;
    Ok((terms, rest))
}

#[tactic(auto, unfolding(crate::specs::ReadBodies::call_at))]
fn call<'t, 'a>(
    alloc: Global,
    scope: &Scope<'_>,
    procedure: Name,
    words: &'t [Word<'a>],
) -> Result<(Written, &'t [Word<'a>]), ReadError>
    ensures { Gives (λ x. (written_view x.0, texts_of x.1.now)) result (call_at (scope_of scope.now) procedure (texts_of words.now)) }
{
    let (given, rest) = given(alloc, scope, words)?;
    Ok((Written::Call { procedure, given }, rest))
}

/// What follows a word that is no operation.
fn called<'t, 'a>(
    alloc: Global,
    scope: &Scope<'_>,
    rows: &Rows<'_>,
    word: &[u8],
    words: &'t [Word<'a>],
    rest: &'t [Word<'a>],
) -> Result<(Written, &'t [Word<'a>]), ReadError>
    requires { length words.now ≡ suc (length rest.now) }
    ensures { Gives (λ x. (written_view x.0, texts_of x.1.now)) result (called_at (scope_of scope.now) (call_of (manner_of rows.now) word.now) (texts_of rest.now)) }
{
    if !rows.calls {
        return Err(ReadError::Fault(misfit(false, words)));
    }
    match Name::plain(alloc, word) {
        Ok(name) => call(alloc, scope, name, rest),
        Err(NameRefusal::Form) => Err(ReadError::Fault(misfit(false, words))),
        Err(NameRefusal::NoMemory) => Err(ReadError::NoMemory),
    }
}

/// An operation or a call.
#[tactic(auto, unfolding(crate::specs::ReadBodies::body_at))]
pub fn body<'t, 'a>(
    alloc: Global,
    scope: &Scope<'_>,
    rows: &Rows<'_>,
    words: &'t [Word<'a>],
) -> Result<(Written, &'t [Word<'a>]), ReadError>
    ensures { Gives (λ x. (written_view x.0, texts_of x.1.now)) result (body_at (scope_of scope.now) (manner_of rows.now) (texts_of words.now)) }
{
    if is_unknown_operation(rows, words) {
        return Err(ReadError::Fault(Fault {
            kind: Kind::Operation,
            left: words.len(),
        }));
    }
    match words {
        [] => Err(ReadError::Fault(misfit(false, words))),
        [first, rest @ ..] => match operation_named(rows, first.text) {
            Some(named) => plain(alloc, scope, rows, named, rest),
            None => called(alloc, scope, rows, first.text, words, rest),
        },
    }
}
