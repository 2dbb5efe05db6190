//! The canonical text of a statement.

ghost use Rattle.std.specs.Prelude.{◌≡◌, ◌∷◌, ◌++◌, [], IfOk, Some, codes, pos, nat_abs, decimal};
ghost use Rattle.std.specs.Fmt.{signed_decimal};
ghost use Rattle.map_nums.specs.Numbers.{vmax};
ghost use Rattle.map_nums.specs.declared.Stat.TheVariants.{Sum};
ghost use Rattle.map_defs.specs.Ops.{sight_op};
ghost use Rattle.map_defs.specs.Statements.{call};
ghost use Rattle.statement_parser.specs.Views.{term_view, terms_view, reach_view, op_view, written_view};
ghost use Rattle.statement_parser.specs.Canonical.{cell_text, optional_texts, rate_texts, rates_texts, radius_texts, sight_texts, is_one, friction_texts, ignoring_texts, op_texts, tail_text, written_text};
ghost use Rattle.statement_parser.specs.TermTexts.{term_text, terms_after, terms_texts, listed, listed_after};
ghost use Rattle.statement_parser.specs.Operations.{operation_text};
ghost use Rattle.statement_parser.specs.declared.operation.Operation.TheVariants.{Local, Focal};
ghost use Rattle.statement_parser.specs.Printing.{Adds, Grows, ReadsBack};

use crate::line::Written;
use crate::op::{Op, Reach, Term};
use crate::operation::{Operation, operation_name};
use itoa::Buffer;
use map_nums::{NoMemory, Rate, Stat, VMAX, Value};
use map_words::Name;
use std::alloc::{AllocError, Global};

/// Appends a space and a word.
fn word(text: &mut Vec<u8>, word: &[u8]) -> Result<(), AllocError>
    ensures { IfOk result (λ _. Adds text.old.items text.new.items (word.now ∷ [])) }
{
    text.push(b' ')?;
    text.extend_from_slice(word)?;
    Ok(())
}

fn number(text: &mut Vec<u8>, value: Value) -> Result<(), AllocError>
    ensures { IfOk result (λ _. Adds text.old.items text.new.items (signed_decimal value ∷ [])) }
{
    let mut buffer = Buffer::new();
    word(text, buffer.format(value).as_bytes())
}

fn term(text: &mut Vec<u8>, term: &Term) -> Result<(), AllocError>
    ensures { IfOk result (λ _. Adds text.old.items text.new.items (term_text (term_view term.now) ∷ [])) }
{
    match term {
        Term::Layer(name) => word(text, name.bytes()),
        Term::Number(value) => number(text, *value),
    }
}

fn cell(text: &mut Vec<u8>, cell: Option<Value>) -> Result<(), AllocError>
    ensures { IfOk result (λ _. Adds text.old.items text.new.items (cell_text cell ∷ [])) }
{
    match cell {
        None => word(text, b"null"),
        Some(value) => number(text, value),
    }
}

/// Terms, with `and` before each.
fn and_terms(text: &mut Vec<u8>, terms: &[Term]) -> Result<(), AllocError>
    ensures { IfOk result (λ _. Adds text.old.items text.new.items (terms_after (codes "and") (terms_view terms.now))) }
{
    match terms {
        [] => Ok(()),
        [first, rest @ ..] => {
            word(text, b"and")?;
            term(text, first)?;
            and_terms(text, rest)
        }
    }
}

/// Terms, with `and` between.
fn terms(text: &mut Vec<u8>, terms: &[Term]) -> Result<(), AllocError>
    ensures { IfOk result (λ _. Adds text.old.items text.new.items (terms_texts (codes "and") (terms_view terms.now))) }
{
    match terms {
        [] => Ok(()),
        [first, rest @ ..] => {
            term(text, first)?;
            and_terms(text, rest)
        }
    }
}

/// A word and a number, where the number is not the default.
fn optional_number(
    text: &mut Vec<u8>,
    name: &[u8],
    default: Value,
    value: Value,
) -> Result<(), AllocError>
    ensures { IfOk result (λ _. Adds text.old.items text.new.items (optional_texts name.now default value)) }
{
    if value == default {
        return Ok(());
    }
    word(text, name)?;
    number(text, value)
}

fn count(text: &mut Vec<u8>, count: u64) -> Result<(), AllocError>
    ensures { IfOk result (λ _. Adds text.old.items text.new.items (decimal count ∷ [])) }
{
    let mut buffer = Buffer::new();
    word(text, buffer.format(count).as_bytes())
}

/// A word and a count, where the count is not the default.
fn optional_count(
    text: &mut Vec<u8>,
    name: &[u8],
    default: u64,
    value: u64,
) -> Result<(), AllocError>
    ensures { IfOk result (λ _. Adds text.old.items text.new.items (optional_texts name.now (pos default) (pos value))) }
{
    if value == default {
        return Ok(());
    }
    word(text, name)?;
    count(text, value)
}

fn rate(text: &mut Vec<u8>, rate: &Rate) -> Result<(), AllocError>
    ensures { IfOk result (λ _. Adds text.old.items text.new.items (rate_texts rate.now)) }
{
    word(text, b"with")?;
    cell(text, rate.give)?;
    word(text, b"for")?;
    number(text, rate.low)?;
    optional_number(text, b"to", rate.low, rate.high)
}

fn rates(text: &mut Vec<u8>, rates: &[Rate]) -> Result<(), AllocError>
    ensures { IfOk result (λ _. Adds text.old.items text.new.items (rates_texts rates.now)) }
{
    match rates {
        [] => Ok(()),
        [first, rest @ ..] => {
            rate(text, first)?;
            self::rates(text, rest)
        }
    }
}

/// An operation's name, `of` and a term.
fn begin(text: &mut Vec<u8>, name: &[u8], of: &Term) -> Result<(), AllocError>
    ensures { IfOk result (λ _. Adds text.old.items text.new.items (name.now ∷ codes "of" ∷ term_text (term_view of.now) ∷ [])) }
{
    word(text, name)?;
    word(text, b"of")?;
    term(text, of)
}

/// An operation's name, `of`, a term, a word and a term.
fn pair(
    text: &mut Vec<u8>,
    name: &[u8],
    between: &[u8],
    left: &Term,
    right: &Term,
) -> Result<(), AllocError>
    ensures { IfOk result (λ _. Adds text.old.items text.new.items (name.now ∷ codes "of" ∷ terms_texts between.now (term_view left.now ∷ term_view right.now ∷ []))) }
{
    begin(text, name, left)?;
    word(text, between)?;
    term(text, right)
}

/// That nulls are ignored, where they are.
fn ignoring(text: &mut Vec<u8>, ignoring: bool) -> Result<(), AllocError>
    ensures { IfOk result (λ _. Adds text.old.items text.new.items (ignoring_texts ignoring)) }
{
    if !ignoring {
        return Ok(());
    }
    word(text, b"ignoring")?;
    word(text, b"nulls")
}

/// What follows the name of a statistic.
fn operands(text: &mut Vec<u8>, given: &[Term], ignored: bool) -> Result<(), AllocError>
    ensures { IfOk result (λ _. Adds text.old.items text.new.items (terms_texts (codes "and") (terms_view given.now) ++ ignoring_texts ignored)) }
{
    terms(text, given)?;
    ignoring(text, ignored)
}

fn statistic(
    text: &mut Vec<u8>,
    stat: Stat,
    given: &[Term],
    ignored: bool,
) -> Result<(), AllocError>
    ensures { IfOk result (λ _. Adds text.old.items text.new.items (operation_text (Local stat) ∷ codes "of" ∷ (terms_texts (codes "and") (terms_view given.now) ++ ignoring_texts ignored))) }
{
    word(text, operation_name(Operation::Local(stat)))?;
    word(text, b"of")?;
    operands(text, given, ignored)
}

fn rating(text: &mut Vec<u8>, name: &[u8], of: &Term, given: &[Rate]) -> Result<(), AllocError>
    ensures { IfOk result (λ _. Adds text.old.items text.new.items (name.now ∷ codes "of" ∷ term_text (term_view of.now) ∷ rates_texts given.now)) }
{
    begin(text, name, of)?;
    rates(text, given)
}

/// The radius of a disc, after `at`.
fn reach(text: &mut Vec<u8>, reach: Reach) -> Result<(), AllocError>
    ensures { IfOk result (λ _. Adds text.old.items text.new.items (radius_texts (reach_view reach))) }
{
    match reach {
        Reach::Square => Ok(()),
        Reach::Disc(radius) => {
            word(text, b"at")?;
            count(text, radius as u64)
        }
    }
}

fn focal(text: &mut Vec<u8>, stat: Stat, of: &Term, given: Reach) -> Result<(), AllocError>
    ensures { IfOk result (λ _. Adds text.old.items text.new.items (operation_text (Focal stat) ∷ codes "of" ∷ term_text (term_view of.now) ∷ radius_texts (reach_view given))) }
{
    begin(text, operation_name(Operation::Focal(stat)), of)?;
    reach(text, given)
}

/// Whether a term is the number 1.
fn is_unit(term: &Term) -> bool
    ensures { result ≡ is_one (term_view term.now) }
{
    match term {
        Term::Layer(_) => false,
        Term::Number(value) => *value == 1,
    }
}

fn spreading(text: &mut Vec<u8>, friction: &Term) -> Result<(), AllocError>
    ensures { IfOk result (λ _. Adds text.old.items text.new.items (codes "spreading" ∷ codes "in" ∷ term_text (term_view friction.now) ∷ [])) }
{
    word(text, b"spreading")?;
    word(text, b"in")?;
    term(text, friction)
}

/// The friction, where it isn't 1.
fn friction(text: &mut Vec<u8>, friction: &Term) -> Result<(), AllocError>
    ensures { IfOk result (λ _. Adds text.old.items text.new.items (friction_texts (term_view friction.now))) }
{
    if is_unit(friction) {
        return Ok(());
    }
    spreading(text, friction)
}

/// The limit, where it isn't the greatest value.
fn limit(text: &mut Vec<u8>, limit: &Value) -> Result<(), AllocError>
    ensures { IfOk result (λ _. Adds text.old.items text.new.items (optional_texts (codes "within") vmax (pos (nat_abs limit.now)))) }
{
    optional_count(text, b"within", VMAX as u64, limit.unsigned_abs() as u64)
}

/// What follows the sources of a spread.
fn costs(text: &mut Vec<u8>, given: &Term, most: &Value) -> Result<(), AllocError>
    ensures { IfOk result (λ _. Adds text.old.items text.new.items (friction_texts (term_view given.now) ++ optional_texts (codes "within") vmax (pos (nat_abs most.now)))) }
{
    friction(text, given)?;
    limit(text, most)
}

fn spread(
    text: &mut Vec<u8>,
    operation: Operation,
    of: &Term,
    given: &Term,
    most: &Value,
) -> Result<(), AllocError>
    ensures { IfOk result (λ _. Adds text.old.items text.new.items (operation_text operation ∷ codes "of" ∷ term_text (term_view of.now) ∷ (friction_texts (term_view given.now) ++ optional_texts (codes "within") vmax (pos (nat_abs most.now))))) }
{
    single(text, operation, of)?;
    costs(text, given, most)
}

/// What of sight is not the default.
fn heights(text: &mut Vec<u8>, from: &Value, to: &Value, reach: u32) -> Result<(), AllocError>
    ensures { IfOk result (λ _. Adds text.old.items text.new.items (sight_texts (record { from = from.now; to = to.now; reach = reach }))) }
{
    optional_number(text, b"from", 0, *from)?;
    optional_number(text, b"to", 0, *to)?;
    optional_count(text, b"within", 64, reach as u64)
}

/// What a sum radiates on.
fn radiating(text: &mut Vec<u8>, surface: &Term) -> Result<(), AllocError>
    ensures { IfOk result (λ _. Adds text.old.items text.new.items (codes "radiating" ∷ codes "on" ∷ term_text (term_view surface.now) ∷ [])) }
{
    word(text, b"radiating")?;
    word(text, b"on")?;
    term(text, surface)
}

/// What follows the first term of a sum that radiates.
fn seen_on(
    text: &mut Vec<u8>,
    surface: &Term,
    from: &Value,
    to: &Value,
    reach: u32,
) -> Result<(), AllocError>
    ensures { IfOk result (λ _. Adds text.old.items text.new.items (codes "radiating" ∷ codes "on" ∷ term_text (term_view surface.now) ∷ sight_texts (record { from = from.now; to = to.now; reach = reach }))) }
{
    radiating(text, surface)?;
    heights(text, from, to, reach)
}

fn sight(
    text: &mut Vec<u8>,
    of: &Term,
    surface: &Term,
    from: &Value,
    to: &Value,
    reach: u32,
) -> Result<(), AllocError>
    ensures { IfOk result (λ _. Adds text.old.items text.new.items (op_texts (sight_op (record { from = from.now; to = to.now; reach = reach }) (term_view of.now) (term_view surface.now)))) }
{
    single(text, Operation::Focal(Stat::Sum), of)?;
    seen_on(text, surface, from, to, reach)
}

/// An operation of one term.
fn single(text: &mut Vec<u8>, operation: Operation, of: &Term) -> Result<(), AllocError>
    ensures { IfOk result (λ _. Adds text.old.items text.new.items (operation_text operation ∷ codes "of" ∷ term_text (term_view of.now) ∷ [])) }
{
    begin(text, operation_name(operation), of)
}

/// An operation of two terms, with a word between.
fn double(
    text: &mut Vec<u8>,
    operation: Operation,
    between: &[u8],
    left: &Term,
    right: &Term,
) -> Result<(), AllocError>
    ensures { IfOk result (λ _. Adds text.old.items text.new.items (operation_text operation ∷ codes "of" ∷ terms_texts between.now (term_view left.now ∷ term_view right.now ∷ []))) }
{
    pair(text, operation_name(operation), between, left, right)
}

fn op(text: &mut Vec<u8>, op: &Op) -> Result<(), AllocError>
    ensures { IfOk result (λ _. Adds text.old.items text.new.items (op_texts (op_view op.now))) }
{
    match op {
        Op::Local {
            stat,
            terms,
            ignoring,
        } => statistic(text, *stat, terms.as_slice(), *ignoring),
        Op::Difference { left, right } => double(text, Operation::Difference, b"and", left, right),
        Op::Ratio { left, right } => double(text, Operation::Ratio, b"and", left, right),
        Op::Rating { of, rates } => {
            let name = operation_name(Operation::Rating);
            rating(text, name, of, rates.as_slice())
        }
        Op::Focal { stat, of, reach } => focal(text, *stat, of, *reach),
        Op::Zonal { stat, of, zones } => {
            double(text, Operation::Zonal(*stat), b"within", of, zones)
        }
        Op::Incremental { form, of } => single(text, Operation::Incremental(*form), of),
        Op::Direction { of } => single(text, Operation::Drainage, of),
        Op::Flow { of, weights } => double(text, Operation::Drainage, b"carrying", of, weights),
        Op::Spread {
            of,
            friction,
            limit,
        } => spread(text, Operation::Proximity, of, friction, limit),
        Op::Neighbor {
            of,
            friction,
            limit,
        } => spread(text, Operation::Neighbor, of, friction, limit),
        Op::Sight {
            of,
            surface,
            from,
            to,
            reach,
        } => sight(text, of, surface, from, to, *reach),
        Op::Region { of } => single(text, Operation::Insularity, of),
    }
}

/// Appends bytes, with no space before them.
pub fn glued(text: &mut Vec<u8>, bytes: &[u8]) -> Result<(), AllocError>
    ensures { IfOk result (λ _. Grows text.old.items text.new.items bytes.now) }
{
    text.extend_from_slice(bytes)?;
    Ok(())
}

fn glued_number(text: &mut Vec<u8>, value: Value) -> Result<(), AllocError>
    ensures { IfOk result (λ _. Grows text.old.items text.new.items (signed_decimal value)) }
{
    let mut buffer = Buffer::new();
    glued(text, buffer.format(value).as_bytes())
}

fn glued_term(text: &mut Vec<u8>, term: &Term) -> Result<(), AllocError>
    ensures { IfOk result (λ _. Grows text.old.items text.new.items (term_text (term_view term.now))) }
{
    match term {
        Term::Layer(name) => glued(text, name.bytes()),
        Term::Number(value) => glued_number(text, *value),
    }
}

/// Terms, with a comma before each.
fn comma_terms(text: &mut Vec<u8>, terms: &[Term]) -> Result<(), AllocError>
    ensures { IfOk result (λ _. Grows text.old.items text.new.items (listed_after (terms_view terms.now))) }
{
    match terms {
        [] => glued(text, b""),
        [first, rest @ ..] => {
            glued(text, b", ")?;
            glued_term(text, first)?;
            comma_terms(text, rest)
        }
    }
}

/// Terms, with a comma between.
fn list(text: &mut Vec<u8>, terms: &[Term]) -> Result<(), AllocError>
    ensures { IfOk result (λ _. Grows text.old.items text.new.items (listed (terms_view terms.now))) }
{
    match terms {
        [] => glued(text, b""),
        [first, rest @ ..] => {
            glued_term(text, first)?;
            comma_terms(text, rest)
        }
    }
}

fn call(text: &mut Vec<u8>, procedure: &Name, given: &[Term]) -> Result<(), AllocError>
    ensures { IfOk result (λ _. Grows text.old.items text.new.items (tail_text (call procedure.now (terms_view given.now)))) }
{
    word(text, procedure.bytes())?;
    glued(text, b"(")?;
    list(text, given)?;
    glued(text, b")")
}

/// What follows a statement's name and `=`.
pub fn body(text: &mut Vec<u8>, written: &Written) -> Result<(), AllocError>
    ensures { IfOk result (λ _. Grows text.old.items text.new.items (tail_text (written_view written.now))) }
{
    match written {
        Written::Plain(plain) => op(text, plain),
        Written::Call { procedure, given } => call(text, procedure, given.as_slice()),
    }
}

fn canonical(alloc: Global, name: &Name, written: &Written) -> Result<Vec<u8>, AllocError>
    ensures { IfOk result (λ text. text.items ≡ written_text name.now (written_view written.now)) }
{
    let mut text = Vec::from_slice(alloc, name.bytes())?;
    glued(&mut text, b" =")?;
    body(&mut text, written)?;
    Ok(text)
}

/// The canonical text of a statement, which reads back as the same statement where its rows are there and it is no longer
/// than a line.
pub fn print_written(alloc: Global, name: &Name, written: &Written) -> Result<Vec<u8>, NoMemory>
    ensures canonical { IfOk result (λ text. text.items ≡ written_text name.now (written_view written.now)) }
    ensures reads { IfOk result (λ text. ReadsBack name.now (written_view written.now) text.items) }
{
    let text = canonical(alloc, name, written)?;
    Ok(text)
}
