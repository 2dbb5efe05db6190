//! Reading the bytes of a line.

ghost use Rattle.std.specs.Prelude.{◌≡◌, ◌<◌, ◌≤◌, ◌^◌, true, false, None, Some, IfOk};
ghost use Rattle.map_words.specs.Bytes.{first_bad, is_silent as is_silent_text};
ghost use Rattle.map_words.specs.Words.{words_of, AreSlices};
ghost use Rattle.statement_parser.specs.Tails.{line_words};
ghost use Rattle.map_words.specs.Cut.{placed_all};
ghost use Rattle.statement_parser.specs.LineOf.{line_of, IsLineRead};
ghost use Rattle.statement_parser.specs.Texts.{is_short, refusal_of};
ghost use Rattle.statement_parser.specs.Columns.{first_column as first_column_of, column_among};
ghost use Rattle.statement_parser.specs.Formed.{IsFormed};
ghost use Rattle.statement_parser.specs.There.{IsThere};
ghost use Rattle.statement_parser.specs.Parsed.{IsParsed, refusal_view};
ghost use Rattle.statement_parser.specs.Views.{line_view, manner_of};

use crate::fault::ReadError;
use crate::line::Line;
use crate::parsing::parse_words;
use crate::refusal::LineRefusal;
use crate::rows::Rows;
use crate::tails::with_tail;
use grammar_core::{Fault, Kind};
use map_words::{Word, WordRefusal, is_silent, words};
use std::alloc::Global;

/// The greatest number of bytes of a line.
const LONGEST: usize = 4096;

/// The column of the first word, or the one after the line's last byte.
fn first_column(len: usize, words: &[Word<'_>]) -> u32
    requires { len ≤ 4096 }
    ensures { result ≡ first_column_of len (placed_all words.now) }
{
    match words {
        [first, ..] => first.at,
        [] => len as u32 + 1,
    }
}

/// The column of the first of the last `left` words, or the one after the line's last byte.
fn column(len: usize, words: &[Word<'_>], left: usize) -> u32
    requires { len ≤ 4096 }
    ensures { result ≡ column_among len (placed_all words.now) left }
{
    let skipped = words.len().saturating_sub(left);
    first_column(len, &words[skipped..])
}

/// The refusal of a fault.
fn refusal(len: usize, words: &[Word<'_>], fault: Fault) -> LineRefusal
    requires { len ≤ 4096 }
    ensures { refusal_view result ≡ Some (refusal_of fault.kind (column_among len (placed_all words.now) fault.left)) }
{
    let at = column(len, words, fault.left);
    match fault.kind {
        Kind::Syntax => LineRefusal::Syntax(at),
        Kind::Operation => LineRefusal::Operation(at),
        Kind::Number => LineRefusal::Number(at),
    }
}

/// The line that these words of it are.
fn of_words(
    alloc: Global,
    rows: &Rows<'_>,
    line: &[u8],
    words: &[Word<'_>],
) -> Result<Line, LineRefusal>
    requires short { is_short line.now ≡ true }
    requires spoken { is_silent_text line.now ≡ false }
    requires good { first_bad line.now ≡ None }
    requires words { placed_all words.now ≡ line_words line.now }
    ensures { IsParsed (manner_of rows.now) line_view line.now result }
{
    match parse_words(alloc, rows, words) {
        Ok(read) => Ok(read),
        Err(ReadError::NoMemory) => Err(LineRefusal::NoMemory),
        Err(ReadError::Fault(fault)) => Err(refusal(line.len(), words, fault)),
    }
}

/// The line that these words of it are, each as those of any line.
fn of_cut(
    alloc: Global,
    rows: &Rows<'_>,
    line: &[u8],
    words: Vec<Word<'_>>,
) -> Result<Line, LineRefusal>
    requires short { is_short line.now ≡ true }
    requires spoken { is_silent_text line.now ≡ false }
    requires good { first_bad line.now ≡ None }
    requires words { placed_all words.items ≡ words_of line.now }
    requires slices { AreSlices line.now 1 (placed_all words.items) }
    ensures { IsParsed (manner_of rows.now) line_view line.now result }
{
    match with_tail(line, words) {
        Ok(words) => of_words(alloc, rows, line, words.as_slice()),
        Err(_) => Err(LineRefusal::NoMemory),
    }
}

/// The line that bytes are.
fn read_line(alloc: Global, rows: &Rows<'_>, line: &[u8]) -> Result<Line, LineRefusal>
    ensures { IsParsed (manner_of rows.now) line_view line.now result }
{
    if line.len() > LONGEST {
        return Err(LineRefusal::Long(line.len() as u64));
    }
    if is_silent(line) {
        return Ok(Line::Blank);
    }
    match words(alloc, line) {
        Ok(words) => of_cut(alloc, rows, line, words),
        Err(WordRefusal::Byte(at)) => Err(LineRefusal::Syntax(at)),
        Err(WordRefusal::NoMemory) => Err(LineRefusal::NoMemory),
    }
}

/// The line that bytes are, without their line end, or their first fault; by the rows that are there.
pub fn parse_line(alloc: Global, rows: &Rows<'_>, line: &[u8]) -> Result<Line, LineRefusal>
    ensures parsed { IsParsed (manner_of rows.now) line_view line.now result }
    ensures read { IsLineRead (line_of (manner_of rows.now) line.now) line_view result }
    ensures formed { IfOk result (λ x. IsFormed (line_view x)) }
    ensures there { IfOk result (λ x. IsThere (manner_of rows.now) (line_view x)) }
{
    read_line(alloc, rows, line)
}
