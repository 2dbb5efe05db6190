//! Readers of one byte.

ghost use Rattle.std.specs.Prelude.{◌≡◌, false};
ghost use Rattle.map_words.specs.Bytes.{is_good};
ghost use Rattle.grammar_core.specs.Readers.{one_at, starts};
ghost use Rattle.statement_parser.specs.Gives.{Gives};
ghost use Rattle.statement_parser.specs.Places.{reading};
ghost use Rattle.statement_parser.specs.Signs.{is_sign as is_sign_byte, byte_of, sign_of};
ghost use Rattle.statement_parser.specs.Views.{texts_of};

use crate::fault::ReadError;
use crate::places::misfit;
use map_words::Word;

/// Whether a byte may stand in a text.
fn is_printed(byte: u8) -> bool
    ensures { result ≡ is_good byte }
{
    byte == b'\t' || (b' ' <= byte && byte <= b'~')
}

fn is_sign(byte: u8) -> bool
    ensures { result ≡ is_sign_byte byte }
{
    b'!' <= byte && byte <= b'~'
}

fn byte_word(text: &[u8]) -> Option<u8>
    ensures { result ≡ byte_of text.now }
{
    match text {
        [] | [_, _, ..] => None,
        [byte] => if is_printed(*byte) { Some(*byte) } else { None },
    }
}

fn sign_word(text: &[u8]) -> Option<u8>
    ensures { result ≡ sign_of text.now }
{
    match text {
        [] | [_, _, ..] => None,
        [byte] => if is_sign(*byte) { Some(*byte) } else { None },
    }
}

/// A byte of a text.
pub fn byte<'t, 'a>(words: &'t [Word<'a>]) -> Result<(u8, &'t [Word<'a>]), ReadError>
    ensures { Gives (λ x. (x.0, texts_of x.1.now)) result (one_at reading byte_of false (texts_of words.now)) }
{
    match words {
        [] => Err(ReadError::Fault(misfit(false, words))),
        [first, rest @ ..] => match byte_word(first.text) {
            Some(byte) => Ok((byte, rest)),
            None => Err(ReadError::Fault(misfit(false, words))),
        },
    }
}

/// A printed byte that is no space.
pub fn sign<'t, 'a>(words: &'t [Word<'a>]) -> Result<(u8, &'t [Word<'a>]), ReadError>
    ensures { Gives (λ x. (x.0, texts_of x.1.now)) result (one_at reading sign_of false (texts_of words.now)) }
{
    match words {
        [] => Err(ReadError::Fault(misfit(false, words))),
        [first, rest @ ..] => match sign_word(first.text) {
            Some(sign) => Ok((sign, rest)),
            None => Err(ReadError::Fault(misfit(false, words))),
        },
    }
}

/// Whether the next word is a byte of a text.
pub fn is_byte_next(words: &[Word<'_>]) -> bool
    ensures { result ≡ starts byte_of (texts_of words.now) }
{
    match words {
        [] => false,
        [first, ..] => byte_word(first.text).is_some(),
    }
}
