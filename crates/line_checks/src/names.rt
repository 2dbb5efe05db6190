//! Words of a line with their columns, names and numbers.
ghost use Rattle.std.specs.Prelude.{◌<◌, ◌^◌, length};

use map_words::{Name, WordRefusal, is_number, number_in, words};
use std::alloc::Global;
use std::process::Abort;
use std::test::Fail;

/// How many words a line has; none where it is refused.
fn count(alloc: Global, line: &[u8]) -> Option<usize>
    requires { length line.now < 2 ^ 32 }
{
    Some(words(alloc, line).ok()?.len())
}

/// A word of a line has this text and this column.
fn has_word(
    rt: &(impl AllocGlobal + Abort),
    line: &[u8],
    k: usize,
    text: &[u8],
    at: u32,
) -> Result<(), Fail>
    requires { length line.now < 2 ^ 32 }
{
    let found = words(rt.alloc(), line)?;
    let word = found.get(k).ok_or("no word")?;
    assert_eq!(rt; word.text, text);
    assert_eq!(rt; word.at, at);
    Ok(())
}

#[test]
fn words_have_columns(rt: HostRuntime) -> Result<(), Fail> {
    assert_eq!(rt; count(rt.alloc(), b" C =Twice(A,\t-3) "), Some(8));
    has_word(&rt, b" C =Twice(A,\t-3) ", 2, b"Twice", 5)?;
    has_word(&rt, b" C =Twice(A,\t-3) ", 6, b"-3", 14)
}

/// Why a line has no words.
fn refusal(alloc: Global, line: &[u8]) -> Option<WordRefusal>
    requires { length line.now < 2 ^ 32 }
{
    words(alloc, line).err()
}

#[test]
fn bad_byte_is_told(rt: HostRuntime) {
    assert_eq!(rt;
        refusal(rt.alloc(), b"A \x7F\x80"),
        Some(WordRefusal::Byte(3))
    );
}

#[test]
fn names_are_their_bytes(rt: HostRuntime) -> Result<(), Fail> {
    let outer = Name::plain(rt.alloc(), b"B")?;
    let inner = Name::result(rt.alloc())?;
    let again = outer.copy(rt.alloc())?;
    let joined = outer.join(rt.alloc(), &inner)?;
    assert_eq!(rt; outer.bytes(), b"B".as_slice());
    assert_eq!(rt; joined.bytes(), b"B.result".as_slice());
    let holds = [
        Name::plain(rt.alloc(), b"paint").is_err(),
        Name::dotted(rt.alloc(), b"B.paint").is_err(),
        again == outer,
        outer < inner,
        joined == Name::dotted(rt.alloc(), b"B.result")?,
        outer < joined,
    ];
    assert_eq!(rt; holds, [true; 6]);
    Ok(())
}

/// A text is this number between two others.
fn reads(rt: &impl Abort, least: i64, most: i64, text: &[u8], want: Option<i64>) {
    assert_eq!(rt; number_in(least, most, text), want, "{text:?}");
}

/// A text has the form of a number, or not.
fn has_form(rt: &impl Abort, text: &[u8], want: bool) {
    assert_eq!(rt; is_number(text), want, "{text:?}");
}

#[test]
fn numbers_have_signs(rt: HostRuntime) {
    reads(&rt, -9, 9, b"-007", Some(-7));
    reads(&rt, -9, 9, b"+9", Some(9));
    reads(&rt, i64::MIN, i64::MAX, b"99999999999999999999999", None);
    has_form(&rt, b"-99999999999999999999999", true);
    has_form(&rt, b"-", false);
}
