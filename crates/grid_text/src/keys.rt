//! The keys of a header.
ghost use Rattle.std.specs.Prelude.{◌≡◌};
ghost use Rattle.grid_text.specs.Keys.{key_of, begins_with_letter};

/// What a key stands for. The two x keys count as one, and so do the two y keys: true where the center of a cell is meant.
#[derive(Clone, Copy)]
pub(crate) enum Key {
    Columns,
    Rows,
    X(bool),
    Y(bool),
    Size,
    Null,
}

/// The key that a token is, in any letter case.
pub(crate) fn key_of(token: &[u8]) -> Option<Key>
    ensures { result ≡ key_of token.now }
{
    if token.eq_ignore_ascii_case(b"ncols") {
        return Some(Key::Columns);
    }
    if token.eq_ignore_ascii_case(b"nrows") {
        return Some(Key::Rows);
    }
    if token.eq_ignore_ascii_case(b"xllcorner") {
        return Some(Key::X(false));
    }
    if token.eq_ignore_ascii_case(b"xllcenter") {
        return Some(Key::X(true));
    }
    if token.eq_ignore_ascii_case(b"yllcorner") {
        return Some(Key::Y(false));
    }
    if token.eq_ignore_ascii_case(b"yllcenter") {
        return Some(Key::Y(true));
    }
    if token.eq_ignore_ascii_case(b"cellsize") {
        return Some(Key::Size);
    }
    if token.eq_ignore_ascii_case(b"NODATA_value") {
        return Some(Key::Null);
    }
    None
}

/// Whether a token that stands in a key's place is one.
pub(crate) fn begins_with_letter(token: &[u8]) -> bool
    ensures { result ≡ begins_with_letter token.now }
{
    match token {
        [] => false,
        [first, ..] => first.is_ascii_alphabetic(),
    }
}
