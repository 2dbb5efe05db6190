//! The tokens of a text.
ghost use Rattle.std.specs.Prelude.{◌≡◌, ◌<◌, ◌≤◌, ◌+◌, not, [], ◌∷◌, length, IfSome, MatchOption};
ghost use Rattle.std.specs.List.{prefix_len};
ghost use Rattle.grid_text.specs.Tokens.{is_white, first_at};
ghost use Rattle.grid_text.specs.Places.{tokens_left, token_of};

/// A token: its first byte, and where the text goes on after it, both counted from 0.
#[derive(Drop)]
pub(crate) struct Token<'a> {
    pub(crate) at: usize,
    pub(crate) text: &'a [u8],
    pub(crate) next: usize,
}

fn is_white(byte: u8) -> bool
    ensures { result ≡ is_white byte }
{
    byte == b' ' || byte == b'\t' || byte == b'\r' || byte == b'\n'
}

// How many bytes of white space stand first.
fn white_len(bytes: &[u8]) -> usize
    ensures count { result ≡ prefix_len is_white bytes.now }
    ensures within { result ≤ length bytes.now }
{
    bytes.iter().take_while(|byte| is_white(**byte)).count()
}

// How many bytes that are no white space stand first.
fn word_len(bytes: &[u8]) -> usize
    ensures count { result ≡ prefix_len (λ b. not (is_white b)) bytes.now }
    ensures within { result ≤ length bytes.now }
{
    bytes.iter().take_while(|byte| !is_white(**byte)).count()
}

/// The first token from a byte on, none where there is no more.
pub(crate) fn next_token(bytes: &[u8], from: usize) -> Option<Token<'_>>
    requires { from ≤ length bytes.now }
    ensures tokens { MatchOption result (tokens_left bytes.now from ≡ []) (λ t. tokens_left bytes.now from ≡ token_of t ∷ tokens_left bytes.now t.next) }
    ensures begins { IfSome result (λ t. t.at < length bytes.now) }
    ensures goes_on { IfSome result (λ t. from < t.next) }
    ensures within { IfSome result (λ t. t.next ≤ length bytes.now) }
{
    let rest = &bytes[from..];
    let skipped = white_len(rest);
    let word = &rest[skipped..];
    if word.is_empty() {
        return None;
    }
    let len = word_len(word);
    Some(Token {
        at: from + skipped,
        text: &word[..len],
        next: from + skipped + len,
    })
}

/// The number of a byte, counted from 1.
pub(crate) fn byte_number(at: usize) -> u64
    requires { at < usize.MAX }
    ensures { result ≡ at + 1 }
{
    at as u64 + 1
}

/// The number of the byte at which the first token from a byte on begins, or the text ends.
pub(crate) fn next_byte(bytes: &[u8], from: usize) -> u64
    requires { from ≤ length bytes.now }
    ensures { result ≡ first_at (length bytes.now + 1) (tokens_left bytes.now from) }
{
    match next_token(bytes, from) {
        None => byte_number(bytes.len()),
        Some(token) => byte_number(token.at),
    }
}
