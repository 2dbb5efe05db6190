//! Reading a header.
ghost use Rattle.std.specs.Prelude.{◌≡◌, ◌<◌, ◌≤◌, ◌+◌, ◌∷◌, true, length, IfOk, IfSome, MatchOption};
ghost use Rattle.grid_text.specs.Heads.{new_key, pairs_in, head_in};
ghost use Rattle.grid_text.specs.Keys.{begins_with_letter, nothing};
ghost use Rattle.grid_text.specs.Pairs.{BeginsNoPair};
ghost use Rattle.grid_text.specs.Places.{tokens_left, token_of, pair_in};
ghost use Rattle.grid_text.specs.Reads.{Gives, head_of};
ghost use Rattle.grid_text.specs.Tokens.{tokens_of};

use crate::found::Found;
use crate::keys::{Key, begins_with_letter, key_of};
use crate::tokens::{Token, byte_number, next_token};
use crate::{GridRefusal, Header};
use std::alloc::Global;

/// The number that stands for null where no key says which.
const DEFAULT_NULL: i64 = -9999;

/// What is found in the pairs that stand first, and where the text goes on after them.
#[derive(Drop)]
pub(crate) struct Pairs {
    pub(crate) found: Found,
    pub(crate) next: usize,
}

/// A whole header, with the numbers of rows and columns, and the number that stands for null.
#[derive(Drop)]
pub(crate) struct Head {
    pub(crate) header: Header,
    pub(crate) rows: u64,
    pub(crate) columns: u64,
    pub(crate) null: i64,
}

// The next token where it stands in a key's place and begins with a letter.
fn next_name(bytes: &[u8], from: usize) -> Option<Token<'_>>
    requires { from ≤ length bytes.now }
    ensures pair { MatchOption result (BeginsNoPair (tokens_left bytes.now from)) (λ t. (tokens_left bytes.now from ≡ token_of t ∷ tokens_left bytes.now t.next) × (begins_with_letter t.text.now ≡ true)) }
    ensures begins { IfSome result (λ t. t.at < length bytes.now) }
    ensures goes_on { IfSome result (λ t. from < t.next) }
    ensures within { IfSome result (λ t. t.next ≤ length bytes.now) }
{
    let token = next_token(bytes, from)?;
    if !begins_with_letter(token.text) {
        return None;
    }
    Some(token)
}

// The key that a name is, which must not be there yet.
fn new_key(found: &Found, name: &Token<'_>) -> Result<Key, GridRefusal>
    requires { name.now.at < usize.MAX }
    ensures { Gives (λ k. k) result (new_key found.now (token_of name.now)) }
{
    let Some(key) = key_of(name.text) else {
        return Err(GridRefusal::Key(byte_number(name.at)));
    };
    if found.is_there(key) {
        return Err(GridRefusal::Key(byte_number(name.at)));
    }
    Ok(key)
}

// The pair that begins with a name.
fn read_pair(
    alloc: Global,
    bytes: &[u8],
    found: Found,
    name: Token<'_>,
) -> Result<Pairs, GridRefusal>
    requires begins { name.at < length bytes.now }
    requires within { name.next ≤ length bytes.now }
    ensures pair { Gives (λ p. (p.found, tokens_left bytes.now p.next)) result (pair_in (length bytes.now + 1) found (token_of name.entry) (tokens_left bytes.now name.entry.next)) }
    ensures goes_on { IfOk result (λ p. name.entry.next ≤ p.next) }
    ensures within { IfOk result (λ p. p.next ≤ length bytes.now) }
{
    let key = new_key(&found, &name)?;
    let Some(value) = next_token(bytes, name.next) else {
        return Err(GridRefusal::Number(byte_number(bytes.len())));
    };
    let Some(found) = found.with_value(alloc, key, value.text)? else {
        return Err(GridRefusal::Number(byte_number(value.at)));
    };
    Ok(Pairs {
        found,
        next: value.next,
    })
}

/// The pairs that stand first.
pub(crate) fn read_pairs(alloc: Global, bytes: &[u8]) -> Result<Pairs, GridRefusal>
    ensures pairs { Gives (λ p. (p.found, tokens_left bytes.now p.next)) result (pairs_in (length bytes.now + 1) nothing (tokens_of bytes.now)) }
    ensures within { IfOk result (λ p. p.next ≤ length bytes.now) }
{
    let mut found = Found::nothing();
    let mut next = 0;
    while let Some(name) = next_name(bytes, next) {
        let pair = read_pair(alloc, bytes, found, name)?;
        found = pair.found;
        next = pair.next;
    }
    Ok(Pairs { found, next })
}

/// The header of what is found, where no key that is needed is missing: else that is the fault of the byte.
pub(crate) fn read_head(end: u64, found: Found) -> Result<Head, GridRefusal>
    ensures { Gives head_of result (head_in end found) }
{
    let columns = found.columns.ok_or(GridRefusal::Key(end))?;
    let rows = found.rows.ok_or(GridRefusal::Key(end))?;
    let x = found.x.ok_or(GridRefusal::Key(end))?;
    let y = found.y.ok_or(GridRefusal::Key(end))?;
    let size = found.size.ok_or(GridRefusal::Key(end))?;
    Ok(Head {
        header: Header { x, y, size },
        rows,
        columns,
        null: found.null.unwrap_or(DEFAULT_NULL),
    })
}
