//! Which names terms may have.

ghost use Rattle.std.specs.Prelude.{◌≡◌};
ghost use Rattle.std.specs.Prelude.{bytes_eq};
ghost use Rattle.std.specs.List.{list_any};
ghost use Rattle.statement_parser.specs.Scopes.{has_name, names_before};
ghost use Rattle.statement_parser.specs.ScopeViews.{scope_of};
ghost use Rattle.statement_parser.specs.Views.{body_view};

use crate::line::Written;
use map_words::Name;

/// Where a statement stands, which tells the names that its terms may have.
#[derive(Clone, Copy, Debug)]
pub enum Scope<'s> {
    /// In a line of its own: any plain name.
    Anywhere,
    /// In a procedure: its parameters, and the names of the statements before.
    Procedure {
        takes: &'s [Name],
        before: &'s [(Name, Written)],
    },
}

/// Whether one of these names has this text.
fn is_among(names: &[Name], text: &[u8]) -> bool
    ensures { result ≡ has_name names.now text.now }
{
    names.iter().any(|name| name.bytes() == text)
}

/// Whether one of these statements has this name.
fn is_named(body: &[(Name, Written)], text: &[u8]) -> bool
    ensures { result ≡ list_any (λ i. bytes_eq i.0 text.now) body.now }
{
    body.iter().any(|inner| inner.0.bytes() == text)
}

/// Whether the name is a parameter or that of a statement before.
pub fn stands_before(takes: &[Name], before: &[(Name, Written)], text: &[u8]) -> bool
    ensures { result ≡ has_name (names_before takes.now (body_view before.now)) text.now }
{
    if is_among(takes, text) {
        return true;
    }
    is_named(before, text)
}

impl Scope<'_> {
    /// Whether a term may have this plain name.
    pub fn holds(&self, text: &[u8]) -> bool
        ensures { result ≡ scope_of self.now text.now }
    {
        match self {
            Scope::Anywhere => true,
            Scope::Procedure { takes, before } => stands_before(takes, before, text),
        }
    }
}
