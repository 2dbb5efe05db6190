//! The name of a layer, a statement or a procedure.

ghost use Rattle.std.specs.Prelude.{◌≡◌, ◌≢◌, ◌+◌, ◌≤◌, ◌++◌, ◌∷◌, length, IsTrue, IfOk, codes, Some};
ghost use Rattle.std.specs.Cmp as laws;
ghost use Rattle.std.specs.Cmp.Lexicographic.{slice_cmp, nat_list_eq_equiv, nat_list_cmp_total, texts_po, texts_ties};
ghost use Rattle.std.specs.Ordering.{nat_cmp};
ghost use Rattle.std.specs.Prelude.{bytes_eq, refl};
ghost use Rattle.std.specs.Hash as fed;
ghost use Rattle.std.proofs.Common.{rules};
ghost use Rattle.std.specs.Cmp.Rules.{hashing};
ghost use Rattle.map_words.specs.Names.{is_plain as is_plain_text, is_dotted as is_dotted_text, is_name};
ghost use Rattle.map_words.specs.Named.{IsNamed};

use crate::naming::{NameRefusal, is_dotted, is_plain};
use map_nums::NoMemory;
use std::alloc::{AllocError, Global};
use std::cmp::Ordering;
use std::hash::{Hash, Hasher};
use std::marker::Model;

/// The two texts with a dot between.
fn dotted_bytes(alloc: Global, outer: &[u8], inner: &[u8]) -> Result<Vec<u8>, AllocError>
    ensures { IfOk result (λ bytes. bytes.items ≡ outer.now ++ 46 ∷ inner.now) }
{
    let mut bytes = Vec::from_slice(alloc, outer)?;
    bytes.push(b'.')?;
    bytes.extend_from_slice(inner)?;
    Ok(bytes)
}

/// A plain name, a dotted name, or the name `result`, seen as its bytes.
#[derive(Debug, Drop)]
pub struct Name {
    bytes: Vec<u8>,
}

impl Model for Name {
    ghost use Rattle.std.specs.Prelude.{List, ℕ, IsTrue};
    ghost use Rattle.map_words.specs.Names.{is_name};

    ghost Value = { List ℕ };

    ghost view = { λ n. n.bytes.items };

    ghost invariant = { λ n. IsTrue (is_name n.bytes.items) };
}

impl Name {
    /// A plain name; `Form` exactly where the text is none.
    pub fn plain(alloc: Global, text: &[u8]) -> Result<Name, NameRefusal>
        ensures { IsNamed (is_plain_text text.now) text.now result }
    {
        if !is_plain(text) {
            return Err(NameRefusal::Form);
        }
        let bytes = Vec::from_slice(alloc, text)?;
        Ok(Name { bytes })
    }

    /// A dotted name; `Form` exactly where the text is none.
    pub fn dotted(alloc: Global, text: &[u8]) -> Result<Name, NameRefusal>
        ensures { IsNamed (is_dotted_text text.now) text.now result }
    {
        if !is_dotted(text) {
            return Err(NameRefusal::Form);
        }
        let bytes = Vec::from_slice(alloc, text)?;
        Ok(Name { bytes })
    }

    /// The name `result` of a procedure's last statement.
    pub fn result(alloc: Global) -> Result<Name, NoMemory>
        ensures { IfOk result (λ n. n ≡ codes "result") }
    {
        let bytes = Vec::from_slice(alloc, b"result")?;
        Ok(Name { bytes })
    }

    /// The bytes of the name.
    pub fn bytes(&self) -> &[u8]
        ensures value { result.now ≡ self.now }
        ensures name { IsTrue (is_name self.now) }
    {
        self.bytes.as_slice()
    }

    pub fn copy(&self, alloc: Global) -> Result<Name, NoMemory>
        ensures { IfOk result (λ n. n ≡ self.now) }
    {
        let bytes = Vec::from_slice(alloc, self.bytes.as_slice())?;
        Ok(Name { bytes })
    }

    /// The two names with a dot between.
    pub fn join(&self, alloc: Global, inner: &Name) -> Result<Name, NoMemory>
        requires outer { self.now ≢ codes "result" }
        requires short { length self.now + 1 + length inner.now ≤ 1100 }
        ensures { IfOk result (λ n. n ≡ self.now ++ 46 ∷ inner.now) }
    {
        let bytes = dotted_bytes(alloc, self.bytes(), inner.bytes())?;
        Ok(Name { bytes })
    }
}

impl PartialEq for Name {
    ghost eq = { bytes_eq };

    ghost laws = { laws.partial_equiv_from_equiv nat_list_eq_equiv };

    fn eq(&self, other: &Name) -> bool {
        self.bytes.as_slice() == other.bytes.as_slice()
    }
}

impl Eq for Name {
    ghost laws = { nat_list_eq_equiv };
}

impl PartialOrd for Name {
    ghost partial_cmp = { λ x y. Some (slice_cmp nat_cmp x y) };

    ghost laws = { texts_po };

    fn partial_cmp(&self, other: &Name) -> Option<Ordering> {
        Some(self.cmp(other))
    }
}

impl Ord for Name {
    ghost cmp = { slice_cmp nat_cmp };

    ghost total = { nat_list_cmp_total };

    ghost matches_partial_cmp = { λ x y. refl };

    ghost matches_eq = { texts_ties };

    fn cmp(&self, other: &Name) -> Ordering {
        self.bytes.as_slice().cmp(other.bytes.as_slice())
    }
}

impl Hash for Name {
    ghost hash_input = { λ n. fed.slice fed.u8 n };

    ghost respects_eq = { Prim.search (hashing, rules) };

    fn hash<H: Hasher>(&self, state: &mut H) {
        self.bytes.as_slice().hash(state);
    }
}
