//! A list of names with an index.

ghost use Rattle.std.specs.Prelude.{◌≡◌, ◌++◌, ◌∷◌, [], IfOk, IsOk, if◌then◌else◌, is_ok, map, true};
ghost use Rattle.std.specs.List.{list_any};
ghost use Rattle.std.specs.Str.{bytes_eq};
ghost use Rattle.pam_conf.specs.Services.{with_name};
ghost use Rattle.pam_conf.specs.inner.NameList.{HasNames};

use indexmap::IndexSet;
use pam_text::Texts;
use std::alloc::{AllocError, Global};
use std::marker::Model;

/// A list of names with an index, so that a search takes constant time.
#[derive(Drop)]
pub struct NameList {
    names: Texts,
    /// The names, each once.
    known: IndexSet<Vec<u8>>,
}

/// Seen as the names, in their order.
impl Model for NameList {
    ghost use Rattle.std.specs.Prelude.{ℕ, List, map};
    ghost use Rattle.pam_conf.specs.inner.NameList.{HasNames};

    ghost Value = { List (List ℕ) };

    ghost view = { λ n. n.names };

    ghost invariant = { λ n. HasNames (map (λ name. name.items) n.known.keys) n.names };
}

/// Returns these names, each once.
fn known_of(alloc: Global, names: &Texts) -> Result<IndexSet<Vec<u8>>, AllocError>
    ensures { IfOk result (λ known. HasNames (map (λ name. name.items) known.keys) names.now) }
{
    let mut known = IndexSet::new(alloc);
    for name in names.iter() {
        known.insert(Vec::from_slice(alloc, name)?)?;
    }
    Ok(known)
}

impl NameList {
    /// Returns an empty list. Does not allocate.
    pub fn new(alloc: Global) -> NameList
        ensures { result ≡ [] }
    {
        NameList {
            names: Texts::new(alloc),
            known: IndexSet::new(alloc),
        }
    }

    /// Returns a list of these names.
    pub fn of(alloc: Global, names: Texts) -> Result<NameList, AllocError>
        ensures { IfOk result (λ list. list ≡ names) }
    {
        let known = known_of(alloc, &names)?;
        Ok(NameList { names, known })
    }

    /// Returns the names.
    pub fn names(&self) -> &Texts
        ensures { result.now ≡ self.now }
    {
        &self.names
    }

    /// Returns the names without their index.
    pub fn into_names(self) -> Texts
        ensures { result ≡ self }
    {
        self.names
    }

    /// Whether a name is among these.
    pub fn has(&self, name: &[u8]) -> bool
        ensures { result ≡ list_any (bytes_eq name.now) self.now }
    {
        self.known.contains(name)
    }

    /// Appends a name.
    fn push(&mut self, alloc: Global, name: &[u8]) -> Result<(), AllocError>
        ensures { self.new ≡ (if is_ok result then self.old ++ name.now ∷ [] else self.old) }
    {
        let copy = Vec::from_slice(alloc, name)?;
        // With this room the last call succeeds, so that a name is never in one of the two alone.
        self.known.reserve(1)?;
        self.names.push(name)?;
        self.known.insert(copy)?;
        Ok(())
    }

    /// Appends a name, unless it is there already, which takes no memory. If an allocation fails, the names are unchanged.
    pub fn add(&mut self, alloc: Global, name: &[u8]) -> Result<(), AllocError>
        ensures there { list_any (bytes_eq name.now) self.old ≡ true → IsOk result }
        ensures names { self.new ≡ (if is_ok result then with_name self.old name.now else self.old) }
    {
        if self.has(name) {
            return Ok(());
        }
        self.push(alloc, name)
    }
}
