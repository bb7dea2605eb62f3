//! Many members of a channel.

ghost use Rattle.std.specs.Prelude.{◌≡◌, [], ◌∷◌, ◌++◌, OnOk, OnErr, false};
ghost use Rattle.std.specs.List.{IsDistinct};
ghost use Rattle.line_words.specs.Table.{same_name, is_among, all_but};

use indexmap::IndexMap;
use line_words::NameBuf;
use std::alloc::{AllocError, Global};
use std::marker::Model;

/// The names of many members, in order of joining, and a key beside each, with an index. A name is found in the
/// same time however many there are.
#[derive(Drop)]
pub struct Many<M: Copy> {
    by_name: IndexMap<NameBuf, M>,
}

impl<M: Copy> Model for Many<M> {
    ghost use Rattle.std.specs.Prelude.{List, ℕ};
    ghost use Rattle.indexmap.specs.IndexMap.{keys};

    ghost Value = { List (List ℕ) };

    ghost view = { λ m. keys m.by_name };
}

impl<M: Copy> Many<M> {
    /// Nobody. It takes no memory yet.
    pub fn new(alloc: Global) -> Many<M>
        ensures { result ≡ [] }
    {
        Many {
            by_name: IndexMap::new(alloc),
        }
    }

    /// The names, in order of joining.
    pub fn as_slice(&self) -> &[NameBuf]
        ensures names { result.now ≡ self.now }
        ensures distinct { IsDistinct same_name result.now }
    {
        self.by_name.keys().as_slice()
    }

    /// The keys, in the order of joining.
    pub fn keys(&self) -> &[M] {
        self.by_name.values().as_slice()
    }

    /// Whether a name is one of them.
    pub fn has_member(&self, name: &NameBuf) -> bool
        ensures { result ≡ is_among name.now self.now }
    {
        self.by_name.contains_key(name)
    }

    /// One more, who is not among them. Where memory is refused, nothing changes.
    pub fn add(&mut self, name: NameBuf, key: M) -> Result<(), AllocError>
        requires { is_among name self.old ≡ false }
        ensures ok { OnOk result (self.new ≡ self.old ++ name ∷ []) }
        ensures err { OnErr result (self.new ≡ self.old) }
    {
        self.by_name.insert(name, key)?;
        Ok(())
    }

    /// Without one.
    pub fn remove(&mut self, name: &NameBuf)
        ensures { self.new ≡ all_but name.now self.old }
    {
        // Its contract says that no name stands twice, which the proof wants of the names as they were.
        let _ = self.by_name.len();
        let _ = self.by_name.shift_remove(name);
    }
}
