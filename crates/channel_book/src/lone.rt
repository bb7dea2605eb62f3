//! One member who is alone in a channel.

ghost use Rattle.std.specs.Prelude.{◌≡◌, IfOk};
ghost use Rattle.line_words.specs.Table.{same_name};

use line_words::NameBuf;
use std::alloc::{AllocError, Global};
use std::marker::Model;

/// The name of one who is alone, and the key beside it. A key of any type is lent as a slice only from a list, so it
/// lies in one; the name lies here.
#[derive(Drop)]
pub struct Lone<M: Copy> {
    name: NameBuf,
    keys: Vec<M>,
}

impl<M: Copy> Model for Lone<M> {
    ghost use Rattle.std.specs.Prelude.{◌≡◌, List, ℕ, length};

    ghost Value = { List ℕ };

    ghost view = { λ l. l.name };

    ghost invariant = { λ l. length l.keys.items ≡ 1 };
}

impl<M: Copy> Lone<M> {
    /// One of this name under a key.
    pub fn new(alloc: Global, name: NameBuf, key: M) -> Result<Lone<M>, AllocError>
        ensures { IfOk result (λ lone. lone ≡ name) }
    {
        let mut keys = Vec::with_capacity(alloc, 1)?;
        keys.push_reserved(key);
        Ok(Lone { name, keys })
    }

    /// The name.
    pub fn name(&self) -> &NameBuf
        ensures { result.now ≡ self.now }
    {
        &self.name
    }

    /// Whether it has this name.
    pub fn has_name(&self, name: &NameBuf) -> bool
        ensures { result ≡ same_name name.now self.now }
    {
        name.cmp(&self.name).is_eq()
    }

    /// The key.
    pub fn key(&self) -> M {
        self.keys[0]
    }

    /// The key as the only one of a list.
    pub fn keys(&self) -> &[M] {
        self.keys.as_slice()
    }
}
