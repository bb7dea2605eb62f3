//! Which account has a name first.

ghost use Rattle.std.specs.Prelude.{◌≡◌, [], OnOk};
ghost use Rattle.account_faults.specs.Names.{noted, place_of};

use indexmap::IndexMap;
use std::alloc::{AllocError, Global};
use std::marker::Model;

/// The names of accounts, each with the number of the first account that has it. A look-up takes the same time however
/// many there are.
pub struct Names {
    alloc: Global,
    places: IndexMap<Vec<u8>, usize>,
}

impl Drop for Names {
    fn drop(self) {
        let Names { alloc: _, places } = self;
        drop(places);
    }
}

impl Model for Names {
    ghost use Rattle.account_faults.specs.Names.{Names as Seen};
    ghost use Rattle.std.specs.Prelude.{map};

    ghost Value = { Seen };

    ghost view = { λ n. map (λ entry. (entry.0.items, entry.1)) n.places.entries };
}

impl Names {
    /// No names yet. They take no memory.
    pub fn new(alloc: Global) -> Names
        ensures { result ≡ [] }
    {
        Names {
            alloc,
            places: IndexMap::new(alloc),
        }
    }

    /// The number of the first account that has a name.
    pub fn place_of(&self, name: &[u8]) -> Option<usize>
        ensures { result ≡ place_of name.now self.now }
    {
        self.places.get(name).copied()
    }

    /// Notes the name of the account with this number, if none before has it.
    pub fn note(&mut self, name: &[u8], place: usize) -> Result<(), AllocError>
        ensures { OnOk result (self.new ≡ noted name.now place self.old) }
    {
        if self.place_of(name).is_some() {
            return Ok(());
        }
        let name = Vec::from_slice(self.alloc, name)?;
        if self.places.insert(name, place).is_err() {
            return Err(AllocError);
        }
        Ok(())
    }
}
