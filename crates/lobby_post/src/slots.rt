//! The slots of all clients, by the clients' numbers.

ghost use Rattle.std.specs.Prelude.{◌≡◌, [], length, map, Some, None, is_some, true, ◌↔◌, OnOk, OnErr, IfSome};
ghost use Rattle.std.specs.Prelude.{option_copied};
ghost use Rattle.std.specs.Option.{option_copied_mut, option_map};
ghost use Rattle.std.specs.Ordering.{nat_cmp};
ghost use Rattle.std.specs.List.Sorted.{IsStrictlySortedBy};
ghost use Rattle.std.specs.Borrow.{sem};
ghost use Rattle.std.specs.BTreeMap.{is_at, insert_entry};
ghost use Rattle.std.specs.Map.{lookup, remove_entry};
ghost use Rattle.line_words.specs.Table.{ByNumber};
ghost use Rattle.lobby_post.specs.Mail.{Mailbox};

use crate::key::ClientKey;
use crate::near::Near;
use crate::slot::Slot;
use slab::Slab;
use std::alloc::{AllocError, Global};
use std::collections::BTreeMap;
use std::marker::Model;

/// A slot, and the number of the client whose it is.
#[derive(Drop)]
struct Cell {
    client: u64,
    slot: Slot,
}

/// The slots of the clients that are there, by their clients' numbers.
///
/// A client stays in its slot as long as it is there, so that one who has its key reaches it without a
/// search. A stale slot of a key costs a search, and no more.
#[derive(Drop)]
pub struct Slots {
    cells: Slab<Cell>,
    index: BTreeMap<u64, usize>,
    near: Near,
}

impl Model for Slots {
    ghost use Rattle.line_words.specs.Table.{ByNumber};
    ghost use Rattle.lobby_post.specs.Mail.{Mailbox};

    ghost Value = { ByNumber Mailbox };

    ghost use Rattle.lobby_post.specs.Cells.{held_by, AreTied};

    ghost view = { λ s. held_by s.cells s.index.entries };

    ghost invariant = { λ s. AreTied s.cells s.index.entries };
}

impl Slots {
    ghost use Rattle.lobby_post.specs.Dirty.{listings_of, stands};
    ghost use Rattle.lobby_post.specs.Lending.{lends_slot};
    ghost use Rattle.slab.specs.Slab.{get};
    ghost use Rattle.lobby_post.specs.Cells.{owner, AreTied};

    /// Whether a client is in this slot.
    fn is_in(cells: &Slab<Cell>, client: u64, slot: usize) -> bool
        ensures { (result ≡ true) ↔ (owner (get cells.now slot) ≡ Some client) }
    {
        match cells.get(slot) {
            Some(cell) => cell.client == client,
            None => false,
        }
    }

    /// The slot of a client, looked for in a likely one before the index is searched.
    fn slot_near(
        cells: &Slab<Cell>,
        index: &BTreeMap<u64, usize>,
        client: u64,
        likely: usize,
    ) -> Option<usize>
        requires { AreTied cells.now index.now.entries }
        ensures { result ≡ lookup (is_at (nat_cmp client)) index.now.entries }
    {
        if Slots::is_in(cells, client, likely) {
            Some(likely)
        } else {
            Slots::search(index, client)
        }
    }

    /// The slot of a client, by the index. It stands apart, since a likely slot is nearly always the one.
    #[cold]
    #[inline(never)]
    fn search(index: &BTreeMap<u64, usize>, client: u64) -> Option<usize>
        ensures { result ≡ lookup (is_at (nat_cmp client)) index.now.entries }
    {
        index.get(&client).copied()
    }

    /// No client.
    pub fn new(alloc: Global) -> Slots
        ensures { result ≡ [] }
    {
        Slots {
            cells: Slab::new(alloc),
            index: BTreeMap::new(alloc),
            near: Near::new(alloc),
        }
    }

    /// How many clients are there.
    pub fn len(&self) -> usize
        ensures { result ≡ length self.now }
    {
        self.index.len()
    }

    /// Whether a client is there.
    pub fn contains(&self, client: u64) -> bool
        ensures { result ≡ is_some (lookup (is_at (nat_cmp client)) self.now) }
    {
        self.index.contains_key(&client)
    }

    /// The worker of a client that is there, and whether it stands in that worker's list.
    pub fn listing_of(&self, client: u64) -> Option<(u8, bool)>
        ensures { result ≡ option_map (λ held.
            (held.client.home, held.listed)) (lookup (is_at (nat_cmp client)) self.now) }
    {
        match self.get(client) {
            Some(slot) => Some((slot.home(), slot.is_listed())),
            None => None,
        }
    }

    /// Whether a client is there and served by this worker.
    pub fn is_of(&self, client: u64, home: u8) -> bool
        ensures { result ≡ stands (listings_of self.now) home client }
    {
        match self.get(client) {
            Some(slot) => slot.home() == home,
            None => false,
        }
    }

    /// A client's slot.
    pub fn get(&self, client: u64) -> Option<&Slot>
        ensures value { option_copied result ≡ lookup (is_at (nat_cmp client)) self.now }
    {
        let likely = self.near.likely(ClientKey::of(client));
        let slot = Slots::slot_near(&self.cells, &self.index, client, likely)?;
        Some(&self.cells[slot].slot)
    }

    /// The slot of a key's client for writing.
    pub fn get_mut_at(&mut self, key: ClientKey) -> Option<&mut Slot>
        ensures* writes_back { sem 𝓛 (lends_slot self.entry key.number result) }
        ensures value { option_copied_mut result ≡ lookup (is_at (nat_cmp key.number)) self.old }
        ensures ordered { IsStrictlySortedBy nat_cmp (map (λ e. e.0) self.old) }
    {
        let likely = self.near.likely(key);
        if Slots::is_in(&self.cells, key.number, likely) {
            // Lent here, so that no second look is taken at whether the cell is full.
            return Some(&mut self.cells[likely].slot);
        }
        let slot = Slots::search(&self.index, key.number)?;
        Some(&mut self.cells[slot].slot)
    }

    /// A client's slot for writing.
    pub fn get_mut(&mut self, client: u64) -> Option<&mut Slot>
        ensures* writes_back { sem 𝓛 (lends_slot self.entry client result) }
        ensures value { option_copied_mut result ≡ lookup (is_at (nat_cmp client)) self.old }
        ensures ordered { IsStrictlySortedBy nat_cmp (map (λ e. e.0) self.old) }
    {
        self.get_mut_at(ClientKey::of(client))
    }

    /// A slot for a client, in place of one that it has. Fails only where memory is refused, and then
    /// nothing changes.
    pub fn insert(&mut self, client: u64, slot: Slot) -> Result<(), AllocError>
        ensures entries { OnOk result (self.new ≡ insert_entry nat_cmp self.old client slot) }
        ensures was_ordered { IsStrictlySortedBy nat_cmp (map (λ e. e.0) self.old) }
        ensures err { OnErr result (self.new ≡ self.old) }
    {
        if let Some(held) = self.get_mut(client) {
            *held = slot;
            return Ok(());
        }
        self.add(client, slot)
    }

    /// A slot for a client that has none.
    fn add(&mut self, client: u64, slot: Slot) -> Result<(), AllocError>
        requires { lookup (is_at (nat_cmp client)) self.old ≡ None }
        ensures entries { OnOk result (self.new ≡ insert_entry nat_cmp self.old client slot) }
        ensures err { OnErr result (self.new ≡ self.old) }
    {
        self.near.make_ready()?;
        self.cells.reserve(1)?;
        self.index.insert(client, self.cells.vacant_key())?;
        let at = self.cells.insert_reserved(Cell { client, slot });
        self.near.remember(client, at);
        Ok(())
    }

    /// Removes a client's slot.
    pub fn remove(&mut self, client: u64)
        ensures entries { self.new ≡ remove_entry (is_at (nat_cmp client)) self.old }
        ensures was_ordered { IsStrictlySortedBy nat_cmp (map (λ e. e.0) self.old) }
    {
        if let Some(slot) = self.index.remove(&client) {
            let _ = self.cells.remove(slot);
        }
    }

    /// The key of a client, which knows its slot where the client is there.
    pub fn key_of(&self, client: u64) -> ClientKey
        ensures { result.number ≡ client }
    {
        let likely = self.near.likely(ClientKey::of(client));
        match Slots::slot_near(&self.cells, &self.index, client, likely) {
            Some(slot) => ClientKey {
                number: client,
                slot,
            },
            None => ClientKey::of(client),
        }
    }

    /// The key of a client that knows where it likely is.
    pub fn likely_key_of(&self, client: u64) -> ClientKey
        ensures { result.number ≡ client }
    {
        ClientKey {
            number: client,
            slot: self.near.likely(ClientKey::of(client)),
        }
    }

    /// The slot of a key's client, if that is in the slot in which the key saw it.
    pub fn at(&self, key: ClientKey) -> Option<&Slot>
        ensures { IfSome result (λ slot. lookup (is_at (nat_cmp key.number)) self.now ≡ Some slot.now) }
    {
        match self.cells.get(key.slot) {
            Some(cell) if cell.client == key.number => Some(&cell.slot),
            _ => None,
        }
    }
}
