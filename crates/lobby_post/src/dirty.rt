//! Which clients of a worker were touched and wait to be looked after.

ghost use Rattle.std.specs.Prelude.{◌≡◌, ◌⊎◌, ℕ, ◌*◌, ◌<◌, ◌≤◌, [], true, false, filter, length, OnOk};

use crate::slots::Slots;
use std::alloc::{AllocError, Global};
use std::collections::VecDeque;
use std::marker::Model;

/// The clients of one worker that were touched, in the order in which the worker looks after them.
///
/// Each client of the worker stands here at most once, so that there is room for all of them at any
/// time: it is made as they are opened. A client that goes leaves its number behind; who takes the
/// first out asks whether it is there.
#[derive(Drop)]
pub struct DirtyList {
    waiting: VecDeque<u64>,
    /// Whom the event at hand touched, in the order in which it did.
    fresh: Vec<u64>,
    /// How many clients of the worker do not stand here.
    idle: usize,
    /// How many that stand here are known to be gone.
    gone: usize,
}

impl Model for DirtyList {
    ghost use Rattle.std.specs.Prelude.{◌≡◌, ◌-◌, ◌+◌, ◌≤◌, min, vec_len, vec_capacity};
    ghost use Rattle.std.specs.VecDeque.{deque_len, deque_capacity};
    ghost use Rattle.lobby_post.specs.Dirty.{Roomy};

    ghost Value = { Roomy };

    ghost view = { λ l. record {
      line = record { waiting = l.waiting.items; fresh = l.fresh.items; idle = l.idle };
      room = min (deque_capacity l.waiting) (vec_capacity l.fresh) - (l.idle + deque_len l.waiting + vec_len l.fresh);
      gone = l.gone;
    } };

    ghost invariant = { λ l. (l.idle + deque_len l.waiting + vec_len l.fresh ≤ deque_capacity l.waiting)
        × (l.idle + deque_len l.waiting + vec_len l.fresh ≤ vec_capacity l.fresh) };
}

impl DirtyList {
    ghost use Rattle.lobby_post.specs.Dirty.{added, listings_of, none_waits, pushed, stands, IsLeft, IsServed};
    ghost use Rattle.lobby_post.specs.Dirty.{IsSettled};
    ghost use Rattle.lobby_post.specs.Dirty.{IsSwept};

    /// There is no client.
    pub fn new(alloc: Global) -> DirtyList
        ensures { result.line ≡ none_waits }
    {
        DirtyList {
            waiting: VecDeque::new(alloc),
            fresh: Vec::new(alloc),
            idle: 0,
            gone: 0,
        }
    }

    /// Makes room for one client more.
    pub fn reserve(&mut self) -> Result<(), AllocError>
        ensures line { self.new.line ≡ self.old.line }
        ensures room { OnOk result (0 < self.new.room) }
    {
        self.fresh.reserve(self.idle + self.waiting.len() + 1)?;
        self.waiting.reserve(self.idle + self.fresh.len() + 1)?;
        Ok(())
    }

    /// Adds a client that is new, behind the others.
    pub fn add(&mut self, client: u64)
        requires { 0 < self.old.room }
        ensures { self.new.line ≡ added client self.old.line }
    {
        self.waiting.push_back_reserved(client);
    }

    /// The event at hand touches a client that does not stand here.
    pub fn push(&mut self, client: u64)
        ensures { self.new.line ≡ pushed client self.old.line }
    {
        if self.idle > 0 {
            self.idle -= 1;
            self.fresh.push_reserved(client);
        }
    }

    /// The event has ended: those that it touched stand behind the others, in rising order.
    pub fn settle(&mut self)
        ensures waiting { IsSettled self.old.line self.new.line }
    {
        self.fresh.sort_unstable();
        for client in self.fresh.iter() {
            self.waiting.push_back_reserved(*client);
        }
        self.fresh.clear();
    }

    /// Takes the first out that is there and the worker's.
    pub fn next(&mut self, home: u8, slots: &Slots) -> Option<u64>
        ensures { IsServed (stands (listings_of slots.now) home) result self.old.line self.new.line }
    {
        while let Some(client) = self.waiting.pop_front() {
            if slots.is_of(client, home) {
                self.idle += 1;
                return Some(client);
            }
            self.gone = self.gone.saturating_sub(1);
        }
        None
    }

    /// A client is gone that stood here, or did not. It leaves its number behind, until they are over
    /// half of the list: so each that is moved then is paid for by one that went.
    pub fn leave(&mut self, home: u8, listed: bool, slots: &Slots)
        ensures left { IsLeft listed (stands (listings_of slots.now) home) self.old.line self.new.line }
        ensures swept { listed ≡ true → IsSwept (stands (listings_of slots.now) home) self.old self.new }
    {
        if !listed {
            self.idle = self.idle.saturating_sub(1);
            return;
        }
        self.gone = self.gone.saturating_add(1);
        self.sweep(home, slots);
    }

    /// Leaves out the numbers of those that are gone, where they are over half of the list.
    fn sweep(&mut self, home: u8, slots: &Slots)
        ensures left { IsLeft true (stands (listings_of slots.now) home) self.old.line self.new.line }
        ensures few { 2 * self.new.gone ≤ length self.new.line.waiting }
        ensures swept { (self.new.gone ≡ self.old.gone)
            ⊎ ((self.new.gone ≡ 0) × (self.new.line.waiting
            ≡ filter (stands (listings_of slots.now) home) self.old.line.waiting)) }
    {
        if self.gone <= self.waiting.len() / 2 {
            return;
        }
        self.waiting.retain(|client| slots.is_of(*client, home));
        self.gone = 0;
    }
}

/// The lists of all workers, by the workers' numbers.
#[derive(Drop)]
pub struct DirtyLists {
    alloc: Global,
    lists: Vec<DirtyList>,
}

impl Model for DirtyLists {
    ghost use Rattle.std.specs.Prelude.{List};
    ghost use Rattle.lobby_post.specs.Dirty.{Roomy};

    ghost Value = { List Roomy };

    ghost view = { λ d. d.lists.items };
}

impl DirtyLists {
    ghost use Rattle.std.specs.Prelude.{if◌then◌else◌};
    ghost use Rattle.line_words.specs.Table.{same_number};
    ghost use Rattle.lobby_post.specs.Dirty.{added, line_of, list_of, listings_of, pushed, stands, IsLeft, IsServed};
    ghost use Rattle.lobby_post.specs.Dirty.{IsSettled, IsSwept};

    /// There is no client. It takes no memory yet.
    pub fn new(alloc: Global) -> DirtyLists
        ensures { result ≡ [] }
    {
        DirtyLists {
            alloc,
            lists: Vec::new(alloc),
        }
    }

    /// Makes room for one client more of a worker.
    pub fn reserve(&mut self, home: u8) -> Result<(), AllocError>
        ensures kept { (h : ℕ) → line_of self.new h ≡ line_of self.old h }
        ensures room { OnOk result (0 < (list_of self.new home).room) }
    {
        while self.lists.len() <= usize::from(home) {
            self.lists.push(DirtyList::new(self.alloc))?;
        }
        self.lists[usize::from(home)].reserve()
    }

    /// Adds a client of a worker that is new, behind the others.
    pub fn add(&mut self, home: u8, client: u64)
        requires { 0 < (list_of self.old home).room }
        ensures { (h : ℕ) → line_of self.new h
            ≡ (if same_number home h then added client (line_of self.old h) else line_of self.old h) }
    {
        if let Some(list) = self.lists.get_mut(usize::from(home)) {
            list.add(client);
        }
    }

    /// The event at hand touches a client of a worker that does not stand in its list.
    pub fn push(&mut self, home: u8, client: u64)
        ensures { (h : ℕ) → line_of self.new h
            ≡ (if same_number home h then pushed client (line_of self.old h) else line_of self.old h) }
    {
        if let Some(list) = self.lists.get_mut(usize::from(home)) {
            list.push(client);
        }
    }

    /// The event has ended: those that it touched stand behind the others, in rising order.
    pub fn settle(&mut self)
        ensures { (h : ℕ) → IsSettled (line_of self.old h) (line_of self.new h) }
    {
        for list in self.lists.iter_mut() {
            list.settle();
        }
    }

    /// Takes the first client of a worker's list out that is there.
    pub fn next(&mut self, home: u8, slots: &Slots) -> Option<u64>
        ensures own { IsServed (stands (listings_of slots.now) home) result (line_of self.old home)
            (line_of self.new home) }
        ensures others { (h : ℕ) → same_number home h ≡ false → line_of self.new h ≡ line_of self.old h }
    {
        self.lists.get_mut(usize::from(home))?.next(home, slots)
    }

    /// A client of a worker is gone, which stood in its list or did not.
    pub fn leave(&mut self, home: u8, listed: bool, slots: &Slots)
        ensures own { IsLeft listed (stands (listings_of slots.now) home) (line_of self.old home)
            (line_of self.new home) }
        ensures swept { listed ≡ true → IsSwept (stands (listings_of slots.now) home) (list_of self.old home)
            (list_of self.new home) }
        ensures others { (h : ℕ) → same_number home h ≡ false → line_of self.new h ≡ line_of self.old h }
    {
        if let Some(list) = self.lists.get_mut(usize::from(home)) {
            list.leave(home, listed, slots);
        }
    }
}
