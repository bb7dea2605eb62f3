//! The connections of a worker, and who gets the next turn.

ghost use Rattle.std.specs.Prelude.{◌≡◌, ◌≢◌, ◌⊎◌, ◌↔◌, ◌+◌, ◌-◌, ◌/◌, ◌^◌, ◌<◌, ◌≤◌, ◌||◌, [], ◌∷◌, ◌++◌, true, false};
ghost use Rattle.std.specs.Prelude.{ℕ, List, length, max, min, None, Some, IfSome, IsTrue, OnOk, OnSome};
ghost use Rattle.std.specs.Option.{option_to_list};
ghost use Rattle.lobby_post.specs.Mask.{has_home};
ghost use Rattle.lobby_machine.specs.Shown.{dirty_at};
ghost use Rattle.lobby_connections.specs.Attended.{AllBut, InLine, Owes, WakesNobody};
ghost use Rattle.lobby_connections.specs.Attended.{IsAttended, KeepsAttended};
ghost use Rattle.lobby_connections.specs.Claims.{Changes, called_up, come, gone, had_turn, left_over, noted, owing};
ghost use Rattle.lobby_connections.specs.Table.{IsIdle, Leaves, LinesUp, Stays, due_count, key_in, next_key};
ghost use Rattle.lobby_connections.specs.Table.{stayed, touched, with_left};
ghost use Rattle.lobby_connections.specs.Timeouts.{StaysAwake, shorter};
ghost use Rattle.lobby_connections.specs.Told.{key_of};

use crate::connection::Connection;
use crate::lingering::Lingering;
use crate::names;
use crate::poll_timeout::PollTimeout;
use crate::seat::{self, Seat};
use crate::serving::{self, Served};
use crate::wire_link::WireLink;
use lobby_lock::{Desk, Held, Pass};
use lobby_machine::Wakes;
use lobby_turns::{Buffers, Conn, Gate};
use mio::event::Event;
use mio::net::TcpStream;
use mio::{Registry, Token};
use slab::Slab;
use std::alloc::{AllocError, Global};
use std::collections::HashMap;
use std::marker::Model;
use std::mem;
use std::sync::Wait;

/// How many bytes a turn may tell before it says no line more that may tell others: two thousand short lines.
pub const TURN_MOST: u64 = 128_000;

/// The most bytes that a round tells, and one turn's more, where no other worker tells much.
const ROUND_MOST: u64 = 512_000;

/// So many bytes are much for a round to tell.
const MUCH: u64 = 32_000;

/// The connections of a worker, each under the key that its events bear. A worker goes round again
/// and again, and gives those a turn who are to get one: a poll told of it, it was named, it is new, or it stopped at a
/// limit or for want of memory; and since then it had none.
pub struct Connections {
    pub(crate) alloc: Global,
    pub(crate) slab: Slab<Seat>,
    // the key of each client's connection, by the client's number
    keys: HashMap<u64, usize>,
    // the clients that the lobby named as changed in a hold, for whom is still to be looked; there is room for those of
    // a hold
    called: Vec<u64>,
    // the keys of those who were named, for the turns to come; there is room for all
    named: Vec<usize>,
    // whether the lobby may name more, of which no other worker tells
    is_pending: bool,
    // the other workers whose clients were touched, and who are still to be woken
    to_wake: Wakes,
    // whether that was put off when the worker last looked
    are_wakes_put_off: bool,
    // who stopped at a limit or for want of memory in the round before, or is new since then, and so gets a turn though
    // nothing new comes
    due: Vec<usize>,
    // how many of them had it
    served: usize,
    // whether someone found no place in that list
    is_each_due: bool,
    // the same of this round
    left: Vec<usize>,
    is_each_left: bool,
    // whether memory was refused to a turn of this round, and whether that began before it
    is_refused: bool,
    is_short: bool,
    // those whose clients were shut
    lingering: Lingering,
    timeout: PollTimeout,
    // how much this round told
    told: u64,
    // the most that this round tells
    round_most: u64,
    // buffers for who has its turn
    pub(crate) buffers: Buffers,
    // and for those whose turns share holds
    pub(crate) more_buffers: Vec<Buffers>,
}

impl Drop for Connections {
    /// Who lets them go calls this, and need not know what they are made of.
    fn drop(self) {
        let Connections {
            alloc: _,
            slab,
            keys,
            called,
            named,
            is_pending: _,
            to_wake: _,
            are_wakes_put_off: _,
            due,
            served: _,
            is_each_due: _,
            left,
            is_each_left: _,
            is_refused: _,
            is_short: _,
            lingering,
            timeout: _,
            told: _,
            round_most: _,
            buffers,
            more_buffers,
        } = self;
        drop(slab);
        drop(keys);
        drop(called);
        drop(named);
        drop(due);
        drop(left);
        drop(lingering);
        drop(buffers);
        drop(more_buffers);
    }
}

impl Model for Connections {
    ghost use Rattle.lobby_connections.specs.Table.{Table};

    ghost Value = { Table };

    ghost use Rattle.lobby_connections.specs.Shown.{shown};
    ghost use Rattle.lobby_connections.specs.Attended.{IsTable};

    ghost view = { shown };

    ghost invariant = { λ c. IsTable (shown c) };
}

impl Connections {
    /// No connection.
    pub fn new(alloc: Global) -> Connections
        ensures due { (result.due ≡ []) × (result.is_each_due ≡ false) × (result.served ≡ 0) }
        ensures told { (result.told ≡ 0) × (result.round_most ≡ ROUND_MOST) }
        ensures left { (result.left ≡ []) × (result.is_each_left ≡ false) }
        ensures named { (result.named ≡ []) × (result.is_pending ≡ false) }
        ensures none { result.count ≡ 0 }
        ensures attended { IsAttended result [] }
        ensures timeout { result.timeout ≡ PollTimeout.Endless }
    {
        Connections {
            alloc,
            slab: Slab::new(alloc),
            keys: HashMap::new(alloc),
            called: Vec::new(alloc),
            named: Vec::new(alloc),
            is_pending: false,
            to_wake: Wakes::none(),
            are_wakes_put_off: false,
            due: Vec::new(alloc),
            served: 0,
            is_each_due: false,
            left: Vec::new(alloc),
            is_each_left: false,
            is_refused: false,
            is_short: false,
            lingering: Lingering::new(alloc),
            timeout: PollTimeout::Endless,
            told: 0,
            round_most: ROUND_MOST,
            buffers: Buffers::new(alloc),
            more_buffers: Vec::new(alloc),
        }
    }

    /// How long the worker may wait before the next round: not at all while somebody is due, or is named, or may be;
    /// and never without end while somebody is left over.
    pub fn poll_timeout(&self) -> PollTimeout
        ensures idle { IsIdle self.now → result ≡ self.now.timeout }
        ensures busy { IsIdle self.now ⊎ (result ≡ PollTimeout.Zero) }
        ensures awake { StaysAwake self.now.left self.now.is_each_left result }
    {
        if self.has_due() || self.is_pending || !self.named.is_empty() {
            PollTimeout::Zero
        } else {
            self.timeout
        }
    }

    /// Has the worker wait no longer than this before the next round.
    pub fn hurry(&mut self, timeout: PollTimeout)
        ensures { self.new ≡ record self.old { timeout = shorter self.old.timeout timeout } }
    {
        self.timeout = self.timeout.or(timeout);
    }

    /// A round begins, in which nothing was told yet, while so many workers tell much: together they tell as much as
    /// one would alone, but each a turn's at least. Where each of those who were due had its turn, those are due who
    /// were left over, and the worker may wait as long as it likes. Else it waits no longer than it did, or it would
    /// forget whom earlier rounds left over.
    pub fn begin_round(&mut self, tellers: u64)
        requires { 1 ≤ tellers }
        ensures over { due_count self.old ≤ self.old.served
            → self.new ≡ record (with_left self.old) {
              timeout = PollTimeout.Endless;
              told = 0;
              round_most = self.new.round_most;
            } }
        ensures goes_on { self.old.served < due_count self.old
            → self.new ≡ record self.old { told = 0; round_most = self.new.round_most } }
        ensures share { self.new.round_most ≡ max (ROUND_MOST / tellers) TURN_MOST }
        ensures attended { KeepsAttended self.old self.new }
    {
        self.begin_count(tellers);
        self.go_over();
    }

    /// Nothing was told in this round yet, in which so many workers tell much.
    fn begin_count(&mut self, tellers: u64)
        requires { 1 ≤ tellers }
        ensures { self.new ≡ record self.old { told = 0; round_most = max (ROUND_MOST / tellers) TURN_MOST } }
    {
        self.told = 0;
        self.round_most = (ROUND_MOST / tellers).max(TURN_MOST);
        self.is_short = self.is_refused;
        self.is_refused = false;
    }

    /// Where each of those who were due had its turn, those are due who were left over, and the worker may wait as long
    /// as it likes.
    fn go_over(&mut self)
        ensures over { due_count self.old ≤ self.old.served
            → self.new ≡ record (with_left self.old) { timeout = PollTimeout.Endless } }
        ensures goes_on { self.old.served < due_count self.old → self.new ≡ self.old }
        ensures attended { KeepsAttended self.old self.new }
    {
        if self.served >= self.due() {
            self.timeout = PollTimeout::Endless;
            self.due.clear();
            mem::swap(&mut self.due, &mut self.left);
            self.is_each_due = self.is_each_left;
            self.is_each_left = false;
            self.served = 0;
        }
    }

    /// Memory was refused to a turn of this round. Whether that is news: it was refused to none before, in this round
    /// and the last.
    pub fn refuse(&mut self) -> bool
        ensures { self.new ≡ self.old }
    {
        let is_news = !self.is_refused && !self.is_short;
        self.is_refused = true;
        is_news
    }

    /// How many connections there are.
    pub fn len(&self) -> usize
        ensures { result ≡ self.now.count }
    {
        self.slab.len()
    }

    /// A number that is greater than the key of each connection.
    pub fn key_bound(&self) -> usize
        ensures { result ≡ self.now.key_bound }
    {
        self.slab.capacity()
    }

    /// How many are due, those among them who had their turn. Where someone found no place in the list of those, each
    /// is.
    pub fn due(&self) -> usize
        ensures { result ≡ due_count self.now }
    {
        if self.is_each_due {
            self.slab.capacity()
        } else {
            self.due.len()
        }
    }

    /// The key of the next one that is due. Where there is none it is 0, or no key.
    fn next_key(&self) -> usize
        ensures { result ≡ next_key self.now }
    {
        if self.is_each_due {
            return self.served;
        }
        match self.due.get(self.served) {
            Some(key) => *key,
            None => 0,
        }
    }

    /// The key of the next one that is due, who is left over no more. None where each had its turn.
    pub fn next_due(&mut self) -> Option<usize>
        ensures some { IfSome result (λ key.
            (key ≡ next_key self.old) × (self.old.served < due_count self.old)
            × (self.new ≡ record self.old { served = self.old.served + 1; claims = self.new.claims })) }
        ensures none { result ≡ None → (due_count self.old ≤ self.old.served) × (self.new ≡ self.old) }
        ensures claims { IfSome result (λ key. Changes self.old.claims self.new.claims key (noted called_up)) }
        ensures attended { (rest : List ℕ) → IsAttended self.old rest
            → IsAttended self.new (option_to_list result ++ rest) }
    {
        if self.served >= self.due() {
            return None;
        }
        let key = self.next_key();
        self.served += 1;
        seat::call_up(&mut self.slab, key);
        Some(key)
    }

    /// Whether some are due who had no turn yet.
    fn has_due(&self) -> bool
        ensures { IsTrue result ↔ (self.now.served < due_count self.now) }
    {
        self.served < self.due()
    }

    /// Whether this round told much.
    pub fn tells_much(&self) -> bool
        ensures { IsTrue result ↔ (MUCH ≤ self.now.told) }
    {
        self.told >= MUCH
    }

    /// How many bytes the next turn of this round may tell.
    pub fn allowance(&self) -> u64
        ensures { result ≡ min (self.now.round_most - self.now.told) TURN_MOST }
    {
        let left = self.round_most.saturating_sub(self.told);
        left.min(TURN_MOST)
    }

    /// How many bytes the next turn of this round may tell where nobody else is left over: all that is left of the
    /// round, and a turn's at least.
    pub fn lone_allowance(&self) -> u64
        ensures { result ≡ max (self.now.round_most - self.now.told) TURN_MOST }
    {
        let left = self.round_most.saturating_sub(self.told);
        left.max(TURN_MOST)
    }

    /// Turns of this round told so many bytes, or cost as much. The count stays at its most, 2^64 - 1.
    pub fn count_told(&mut self, told: u64)
        ensures { self.new ≡ record self.old { told = min (self.old.told + told) (2 ^ 64 - 1) } }
    {
        self.told = self.told.saturating_add(told);
    }

    /// Whether the connection under a key waits for its turn among those who are left over. Where the round told enough
    /// and the turn would likely cost much, it does so from now on.
    pub fn is_put_off(&mut self, key: usize) -> bool
        ensures now { result ≡ false → self.new ≡ self.old }
        ensures then { (self.new ≡ self.old)
            ⊎ ((self.old.round_most ≤ self.old.told) × Leaves self.old self.new key PollTimeout.Zero) }
        ensures attended { result ≡ true → (rest : List ℕ) → IsAttended self.old (key ∷ rest)
            → IsAttended self.new rest }
    {
        if self.waits(key) {
            return true;
        }
        if self.told < self.round_most || !self.is_dear(key) {
            return false;
        }
        self.leave(key, PollTimeout::Zero);
        true
    }

    /// Whether the connection under a key waits for its turn among those who are left over.
    fn waits(&self, key: usize) -> bool
        ensures { result ≡ true → InLine self.now key }
    {
        match seat::claim_at(&self.slab, key) {
            Some(claim) => claim.is_left,
            None => false,
        }
    }

    /// Whether the next turn of the connection under a key likely costs much.
    fn is_dear(&self, key: usize) -> bool {
        match self.slab.get(key) {
            Some(seat) => seat.connection.is_dear(),
            None => false,
        }
    }

    /// Room for one connection more: for itself, its key and its name. Fails only where memory is refused.
    fn reserve(&mut self) -> Result<(), AllocError>
        ensures room { OnOk result (0 < self.new.room) }
        ensures rest { Stays self.old self.new }
        ensures claims { self.new.claims ≡ self.old.claims }
        ensures bound { self.old.key_bound ≤ self.new.key_bound }
    {
        self.called.reserve(names::IN_HOLD)?;
        self.slab.reserve(1)?;
        self.keys.reserve(1)?;
        let more = self.slab.capacity().saturating_sub(self.named.len());
        self.named.reserve(more)
    }

    /// A connection comes: from now on a poll tells of it under its key, and there is room for it. None, and it is
    /// closed, where the system or memory does not allow it.
    pub fn prepare(&mut self, registry: &Registry, stream: TcpStream) -> Option<WireLink>
        ensures room { OnSome result (0 < self.new.room) }
        ensures rest { Stays self.old self.new }
        ensures attended { KeepsAttended self.old self.new }
    {
        if self.reserve().is_err() {
            return None;
        }
        // A line is to leave at once, also while an earlier one is on its way.
        let _ = stream.set_nodelay(true);
        let mut link = WireLink::new(stream);
        let key = self.slab.vacant_key();
        match link.register(registry, Token(key)) {
            Ok(()) => Some(link),
            Err(_) => None,
        }
    }

    /// Takes in a connection that was prepared, behind which none was, and whose client was opened from this address.
    /// It is to get its first turn, whatever a poll tells, and the worker does not wait before. It is under this key.
    pub fn put(&mut self, client: u64, ip: [u8; 4], link: WireLink) -> usize
        requires { 0 < self.old.room }
        ensures rest { LinesUp (stayed self.old self.new) self.new result PollTimeout.Zero }
        ensures count { self.new.count ≡ self.old.count + 1 }
        ensures key { key_in self.new.keys client ≡ Some result }
        ensures owes { Owes self.new result }
        ensures comes { Changes self.old.claims self.new.claims result come }
        ensures attended { KeepsAttended self.old self.new }
    {
        let key = self.insert(client, ip, link);
        self.line_up(key, PollTimeout::Zero);
        key
    }

    /// A connection takes its seat.
    fn insert(&mut self, client: u64, ip: [u8; 4], link: WireLink) -> usize
        requires { 0 < self.old.room }
        ensures rest { Stays self.old self.new }
        ensures count { self.new.count ≡ self.old.count + 1 }
        ensures bound { self.new.key_bound ≡ self.old.key_bound }
        ensures key { key_in self.new.keys client ≡ Some result }
        ensures claims { Changes self.old.claims self.new.claims result come }
    {
        let mut conn = Conn::new(self.alloc, client);
        conn.came_from(ip);
        let seat = Seat::new(Connection::new(conn, link));
        let key = self.slab.insert_reserved(seat);
        match self.keys.insert(client, key) {
            Ok(_) => {}
            Err(_) => unreachable!(),
        }
        key
    }

    /// Lets go what came for a connection that lingers. Whether a poll's token is of one.
    pub fn discard_input(&mut self, registry: &Registry, token: Token) -> bool
        ensures { self.new ≡ self.old }
    {
        self.lingering.turn(registry, token)
    }

    /// Notes what a poll told of the connection under the event's token, which is to get a turn. Nothing happens where
    /// there is none.
    pub fn note(&mut self, event: &Event)
        ensures rest { self.new ≡ record self.old { claims = self.new.claims } }
        ensures claims { Changes self.old.claims self.new.claims (key_of event.now) (noted owing) }
    {
        seat::note(&mut self.slab, event.token().0, event);
    }

    /// The connection under a key.
    pub fn at(&self, key: usize) -> Option<&Connection> {
        match self.slab.get(key) {
            Some(seat) => Some(&seat.connection),
            None => None,
        }
    }

    /// Whether the connection under a key is to get a turn.
    pub fn begins_turn(&self, key: usize) -> bool
        ensures yes { result ≡ true → Owes self.now key }
        ensures no { result ≡ false → Owes self.now key → ⊥ }
    {
        match seat::claim_at(&self.slab, key) {
            Some(claim) => claim.owes,
            None => false,
        }
    }

    /// The connection under a key has a turn, or its turn goes on; it may tell so much. None where there is none.
    pub fn serve<R: Wait, G: Gate>(
        &mut self,
        rt: &R,
        key: usize,
        desk: &Desk,
        pass: Pass,
        gate: &G,
        allowance: u64,
    ) -> (Pass, Option<Served>)
        requires { pass.desk ≡ desk.now }
        ensures table { self.new ≡ self.old }
        ensures key { IfSome result.1 (λ had. had.key ≡ key) }
        ensures none { result.1 ≡ None → Owes self.old key → ⊥ }
        ensures desk { result.0.desk ≡ pass.desk }
        ensures number { result.0.worker.number ≡ pass.worker.number }
    {
        let (seats, buffers) = (&mut self.slab, &mut self.buffers);
        serving::serve(rt, seats, buffers, key, desk, pass, gate, allowance)
    }

    /// Sends to the client of the connection under a key what waits for it, if there is one, and does nothing else.
    pub fn send_at<R: Wait, G: Gate>(
        &mut self,
        rt: &R,
        key: usize,
        desk: &Desk,
        pass: Pass,
        gate: &G,
    ) -> Pass
        requires { pass.desk ≡ desk.now }
        ensures table { self.new ≡ self.old }
        ensures desk { result.desk ≡ pass.desk }
        ensures number { result.worker.number ≡ pass.worker.number }
    {
        serving::send_at(rt, &mut self.slab, &mut self.buffers, key, desk, pass, gate)
    }

    /// A turn is over: takes back the buffers that were lent to the connection under a key.
    pub(crate) fn settle(&mut self, key: usize)
        ensures { self.new ≡ self.old }
    {
        serving::settle(&mut self.slab, &mut self.buffers, key);
    }

    /// The connection under a key is to get a turn.
    pub(crate) fn claim(&mut self, key: usize)
        ensures rest { self.new ≡ record self.old { claims = self.new.claims } }
        ensures claims { Changes self.old.claims self.new.claims key (noted owing) }
    {
        seat::owe(&mut self.slab, key);
    }

    /// The connection under a key had its turn.
    pub(crate) fn quit(&mut self, key: usize)
        ensures rest { self.new ≡ record self.old { claims = self.new.claims } }
        ensures claims { Changes self.old.claims self.new.claims key (noted had_turn) }
    {
        seat::quit(&mut self.slab, key);
    }

    /// A connection is left for the next round, before which the worker waits no longer than this.
    pub(crate) fn leave(&mut self, key: usize, timeout: PollTimeout)
        requires { timeout ≢ PollTimeout.Endless }
        ensures leaves { Leaves self.old self.new key timeout }
        ensures claims { Changes self.old.claims self.new.claims key (noted left_over) }
        ensures attended { (rest : List ℕ) → AllBut self.old (key ∷ rest) → AllBut self.new rest }
    {
        self.line_up(key, timeout);
        self.mark_left(key);
    }

    /// A key joins those that are left for the next round, before which the worker waits no longer than this.
    pub(crate) fn line_up(&mut self, key: usize, timeout: PollTimeout)
        requires { timeout ≢ PollTimeout.Endless }
        ensures { LinesUp self.old self.new key timeout }
    {
        self.timeout = self.timeout.or(timeout);
        if self.left.push(key).is_err() {
            self.is_each_left = true;
        }
    }

    /// It is noted that a connection waits for the next round, and is to get a turn.
    fn mark_left(&mut self, key: usize)
        requires { InLine self.old key }
        ensures rest { self.new ≡ record self.old { claims = self.new.claims } }
        ensures claims { Changes self.old.claims self.new.claims key (noted left_over) }
    {
        seat::leave(&mut self.slab, key);
    }

    /// A connection whose client was shut goes on as one that lingers.
    pub(crate) fn close(&mut self, registry: &Registry, key: usize)
        ensures rest { Stays self.old self.new }
        ensures bound { self.new.key_bound ≡ self.old.key_bound }
        ensures claims { Changes self.old.claims self.new.claims key gone }
    {
        if let Some(link) = self.remove(key) {
            self.lingering.begin(registry, link);
        }
    }

    /// A connection goes. Its link stays.
    fn remove(&mut self, key: usize) -> Option<WireLink>
        ensures rest { Stays self.old self.new }
        ensures bound { self.new.key_bound ≡ self.old.key_bound }
        ensures claims { Changes self.old.claims self.new.claims key gone }
    {
        let seat = self.slab.try_remove(key)?;
        let Seat { connection, .. } = seat;
        let Connection { conn, link, .. } = connection;
        self.keys.remove(&conn.client());
        drop(conn);
        Some(link)
    }

    /// A connection ends with its worker: its client was shut, and it lingers beside all others.
    pub fn end(&mut self, key: usize)
        ensures { Stays self.old self.new }
    {
        if let Some(link) = self.remove(key) {
            self.lingering.add(link);
        }
    }

    /// Lets go what came for each connection that lingers, 64 KiB at most. Whether any does so still.
    pub fn let_all_go(&mut self) -> bool
        ensures { self.new ≡ self.old }
    {
        self.lingering.discard_input()
    }

    /// Notes whose clients a turn touched: the worker's own, which are those of this home, so that the lobby may name
    /// more of them, and those of others, who are to be woken.
    pub(crate) fn touch(&mut self, home: u8, wakes: Wakes)
        requires { home ≤ 63 }
        ensures rest { self.new ≡ touched self.old self.new }
        ensures pending { self.new.is_pending ≡ (self.old.is_pending || has_home wakes home) }
        ensures wakes { (worker : ℕ) → has_home self.new.to_wake worker
            ≡ (has_home self.old.to_wake worker || has_home wakes worker) }
    {
        self.is_pending |= wakes.has(home);
        self.to_wake = self.to_wake.union(wakes);
    }

    /// The workers who are to be woken, and from now on are so no more.
    pub(crate) fn take_wakes(&mut self) -> Wakes
        ensures wakes { result ≡ self.old.to_wake }
        ensures rest { self.new ≡ record self.old { to_wake = self.new.to_wake } }
        ensures nobody { WakesNobody self.new }
    {
        let wakes = self.to_wake;
        self.to_wake = Wakes::none();
        wakes
    }

    /// Whether others are woken behind the next round only. They are at once where the worker waits, where this was put
    /// off before, and where nobody is left over who may touch more clients.
    pub(crate) fn puts_off_wakes(&mut self, timeout: PollTimeout) -> bool
        ensures zero { result ≡ true → timeout ≡ PollTimeout.Zero }
        ensures rest { self.new ≡ self.old }
    {
        self.are_wakes_put_off = timeout == PollTimeout::Zero
            && !self.are_wakes_put_off
            && self.has_left_over();
        self.are_wakes_put_off
    }

    /// Whether somebody is left over for this round or the next.
    fn has_left_over(&self) -> bool {
        self.has_due() || self.is_each_left || !self.left.is_empty()
    }

    /// Whether the lobby may name more clients, of which no other worker tells.
    pub fn is_pending(&self) -> bool
        ensures { result ≡ self.now.is_pending }
    {
        self.is_pending
    }

    /// The lobby may name more clients.
    pub fn expect_names(&mut self)
        ensures { self.new ≡ record self.old { is_pending = true } }
    {
        self.is_pending = true;
    }

    /// Whether there is no connection. Then nobody is named, and the lobby need not be asked.
    pub fn expects_nobody(&mut self) -> bool
        ensures yes { result ≡ true
            → (self.new.count ≡ 0) × (self.new ≡ record self.old { is_pending = false }) }
        ensures no { result ≡ false → self.new ≡ self.old }
    {
        if self.slab.len() > 0 {
            return false;
        }
        self.is_pending = false;
        true
    }

    /// Takes names of changed clients in a hold that goes on, while there is room, and keeps those of clients
    /// for which a turn has something to do. It is pending where these may not be all.
    pub fn take_names(&mut self, held: &mut Held, home: u8)
        requires { home ≤ 63 }
        ensures pass { held.new.pass ≡ held.old.pass }
        ensures table { self.new ≡ record self.old { called = self.new.called; is_pending = self.new.is_pending } }
        ensures asked { self.new.is_pending ≡ false → dirty_at held.new.lobby home ≡ [] }
        ensures attended { (rest : List ℕ) → IsAttended self.old rest → AllBut self.new rest }
    {
        self.is_pending = !names::take_all(held, home, &mut self.called);
    }

    /// A client that the lobby named, and for whom is to be looked, and is so no more.
    pub(crate) fn next_called(&mut self) -> Option<u64>
        ensures called { self.old.called ≡ self.new.called ++ option_to_list result }
        ensures rest { self.new ≡ record self.old { called = self.new.called } }
        ensures nobody { result ≡ None → self.new.called ≡ [] }
    {
        self.called.pop()
    }

    /// A key joins those that are named. False where memory is refused.
    pub(crate) fn push_name(&mut self, key: usize) -> bool
        ensures yes { result ≡ true → self.new ≡ record self.old { named = self.old.named ++ key ∷ [] } }
        ensures no { result ≡ false → self.new ≡ self.old }
    {
        self.named.push(key).is_ok()
    }

    /// How many are named.
    pub fn named(&self) -> usize
        ensures { result ≡ length self.now.named }
    {
        self.named.len()
    }

    /// The key of one who is named, and is so no more. None where nobody is.
    pub fn next_named(&mut self) -> Option<usize>
        ensures named { self.old.named ≡ self.new.named ++ option_to_list result }
        ensures none { result ≡ None → self.old.named ≡ [] }
        ensures rest { self.new ≡ record self.old { named = self.new.named } }
        ensures attended { (rest : List ℕ) → IsAttended self.old rest
            → IsAttended self.new (option_to_list result ++ rest) }
    {
        self.named.pop()
    }

    /// The key of a client's connection. None where there is none: it has gone.
    pub fn key_of(&self, client: u64) -> Option<usize>
        ensures { result ≡ key_in self.now.keys client }
    {
        self.keys.get(&client).copied()
    }
}
