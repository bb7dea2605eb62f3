//! Who gets a turn, and when a worker may wait.

ghost use Rattle.std.specs.Prelude.{◌≡◌, ◌≢◌, ◌⊎◌, ◌≤◌, ◌||◌, ◌∷◌, [], ℕ, List, true, IfSome};
ghost use Rattle.std.specs.List.{Contains};
ghost use Rattle.lobby_post.specs.Mask.{has_home};
ghost use Rattle.lobby_connections.specs.Attended.{AllBut, IsAttended, IsThere, KeepsClaims, NobodyIsForgotten, Owes};
ghost use Rattle.lobby_connections.specs.Attended.{WakesNobody};
ghost use Rattle.lobby_connections.specs.Claims.{Changes, had_turn, note_at, noted};
ghost use Rattle.lobby_connections.specs.Rung.{IsRung};
ghost use Rattle.lobby_connections.specs.Table.{Leaves, Stays, key_in, touched};
ghost use Rattle.lobby_connections.specs.Told.{keys_of, told};

use crate::connections::Connections;
use crate::lookout::Lookout;
use crate::poll_timeout::PollTimeout;
use crate::serving::Served;
use crate::wakers::{Rung, Wakers};
use lobby_machine::Wakes;
use lobby_turns::TurnState;
use mio::Registry;
use mio::event::Event;

/// What a wait came to.
#[derive(Drop)]
pub struct Waited {
    /// Whether the system made the poll.
    pub is_polled: bool,
    /// Whether another worker called this one since it last waited.
    pub is_called: bool,
    /// Whom the worker woke before it waited.
    pub rung: Rung,
}

impl Connections {
    /// Waits for news, and notes of whom the poll told. Before it waits, it wakes the other workers whose clients were
    /// touched. Who waits without end has forgotten nobody.
    pub fn wait(&mut self, lookout: &mut Lookout, wakers: &Wakers, home: u8) -> Waited
        requires { IsAttended self.old [] }
        ensures told { (key : ℕ) → Contains (keys_of (told lookout.new)) key
            → IsThere self.new key → Owes self.new key }
        ensures rest { self.new ≡ record self.old { claims = self.new.claims; to_wake = self.new.to_wake } }
        ensures rung { IsRung self.old self.new wakers.now home result.rung }
        ensures attended { IsAttended self.new (keys_of (told lookout.new)) }
    {
        let timeout = self.poll_timeout();
        let rung = self.wake_in_time(timeout, wakers, home);
        let timeout = wakers.begin_wait(home, timeout);
        let is_polled = self.wait_within(lookout, timeout);
        let is_called = wakers.end_wait(home);
        self.note_all(lookout.told());
        Waited {
            is_polled,
            is_called,
            rung,
        }
    }

    /// Waits. This is the law of a worker: it may wait only where nobody is still to be woken, and without end only
    /// where nobody is forgotten.
    fn wait_within(&self, lookout: &mut Lookout, timeout: PollTimeout) -> bool
        requires woken { timeout ≢ PollTimeout.Zero → WakesNobody self.now }
        requires law { timeout ≡ PollTimeout.Endless → NobodyIsForgotten self.now }
    {
        lookout.wait(timeout)
    }

    /// Before the worker waits so long: wakes the other workers whose clients were touched, and says whom it woke. It
    /// may put that off where it does not wait.
    fn wake_in_time(&mut self, timeout: PollTimeout, wakers: &Wakers, home: u8) -> Rung
        ensures rung { IsRung self.old self.new wakers.now home result }
        ensures nobody { timeout ≢ PollTimeout.Zero → WakesNobody self.new }
        ensures rest { self.new ≡ record self.old { to_wake = self.new.to_wake } }
    {
        if self.puts_off_wakes(timeout) {
            return Rung::new();
        }
        self.wake_others(wakers, home)
    }

    /// Notes of whom a poll told.
    fn note_all(&mut self, events: &[Event])
        ensures told { (key : ℕ) → Contains (keys_of events.now) key → IsThere self.new key → Owes self.new key }
        ensures rest { self.new ≡ record self.old { claims = self.new.claims } }
        ensures attended { AllBut self.old [] → AllBut self.new (keys_of events.now) }
    {
        for event in events {
            self.note(event);
        }
    }

    /// A turn is over: its connection goes on as the turn ended. Where it stopped at a limit or for want of memory, it
    /// is left for the next round. One whose client was shut lingers. Whose clients it touched is noted; those of this
    /// worker have this home.
    pub fn end_turn(&mut self, registry: &Registry, served: Served, home: u8)
        requires { home ≤ 63 }
        ensures again { served.state ≡ TurnState.Again
            → Leaves (touched self.old self.new) self.new served.key PollTimeout.Zero }
        ensures memory { served.state ≡ TurnState.Memory
            → Leaves (touched self.old self.new) self.new served.key PollTimeout.Short }
        ensures idle { served.state ≡ TurnState.Idle
            → self.new ≡ record (touched self.old self.new) { claims = self.new.claims } }
        ensures closed { served.state ≡ TurnState.Closed → Stays (touched self.old self.new) self.new }
        ensures again_owes { served.state ≡ TurnState.Again → IsThere self.new served.key → Owes self.new served.key }
        ensures memory_owes { served.state ≡ TurnState.Memory → IsThere self.new served.key → Owes self.new served.key }
        ensures others { (other : ℕ) → (other ≡ served.key → ⊥)
            → note_at self.new.claims other ≡ note_at self.old.claims other }
        ensures pending { self.new.is_pending ≡ (self.old.is_pending || has_home served.wakes home) }
        ensures wakes { (worker : ℕ) → has_home self.new.to_wake worker
            ≡ (has_home self.old.to_wake worker || has_home served.wakes worker) }
        ensures attended { (rest : List ℕ) → IsAttended self.old (served.key ∷ rest)
            → IsAttended self.new rest }
    {
        self.finish(served.key(), home, served.wakes());
        self.go_on(registry, served.key(), served.state());
    }

    /// The connection under a key had its turn, which touched the clients of these workers.
    fn finish(&mut self, key: usize, home: u8, wakes: Wakes)
        requires { home ≤ 63 }
        ensures rest { self.new ≡ record (touched self.old self.new) { claims = self.new.claims } }
        ensures claims { Changes self.old.claims self.new.claims key (noted had_turn) }
        ensures pending { self.new.is_pending ≡ (self.old.is_pending || has_home wakes home) }
        ensures wakes { (worker : ℕ) → has_home self.new.to_wake worker
            ≡ (has_home self.old.to_wake worker || has_home wakes worker) }
    {
        self.touch(home, wakes);
        self.settle(key);
        self.quit(key);
    }

    /// A connection goes on as its turn ended.
    fn go_on(&mut self, registry: &Registry, key: usize, state: TurnState)
        ensures again { state ≡ TurnState.Again → Leaves self.old self.new key PollTimeout.Zero }
        ensures memory { state ≡ TurnState.Memory → Leaves self.old self.new key PollTimeout.Short }
        ensures idle { state ≡ TurnState.Idle → self.new ≡ self.old }
        ensures closed { state ≡ TurnState.Closed → Stays self.old self.new }
        ensures again_owes { state ≡ TurnState.Again → IsThere self.new key → Owes self.new key }
        ensures memory_owes { state ≡ TurnState.Memory → IsThere self.new key → Owes self.new key }
        ensures others { (other : ℕ) → (other ≡ key → ⊥)
            → note_at self.new.claims other ≡ note_at self.old.claims other }
        ensures called { self.new.called ≡ self.old.called }
        ensures attended { (rest : List ℕ) → AllBut self.old rest → AllBut self.new rest }
    {
        match state {
            TurnState::Idle => {}
            TurnState::Again => self.leave(key, PollTimeout::Zero),
            TurnState::Memory => self.leave(key, PollTimeout::Short),
            TurnState::Closed => self.close(registry, key),
        }
    }

    /// Wakes the other workers whose clients were touched, and says whom it woke.
    fn wake_others(&mut self, wakers: &Wakers, home: u8) -> Rung
        ensures rung { IsRung self.old self.new wakers.now home result }
        ensures nobody { WakesNobody self.new }
        ensures rest { self.new ≡ record self.old { to_wake = self.new.to_wake } }
    {
        let wakes = self.take_wakes();
        wakers.wake_others(home, wakes)
    }

    /// Looks for the clients that the lobby named: the connection of each is to get a turn, where it has not gone. It
    /// is called behind the hold, so that nobody waits for the lobby meanwhile.
    pub fn name_called(&mut self)
        ensures called { self.new.called ≡ [] }
        ensures named { (client : ℕ) → Contains self.old.called client
            → IfSome (key_in self.old.keys client) (λ key. IsThere self.new key → Owes self.new key) }
        ensures rest { self.new.is_pending ≡ self.old.is_pending }
        ensures attended { (rest : List ℕ) → AllBut self.old rest → IsAttended self.new rest }
    {
        while let Some(client) = self.next_called() {
            self.name_client(client);
        }
    }

    /// The connection of a client is to get a turn, where it has not gone.
    fn name_client(&mut self, client: u64)
        ensures named { IfSome (key_in self.old.keys client) (λ key. IsThere self.new key → Owes self.new key) }
        ensures claims { KeepsClaims self.old self.new }
        ensures called { (self.new.called ≡ self.old.called) × (self.new.keys ≡ self.old.keys) }
        ensures rest { (self.new.is_pending ≡ self.old.is_pending) × (self.new.to_wake ≡ self.old.to_wake) }
        ensures attended { (rest : List ℕ) → AllBut self.old rest → AllBut self.new rest }
    {
        if let Some(key) = self.key_of(client) {
            self.name(key);
        }
    }

    /// A connection is named: it is to get a turn. Where memory is refused, it gets that in the next round.
    fn name(&mut self, key: usize)
        ensures named { IsThere self.new key → Owes self.new key }
        ensures claims { KeepsClaims self.old self.new }
        ensures called { (self.new.called ≡ self.old.called) × (self.new.keys ≡ self.old.keys) }
        ensures rest { (self.new.is_pending ≡ self.old.is_pending) × (self.new.to_wake ≡ self.old.to_wake) }
        ensures attended { (rest : List ℕ) → AllBut self.old rest → AllBut self.new rest }
    {
        self.claim(key);
        if !self.push_name(key) {
            self.line_up(key, PollTimeout::Zero);
        }
    }
}
