//! The connection of a client.

ghost use Rattle.std.specs.Prelude.{◌≡◌, ◌≢◌, ◌↔◌, ◌+◌, ◌≤◌, ℕ, List, [], ◌++◌, length, drop, OnOk, OnErr, IfOk};
ghost use Rattle.std.specs.Prelude.{IsTrue, Some, true, false};
ghost use Rattle.lobby_lock.specs.Passes.{ShownPass};
ghost use Rattle.client_session.specs.declared.session.Next.TheVariants.{Nothing, Spoilt};
ghost use Rattle.client_session.specs.OneSession.{Accepted, HasLineNext, IsNextOf};
ghost use Rattle.client_session.specs.Sessions.{Heard, KeepsKinds};
ghost use Rattle.lobby_holds.specs.Wire.{Wire, ReadsBytes, MayGoOn, got_count};
ghost use Rattle.lobby_holds.specs.Snapshot.{among, snapshot, Carries};
ghost use Rattle.lobby_holds.specs.Went.{Went};
ghost use Rattle.lobby_holds.specs.Holds.{HasNoSpoiltNext, IsAhead};

use crate::buffer::{Buffer, Buffers, PIECE};
use crate::gate::Gate;
use crate::link::{Got, Link, Sent};
use crate::login_log::{Asked, Visit};
use client_session::{Next, Session};
use command_grammar::Command;
use line_framer::FeedError;
use lobby_lock::Held;
use lobby_machine::LoginAnswer;
use server_log::{Cause, Happening};
use std::alloc::{AllocError, Global};
use std::marker::Model;

/// What is next of a client's lines.
#[derive(Clone, Copy)]
pub enum Ahead {
    /// A whole line.
    Line,
    /// Nothing yet.
    Nothing,
    /// A place that is spoilt for ever.
    Spoilt,
}

/// The connection of one client: its session, and the bytes that are on their way. Contracts see
/// those that were read and not yet fed, and those that were drained and not yet written. In a turn it
/// has buffers for both, which are lent to it. Between turns it has one only for bytes that wait.
#[derive(Drop)]
pub struct Conn {
    pub(crate) session: Session,
    pub(crate) unfed: Buffer,
    pub(crate) unwritten: Buffer,
    // for operators
    visit: Visit,
}

impl Model for Conn {
    ghost use Rattle.lobby_holds.specs.Snapshot.{Carried};

    ghost Value = { Carried };

    ghost view = { λ c. record { session = c.session; unfed = c.unfed.bytes; unwritten = c.unwritten.bytes } };
}

impl Conn {
    /// The connection of a client from which nothing came yet. It takes no memory.
    pub fn new(alloc: Global, client: u64) -> Conn
        ensures client { result.session.client ≡ client }
        ensures nothing { (wire : Wire) (pass : ShownPass) → wire.read ≡ Some [] → wire.written ≡ Some []
            → Carries (snapshot result wire pass) [] 0 [] }
        ensures unfed { result.unfed ≡ [] }
        ensures unwritten { result.unwritten ≡ [] }
    {
        Conn {
            session: Session::new(alloc, client),
            unfed: Buffer::new(alloc),
            unwritten: Buffer::new(alloc),
            visit: Visit::new(),
        }
    }

    /// The number of its client.
    pub fn client(&self) -> u64
        ensures { result ≡ self.now.session.client }
    {
        self.session.client()
    }

    /// What its client asks next, as `Session::next_request` says.
    pub fn next_request(&self) -> Result<Next, AllocError>
        ensures ok { IfOk result (λ next. IsNextOf (Some self.now.session) next) }
        ensures kinds { IfOk result KeepsKinds }
        ensures line { OnErr result (HasLineNext self.now.session) }
    {
        self.session.next_request()
    }

    /// What is next. It reads no request and takes no memory.
    pub fn ahead(&self) -> Ahead
        ensures { IsAhead result self.now.session }
    {
        if self.session.has_line() {
            Ahead::Line
        } else if self.session.is_ready() {
            Ahead::Spoilt
        } else {
            Ahead::Nothing
        }
    }

    /// Whether a spoilt place is next. It reads no request and takes no memory.
    pub fn is_spoilt_next(&self) -> bool
        ensures spoilt { result ≡ true → IsNextOf (Some self.now.session) Spoilt }
        ensures sound { result ≡ false → HasNoSpoiltNext self.now.session }
    {
        if self.session.has_line() {
            return false;
        }
        self.session.is_ready()
    }

    /// Whether neither a line nor a spoilt place is next.
    pub(crate) fn has_nothing_next(&self) -> bool
        ensures { result ≡ true → IsNextOf (Some self.now.session) Nothing }
    {
        !self.session.is_ready()
    }

    /// What was drained and not yet written.
    pub fn rest(&self) -> &[u8]
        ensures { result.now ≡ self.now.unwritten }
    {
        self.unwritten.as_slice()
    }

    /// Whether all that was read was fed.
    pub fn is_fed(&self) -> bool
        ensures { IsTrue result ↔ (self.now.unfed ≡ []) }
    {
        self.unfed.is_empty()
    }

    /// Whether all that was drained was written.
    pub fn is_written(&self) -> bool
        ensures { IsTrue result ↔ (self.now.unwritten ≡ []) }
    {
        self.rest().is_empty()
    }

    /// So many bytes more were written.
    pub fn count_written(&mut self, count: usize)
        requires { count ≤ length self.old.unwritten }
        ensures { self.new ≡ record self.old { unwritten = drop count self.old.unwritten } }
    {
        self.unwritten.consume(count);
    }

    /// A turn begins: it is lent buffers, where it has none.
    pub fn lend(&mut self, buffers: &mut Buffers)
        ensures { self.new ≡ self.old }
    {
        self.unfed.take(&mut buffers.unfed);
        self.unwritten.take(&mut buffers.unwritten);
    }

    /// A turn is over: it gives back each buffer in which no bytes wait.
    pub fn settle(&mut self, buffers: &mut Buffers)
        ensures { self.new ≡ self.old }
    {
        self.unfed.give_back(&mut buffers.unfed);
        self.unwritten.give_back(&mut buffers.unwritten);
    }

    /// Feeds what was read and not yet fed. Where memory is refused, nothing changes, and no spoilt place is next.
    pub fn feed(&mut self) -> Result<(), AllocError>
        ensures went { OnOk result ((others : List ℕ) (wire : Wire) (pass : ShownPass)
            → Went (among others self.old wire pass) (among others self.new wire pass) []) }
        ensures fed { OnOk result (self.new.unfed ≡ []) }
        ensures unwritten { self.new.unwritten ≡ self.old.unwritten }
        ensures err { OnErr result ((self.new ≡ self.old) × (self.old.unfed ≢ []) × HasNoSpoiltNext self.old.session) }
    {
        if self.unfed.is_empty() {
            return Ok(());
        }
        feed_session(&mut self.session, self.unfed.as_slice())?;
        self.unfed.clear();
        Ok(())
    }

    /// Reads so many bytes at most, and 16,384 at once where the last read gave a piece or more: so a burst comes in
    /// few reads, and who sends little needs no more than a piece. All that was read before was fed.
    pub fn read<L: Link>(&mut self, link: &mut L, most: usize) -> Result<Got, AllocError>
        requires fed { self.old.unfed ≡ [] }
        requires some { 1 ≤ most }
        requires wire { MayGoOn (L.wire link.old) }
        ensures went { (others : List ℕ) (pass : ShownPass)
            → Went (among others self.old (L.wire link.old) pass) (among others self.new (L.wire link.new) pass) [] }
        ensures bytes { IfOk result (λ got. ReadsBytes (L.wire link.old) (L.wire link.new) (got_count got)) }
        ensures few { IfOk result (λ got. (got_count got ≤ most) × (got_count got ≤ 16384)) }
        ensures session { self.new.session ≡ self.old.session }
        ensures unwritten { self.new.unwritten ≡ self.old.unwritten }
        ensures none { IfOk result (λ got. got_count got ≡ 0 → self.new ≡ self.old) }
        ensures reads { OnOk result ((L.wire link.new).reads ≡ (L.wire link.old).reads + 1) }
        ensures writes { (L.wire link.new).writes ≡ (L.wire link.old).writes }
        ensures failures { (L.wire link.new).failures ≤ (L.wire link.old).failures + 1 }
        ensures last_got { IfOk result (λ got. (L.wire link.new).last_got ≡ Some got) }
        ensures last_sent { (L.wire link.new).last_sent ≡ (L.wire link.old).last_sent }
        ensures err { OnErr result ((self.new ≡ self.old) × (L.wire link.new ≡ L.wire link.old)) }
    {
        self.unfed.make_room()?;
        if is_burst(link.last_got()) {
            self.unfed.widen();
        }
        Ok(self.unfed.read(link, most))
    }

    /// Accepts the next line, where one is there; else nothing changes.
    pub(crate) fn accept(&mut self)
        ensures session { Accepted (Some self.old.session) (Some self.new.session) }
        ensures client { self.new.session.client ≡ self.old.session.client }
        ensures unfed { self.new.unfed ≡ self.old.unfed }
        ensures unwritten { self.new.unwritten ≡ self.old.unwritten }
    {
        self.session.accept_next();
    }

    /// What operators may be told of this command, which is said next in a hold that goes on.
    pub(crate) fn asked(&self, held: &Held, command: &Command) -> Asked {
        Asked::of(held, self.client(), command)
    }

    /// The client's line was said in a hold that goes on, and so it was answered if it was a login: notes what became
    /// of it, and has operators told of a login.
    pub(crate) fn note<G: Gate>(&mut self, gate: &G, asked: Asked, login: Option<LoginAnswer>)
        ensures { self.new ≡ self.old }
    {
        let client = self.session.client();
        self.visit.note(client, gate, asked, login);
    }

    /// Notes for operators where the client connected from. Until then that is 0.0.0.0.
    pub fn came_from(&mut self, ip: [u8; 4])
        ensures { self.new ≡ self.old }
    {
        self.visit.came_from(ip);
    }

    /// Notes for operators that the lobby said that nothing will ever come of the client.
    pub fn finish(&mut self)
        ensures { self.new ≡ self.old }
    {
        self.visit.finish();
    }

    /// What operators are told where the client was shut now, over this link: that its user, if it had one, is logged
    /// out, and why; by this cause where neither client nor link gave one.
    pub fn logout<L: Link>(&self, link: &L, otherwise: Cause) -> Option<Happening> {
        let has_failed = link.last_got() == Some(Got::Fault)
            || link.last_sent() == Some(Sent::Fault);
        let cause = self
            .visit
            .cause(self.is_spoilt_next(), has_failed)
            .unwrap_or(otherwise);
        self.visit.logout(self.client(), cause)
    }

    /// What operators are told where the client has gone: how often more than they were told its logins were denied, if
    /// any was.
    pub fn denied_more(&self) -> Option<Happening> {
        self.visit.denied_more(self.client())
    }
}

/// Whether more may wait behind what the last read gave than a buffer of one piece has room for.
fn is_burst(last_got: Option<Got>) -> bool {
    matches!(last_got, Some(Got::Bytes(count)) if count >= PIECE)
}

/// Feeds a piece to a session. Where memory is refused, nothing changes.
fn feed_session(session: &mut Session, piece: &[u8]) -> Result<(), AllocError>
    ensures client { OnOk result (session.new.client ≡ session.old.client) }
    ensures heard { OnOk result ((bytes : List ℕ) (accepted : ℕ) → Heard session.old.framed bytes accepted
        → Heard session.new.framed (bytes ++ piece.now) accepted) }
    ensures err { OnErr result ((session.new ≡ session.old) × HasNoSpoiltNext session.old) }
{
    match session.feed(piece) {
        Err(FeedError::Memory) => Err(AllocError),
        Ok(()) | Err(FeedError::Spoilt) => Ok(()),
    }
}
