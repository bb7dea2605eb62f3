//! What an event sends: lines, each printed once, and who gets them, in the order of telling.

ghost use Rattle.std.specs.Prelude.{◌≡◌, ℕ, ◌<◌, ◌≤◌, [], ◌∷◌, ◌++◌, length, OnOk, OnErr};
ghost use Rattle.std.specs.Map.{keys_of};
ghost use Rattle.reply_kinds.specs.Replies.{printed_line};
ghost use Rattle.lobby_post.specs.Mask.{has_home};
ghost use Rattle.lobby_post.specs.Mail.{AreDue, AreReady, HaveLimit, WantsMemory, bytes_for, plain, deliver};
ghost use Rattle.lobby_post.specs.Mail.{wakes_home};
ghost use Rattle.lobby_post.specs.Dirty.{line_of, listings_of, stands, AreKnown, IsNewly};
ghost use Rattle.lobby_post.specs.Posted.{begun, blank, telling, with_own, with_others, copy_to, addressed, Told};
ghost use Rattle.lobby_post.specs.Amounts.{bytes_in_all, counted_on};
ghost use Rattle.lobby_model.specs.State.{State};
ghost use Rattle.lobby_model.specs.Outcome.{tell, issuer};

use crate::buffer_pool::BufferPool;
use crate::delivery;
use crate::delivery::Delivery;
use crate::dirty::DirtyLists;
use crate::key::ClientKey;
use crate::shares::{add_share, add_share_of_line, forget_line};
use crate::slots::Slots;
use crate::wakes::Wakes;
use bytes::Bytes;
use reply_kinds::Reply;
use reply_printer::{print, print_id};
use std::alloc::{AllocError, Global};
use std::collections::VecDeque;
use std::marker::Model;

/// The room, in bytes, that the text keeps from event to event. They hold thirty lines as long as a
/// client may send, or thousands of short ones: so only the burst of a login among thousands of users
/// asks for memory anew. A lobby has one such text.
const KEPT_TEXT: usize = 262_144;

/// For how many shares there is room from event to event. One stands there for each client that gets a
/// long line: so only one for a thousand clients and more asks for memory anew.
const KEPT_SHARES: usize = 1_024;

/// The lines of the event at hand, and which client gets which of them. Its buffers are kept from
/// event to event, so that a recipient costs no print, and no memory once they have grown. A long
/// line takes a block of its own, which all who get it share.
///
/// What tells fails only where memory is refused. What was told of the event is then given up: the
/// next thing to do is to begin another one.
pub struct Post {
    alloc: Global,
    issuer: u64,
    id: Option<u32>,
    text: Vec<u8>,
    pieces: Vec<Delivery>,
    /// The shares of those pieces that are long, in their order.
    shares: VecDeque<Bytes>,
    /// Where the lines begin that are being told, as the issuer gets them, and as others get them.
    own: usize,
    shared: usize,
    /// The lines that are being told, as others get them, once one of them got a share of them.
    line: Option<Bytes>,
}

impl Drop for Post {
    /// Who lets a post go calls this, and need not know what it is made of.
    fn drop(self) {
        let Post {
            alloc: _,
            issuer: _,
            id: _,
            text,
            pieces,
            shares,
            own: _,
            shared: _,
            line,
        } = self;
        drop(text);
        drop(pieces);
        drop(shares);
        drop(line);
    }
}

impl Model for Post {
    ghost use Rattle.std.specs.Prelude.{◌≡◌, ◌≤◌, drop, length, IfSome};
    ghost use Rattle.std.specs.List.{AllByRecursion};
    ghost use Rattle.lobby_post.specs.Dues.{shares_of};
    ghost use Rattle.lobby_post.specs.Posted.{Posted};
    ghost use Rattle.lobby_post.specs.Pieces.{LiesIn, pieces_of};

    ghost Value = { Posted };

    ghost view = { λ p. record {
      issuer = p.issuer;
      id = p.id;
      text = length p.text.items;
      own = drop p.own
          p.text.items;
      shared = drop p.shared p.text.items;
      sent = pieces_of p.text.items p.pieces.items;
    } };

    ghost invariant = { λ p. AllByRecursion (LiesIn p.text.items) p.pieces.items × (p.own ≤ length p.text.items)
        × (p.shared ≤ length p.text.items)
        × (p.shares.items ≡ shares_of (pieces_of p.text.items p.pieces.items))
        × IfSome p.line (λ line. line ≡ drop p.shared p.text.items) };
}

impl Post {
    /// Nothing is told.
    pub fn new(alloc: Global) -> Post
        ensures { result ≡ begun 0 None }
    {
        Post {
            alloc,
            issuer: 0,
            id: None,
            text: Vec::new(alloc),
            pieces: Vec::new(alloc),
            shares: VecDeque::new(alloc),
            own: 0,
            shared: 0,
            line: None,
        }
    }

    /// An event of a client begins, under the id of its request.
    pub fn begin(&mut self, issuer: u64, id: Option<u32>)
        ensures { self.new ≡ begun issuer id }
    {
        self.issuer = issuer;
        self.id = id;
        self.pieces.clear();
        self.shares.clear();
        self.shares.shrink_to(KEPT_SHARES);
        self.text.clear();
        self.text.shrink_to(KEPT_TEXT);
        self.own = 0;
        self.shared = 0;
        forget_line(&mut self.line);
    }

    /// The client whose event it is.
    pub fn issuer(&self) -> u64
        ensures { result ≡ self.now.issuer }
    {
        self.issuer
    }

    /// Prints the line that is told next, in place of those before it. Its issuer gets it behind the id
    /// of its request.
    pub fn write(&mut self, line: Reply) -> Result<(), AllocError>
        ensures { OnOk result (self.new ≡ telling self.old (printed_line self.old.id line.entry)
            (printed_line None line.entry) (length (printed_line self.old.id line.entry))) }
    {
        forget_line(&mut self.line);
        let own = self.text.len();
        print_id(self.id, &mut self.text)?;
        let shared = self.text.len();
        print(&line, None, &mut self.text)?;
        self.own = own;
        self.shared = shared;
        Ok(())
    }

    /// Prints the line that is told next to others, in place of those before it: its issuer gets
    /// nothing of it.
    pub fn write_for_others(&mut self, line: Reply) -> Result<(), AllocError>
        ensures { OnOk result (self.new ≡ telling self.old [] (printed_line None line.entry)
            (length (printed_line None line.entry))) }
    {
        forget_line(&mut self.line);
        let shared = self.text.len();
        print(&line, None, &mut self.text)?;
        self.own = self.text.len();
        self.shared = shared;
        Ok(())
    }

    /// Prints one more line that is told to others: its issuer gets nothing of them.
    pub fn write_more_for_others(&mut self, line: Reply) -> Result<(), AllocError>
        ensures { OnOk result (self.new ≡ with_others self.old (line.entry ∷ [])) }
    {
        forget_line(&mut self.line);
        print(&line, None, &mut self.text)?;
        self.own = self.text.len();
        Ok(())
    }

    /// Lines for the issuer alone begin, in place of those before them. It gets them as one piece.
    pub fn begin_own(&mut self)
        ensures { self.new ≡ blank self.old }
    {
        forget_line(&mut self.line);
        self.own = self.text.len();
        self.shared = self.own;
    }

    /// Prints one more line for the issuer alone, behind the id of its request.
    pub fn write_own(&mut self, line: Reply) -> Result<(), AllocError>
        ensures { OnOk result (self.new ≡ with_own self.old (line.entry ∷ [])) }
    {
        forget_line(&mut self.line);
        let id = self.id;
        print(&line, id, &mut self.text)?;
        Ok(())
    }

    /// The issuer gets the lines that are told.
    pub fn address_issuer(&mut self) -> Result<(), AllocError>
        ensures { OnOk result (self.new ≡ addressed self.old (self.old.issuer ∷ [])) }
    {
        let issuer = self.issuer;
        self.address(issuer)
    }

    /// A client gets the lines that are told.
    fn address(&mut self, client: u64) -> Result<(), AllocError>
        ensures { OnOk result (self.new ≡ record self.old { sent = self.old.sent ++ copy_to self.old client ∷ [] }) }
    {
        self.address_key(ClientKey::of(client))
    }

    /// A key's client gets the lines that are told, or a share of them where they are long.
    pub fn address_key(&mut self, key: ClientKey) -> Result<(), AllocError>
        ensures { OnOk result (self.new ≡ record self.old {
          sent = self.old.sent ++ copy_to self.old key.number
              ∷ [];
        }) }
    {
        let from = if key.number == self.issuer {
            self.own
        } else {
            self.shared
        };
        let to = self.text.len();
        self.pieces.reserve(1)?;
        let bytes = &self.text[from..to];
        if from == self.shared {
            add_share_of_line(self.alloc, &mut self.line, bytes, &mut self.shares)?;
        } else {
            add_share(self.alloc, bytes, &mut self.shares)?;
        }
        self.pieces.push_reserved(Delivery { key, from, to });
        Ok(())
    }

    /// Tells the issuer alone.
    pub fn tell_issuer(&mut self, line: Reply) -> Result<(), AllocError>
        ensures { OnOk result ((s : State) → Told s self.old self.new (tell issuer (line.entry ∷ []) ∷ [])) }
    {
        self.write(line)?;
        self.address_issuer()?;
        Ok(())
    }

    /// Makes room for all that is told, in each outbox that takes it: all of that is due then, and
    /// `deliver` cannot fail. No client sees a difference. Where memory is refused, nothing is due.
    pub(crate) fn reserve(&self, slots: &mut Slots, pool: &mut BufferPool) -> Result<(), AllocError>
        requires due { AreDue [] slots.old }
        ensures clients { plain slots.new ≡ plain slots.old }
        ensures limits { (limit : ℕ) → HaveLimit limit slots.old → HaveLimit limit slots.new }
        ensures due { OnOk result (AreDue self.now.sent slots.new) }
        ensures ready { OnOk result (AreReady slots.new) }
        ensures err { OnErr result (AreDue [] slots.new) }
        ensures wanted { OnErr result (WantsMemory self.now.sent slots.old) }
        ensures same_listings { listings_of slots.new ≡ listings_of slots.old }
    {
        delivery::reserve(slots, pool, &self.text, &self.pieces)
    }

    /// Gives up what `reserve` promised: nothing is due any more. What was told stays told.
    pub(crate) fn cancel(&self, slots: &mut Slots)
        requires due { AreDue self.now.sent slots.old }
        ensures clients { plain slots.new ≡ plain slots.old }
        ensures limits { (limit : ℕ) → HaveLimit limit slots.old → HaveLimit limit slots.new }
        ensures due { AreDue [] slots.new }
        ensures same_listings { listings_of slots.new ≡ listings_of slots.old }
    {
        delivery::cancel(slots, &self.text, &self.pieces);
    }

    /// Puts all that is told, to each client whole or not at all. Those that it touched and that did
    /// not wait do so from then on. Gives the workers of those that it touched, and adds to `told` how many
    /// bytes the clients that are there are told. That count begins anew behind 2^64 - 1. Nothing is told any
    /// more then, and no share is kept.
    pub(crate) fn deliver(
        &mut self,
        slots: &mut Slots,
        dirty: &mut DirtyLists,
        told: &mut u64,
    ) -> Wakes
        requires due { AreDue self.old.sent slots.old }
        requires ready { AreReady slots.old }
        ensures clients { (limit : ℕ) → HaveLimit limit slots.old
            → plain slots.new ≡ deliver limit self.old.sent (plain slots.old) }
        ensures limits { (limit : ℕ) → HaveLimit limit slots.old → HaveLimit limit slots.new }
        ensures due { AreDue [] slots.new }
        ensures told { told.new ≡ counted_on told.old (bytes_in_all (bytes_for self.old.sent) (keys_of slots.old)) }
        ensures wakes { (limit home : ℕ)
            → has_home result home ≡ wakes_home limit self.old.sent (plain slots.old) home }
        ensures homes { (home c : ℕ) → stands (listings_of slots.new) home c ≡ stands (listings_of slots.old) home c }
        ensures known { (n : ℕ) → AreKnown (listings_of slots.old) (line_of dirty.old) n
            → AreKnown (listings_of slots.new) (line_of dirty.new) n }
        ensures newly { (n home : ℕ) → AreKnown (listings_of slots.old) (line_of dirty.old) n → home < 64
            → IsNewly self.old.sent slots.old home (line_of dirty.old home).waiting (line_of dirty.new home).waiting }
    {
        let wakes = delivery::deliver(
            slots,
            dirty,
            &self.text,
            &self.pieces,
            &mut self.shares,
            told,
        );
        self.pieces.clear();
        forget_line(&mut self.line);
        wakes
    }
}
