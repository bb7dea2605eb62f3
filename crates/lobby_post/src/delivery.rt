//! The pieces of an event, and their delivery.

ghost use Rattle.std.specs.Prelude.{◌≡◌, ℕ, ◌-◌, ◌^◌, ◌<◌, ◌≤◌, [], ◌&&◌, ◌||◌, not, true, length, if◌then◌else◌};
ghost use Rattle.std.specs.Prelude.{OnOk, OnErr};
ghost use Rattle.std.specs.List.{AllByRecursion};
ghost use Rattle.std.specs.Map.{keys_of};
ghost use Rattle.lobby_post.specs.Mask.{has_home};
ghost use Rattle.line_words.specs.Table.{same_number};
ghost use Rattle.lobby_model.specs.State.{is_live};
ghost use Rattle.lobby_model.specs.Touched.{is_touched};
ghost use Rattle.lobby_post.specs.Mail.{AreDue, AreReady, AwaitsPiece, HaveLimit, IsReady, PutsFirst, WantsMemory};
ghost use Rattle.lobby_post.specs.Mail.{bytes_for, plain, deliver, wakes_home, wakes_one};
ghost use Rattle.lobby_post.specs.Dirty.{line_of, listings_of, pushed, stands, AreKnown, IsNewly};
ghost use Rattle.lobby_post.specs.Dues.{due_but, share_of, shares_of};
ghost use Rattle.lobby_post.specs.Pieces.{LiesIn, pieces_of};
ghost use Rattle.lobby_post.specs.Amounts.{bytes_in_all, counted_on};

use crate::amount::with_bytes;
use crate::buffer_pool::BufferPool;
use crate::dirty::DirtyLists;
use crate::key::ClientKey;
use crate::shares::next_share;
use crate::slot::Slot;
use crate::slots::Slots;
use crate::wakes::Wakes;
use bytes::Bytes;
use std::alloc::AllocError;
use std::collections::VecDeque;

/// A client gets a part of the text.
#[derive(Clone, Copy)]
pub struct Delivery {
    /// The client.
    pub key: ClientKey,
    /// How many bytes of the text stand before it.
    pub from: usize,
    /// How many stand before its end.
    pub to: usize,
}

/// Makes room for all pieces, and changes nothing that anyone sees: all of them are due then. Where
/// memory is refused that a client which hears wants, nothing is due.
pub fn reserve(
    clients: &mut Slots,
    pool: &mut BufferPool,
    text: &[u8],
    pieces: &[Delivery],
) -> Result<(), AllocError>
    requires inside { AllByRecursion (LiesIn text.now) pieces.now }
    requires due { AreDue [] clients.old }
    ensures clients { plain clients.new ≡ plain clients.old }
    ensures limits { (limit : ℕ) → HaveLimit limit clients.old → HaveLimit limit clients.new }
    ensures due { OnOk result (AreDue (pieces_of text.now pieces.now) clients.new) }
    ensures ready { OnOk result (AreReady clients.new) }
    ensures same_listings { listings_of clients.new ≡ listings_of clients.old }
    ensures err { OnErr result (AreDue [] clients.new) }
    ensures wanted { OnErr result (WantsMemory (pieces_of text.now pieces.now) clients.old) }
{
    for i in 0..pieces.len() {
        let piece = pieces[i];
        if let Some(slot) = clients.get_mut_at(piece.key) {
            match slot.reserve(piece.to - piece.from, pool) {
                Ok(()) => {}
                Err(refused) => {
                    cancel(clients, text, &pieces[..i]);
                    return Err(refused);
                }
            }
        }
    }
    Ok(())
}

/// Nothing is due any more.
pub fn cancel(clients: &mut Slots, text: &[u8], pieces: &[Delivery])
    requires inside { AllByRecursion (LiesIn text.now) pieces.now }
    requires due { AreDue (pieces_of text.now pieces.now) clients.old }
    ensures clients { plain clients.new ≡ plain clients.old }
    ensures limits { (limit : ℕ) → HaveLimit limit clients.old → HaveLimit limit clients.new }
    ensures due { AreDue [] clients.new }
    ensures same_listings { listings_of clients.new ≡ listings_of clients.old }
{
    for piece in pieces {
        if let Some(slot) = clients.get_mut_at(piece.key) {
            slot.cancel();
        }
    }
}

/// Puts the next piece of what is due to a client, or cuts it. Where that touched the client, it stands
/// in its worker's list from then on. Gives its worker where that touched it.
#[inline(always)]
fn put(
    slot: &mut Slot,
    dirty: &mut DirtyLists,
    client: u64,
    bytes: &[u8],
    share: Option<Bytes>,
) -> Wakes
    requires share { share ≡ share_of bytes.now }
    requires due { AwaitsPiece slot.old (length bytes.now) }
    requires ready { IsReady slot.old }
    ensures client { PutsFirst slot.old.limit slot.old.due.bytes bytes.now slot.old.client slot.new.client }
    ensures limit { slot.new.limit ≡ slot.old.limit }
    ensures due { is_live slot.new.client ≡ true → slot.new.due ≡ due_but slot.old.due (length bytes.now) }
    ensures uncounted { is_live slot.new.client ≡ true → 2 ^ 32 - 1 ≤ slot.old.due.bytes → length bytes.now ≡ 0 }
    ensures ready { IsReady slot.new }
    ensures home { (home : ℕ) → has_home result home ≡ wakes_one slot.old.limit home bytes.now slot.old.client }
    ensures listed { slot.new.listed ≡ (slot.old.listed || is_touched slot.old.limit bytes.now slot.old.client) }
    ensures lines { (h : ℕ) → line_of dirty.new h
        ≡ (if same_number slot.old.client.home h
        && (not slot.old.listed && is_touched slot.old.limit bytes.now slot.old.client)
        then pushed client (line_of dirty.old h) else line_of dirty.old h) }
{
    if !slot.put(bytes, share) {
        return Wakes::none();
    }
    let home = slot.home();
    if slot.list() {
        dirty.push(home, client);
    }
    Wakes::one(home)
}

/// Puts each piece, or cuts its client where not all its pieces fit. Those that it touched and that did
/// not wait do so from then on. The shares of the long pieces are used up. Gives the workers of those
/// that it touched, and adds to `told` the bytes of the pieces whose clients are there.
pub fn deliver(
    clients: &mut Slots,
    dirty: &mut DirtyLists,
    text: &[u8],
    pieces: &[Delivery],
    shares: &mut VecDeque<Bytes>,
    told: &mut u64,
) -> Wakes
    requires inside { AllByRecursion (LiesIn text.now) pieces.now }
    requires shares { shares.old.items ≡ shares_of (pieces_of text.now pieces.now) }
    requires due { AreDue (pieces_of text.now pieces.now) clients.old }
    requires ready { AreReady clients.old }
    ensures clients { (limit : ℕ) → HaveLimit limit clients.old
        → plain clients.new ≡ deliver limit (pieces_of text.now pieces.now) (plain clients.old) }
    ensures limits { (limit : ℕ) → HaveLimit limit clients.old → HaveLimit limit clients.new }
    ensures due { AreDue [] clients.new }
    ensures shares { shares.new.items ≡ [] }
    ensures told { told.new
        ≡ counted_on told.old (bytes_in_all (bytes_for (pieces_of text.now pieces.now)) (keys_of clients.old)) }
    ensures wakes { (limit home : ℕ) → has_home result home
        ≡ wakes_home limit (pieces_of text.now pieces.now) (plain clients.old) home }
    ensures homes { (home c : ℕ) → stands (listings_of clients.new) home c ≡ stands (listings_of clients.old) home c }
    ensures known { (n : ℕ) → AreKnown (listings_of clients.old) (line_of dirty.old) n
        → AreKnown (listings_of clients.new) (line_of dirty.new) n }
    ensures newly { (n home : ℕ) → AreKnown (listings_of clients.old) (line_of dirty.old) n → home < 64
        → IsNewly (pieces_of text.now pieces.now) clients.old home (line_of dirty.old home).waiting
        (line_of dirty.new home).waiting }
{
    let mut wakes = Wakes::none();
    let mut count = *told;
    for piece in pieces {
        let bytes = &text[piece.from..piece.to];
        match clients.get_mut_at(piece.key) {
            Some(slot) => {
                count = with_bytes(count, bytes);
                let share = next_share(bytes, shares);
                wakes = wakes.union(put(slot, dirty, piece.key.number, bytes, share));
            }
            None => {
                let unused = next_share(bytes, shares);
                drop(unused);
            }
        }
    }
    dirty.settle();
    *told = count;
    wakes
}
