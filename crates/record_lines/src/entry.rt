//! The lines of an event in a record.
#![tactic(auto, using(reply_printer::proofs::Kept::front_more, reply_printer::proofs::Kept::front_all))]

ghost use Rattle.std.specs.Prelude.{◌≡◌, ◌≤◌, Err, IfErr, OnErr, OnOk, vec_capacity};
ghost use Rattle.std.specs.List.{AllByRecursion};
ghost use Rattle.account_book.specs.Account.{IsHeld};
ghost use Rattle.reply_printer.specs.Fronts.{Keeps};
ghost use Rattle.record_lines.specs.Entries.{EntryWants, Records, Refuses};

use crate::fault::RecordFault;
use crate::lines::{put_open, put_read, put_shut};
use crate::masks::Masks;
use crate::said::put_said;
use lobby_model::{Event, MadeEvent};
use std::alloc::Global;

/// Appends the lines of an event, by way of a text that is lent for its request. Where it fails nothing is appended.
/// For a request that was read of a client's line only memory or a number of more than 32 bits is why. Memory is
/// refused only where one of the two lacks room, or the request is not written as it is.
pub fn put_entry(
    alloc: Global,
    out: &mut Vec<u8>,
    text: &mut Vec<u8>,
    masks: &Masks,
    made: &MadeEvent,
) -> Result<(), RecordFault>
    ensures records { OnOk result (Records masks.now made.now out.old.items out.new.items) }
    ensures refused { AllByRecursion IsHeld masks.now.accounts
        → IfErr result (λ e. Refuses e made.now.gain made.now.event) }
    ensures wanted { result ≡ Err RecordFault.Memory
        → EntryWants masks.now made.now.place made.now.gain made.now.event out.old text.old }
    ensures kept { OnErr result (out.new.items ≡ out.old.items) }
    ensures room { vec_capacity out.old ≤ vec_capacity out.new }
{
    let start = out.len();
    match put_lines(alloc, out, text, masks, made) {
        Ok(()) => Ok(()),
        Err(fault) => {
            out.truncate(start);
            Err(fault)
        }
    }
}

/// Appends the lines of an event, or some of them where it fails.
fn put_lines(
    alloc: Global,
    out: &mut Vec<u8>,
    text: &mut Vec<u8>,
    masks: &Masks,
    made: &MadeEvent,
) -> Result<(), RecordFault>
    ensures records { OnOk result (Records masks.now made.now out.old.items out.new.items) }
    ensures refused { AllByRecursion IsHeld masks.now.accounts
        → IfErr result (λ e. Refuses e made.now.gain made.now.event) }
    ensures wanted { result ≡ Err RecordFault.Memory
        → EntryWants masks.now made.now.place made.now.gain made.now.event out.old text.old }
    ensures kept { Keeps out.old.items out.new.items }
    ensures room { vec_capacity out.old ≤ vec_capacity out.new }
{
    let (place, gain) = (made.place, made.gain);
    match &made.event {
        Event::Open { ip, home: _ } => put_open(out, place, gain, *ip),
        Event::Say { client, request } => {
            put_said(alloc, out, text, masks, place, *client, request)
        }
        Event::Drain { client, count: _ } => put_read(out, place, *client, gain),
        Event::Shut { client } => put_shut(out, place, *client),
    }
}
