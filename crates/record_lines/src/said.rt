//! The line of a request.
#![tactic(auto, using(reply_printer::proofs::Kept::front_more, reply_printer::proofs::Kept::front_all))]

ghost use Rattle.std.specs.Prelude.{◌≡◌, ◌≤◌, ◌⊎◌, ◌++◌, [], ◌∷◌, Err, IfErr, IsTrue, OnErr, OnOk, vec_capacity};
ghost use Rattle.reply_kinds.specs.Replies.{id_text};
ghost use Rattle.record_lines.specs.Entries.{IsTextOf, PrintsSaid, SaidWants, TextRefused, TextWants, fault_for};
ghost use Rattle.record_lines.specs.Printed.{NumberRefused};
ghost use Rattle.reply_printer.specs.Fronts.{Keeps, LacksRoom};
ghost use Rattle.record_lines.specs.Masks.{is_other, masked, unread_text};

use crate::fault::RecordFault;
use crate::lines::{put_send, put_take};
use crate::masks::{Masks, unread_text};
use command_grammar::{Command, ReadFault, Request};
use reply_printer::pieces::{put_end, put_id};
use request_printer::{PrintError, print_request};
use std::alloc::{AllocError, Global};

/// Appends the lines of what a client said: its bytes, by way of `text`, and their take.
pub(crate) fn put_said(
    alloc: Global,
    out: &mut Vec<u8>,
    text: &mut Vec<u8>,
    masks: &Masks,
    place: u64,
    client: u64,
    request: &Request,
) -> Result<(), RecordFault>
    ensures ok { OnOk result (PrintsSaid place client (masked masks.now.accounts masks.now.private request.now)
        out.old.items out.new.items) }
    ensures refused { IfErr result (λ e.
        NumberRefused e client ⊎ TextRefused e (masked masks.now.accounts masks.now.private request.now)) }
    ensures wanted { result ≡ Err RecordFault.Memory
        → SaidWants masks.now.accounts masks.now.private place client request.now out.old text.old }
    ensures kept { Keeps out.old.items out.new.items }
    ensures room { vec_capacity out.old ≤ vec_capacity out.new }
{
    put_masked(alloc, text, masks, request)?;
    put_send(out, place, client, text)?;
    put_take(out, place, client)?;
    Ok(())
}

/// Makes of `text` a line, with its LF, for what is written of the request.
fn put_masked(
    alloc: Global,
    text: &mut Vec<u8>,
    masks: &Masks,
    request: &Request,
) -> Result<(), RecordFault>
    ensures text { OnOk result (IsTextOf (masked masks.now.accounts masks.now.private request.now) text.new.items) }
    ensures refused { IfErr result (λ e. TextRefused e (masked masks.now.accounts masks.now.private request.now)) }
    ensures wanted { result ≡ Err RecordFault.Memory → IsTrue (is_other masks.now.private request.now.command)
        ⊎ TextWants (masked masks.now.accounts masks.now.private request.now) (vec_capacity text.old) }
{
    let other = masks.in_place_of(alloc, request)?;
    text.clear();
    match other {
        Some(other) => {
            let put = put_request(text, &other);
            other.discard();
            put
        }
        None => put_request(text, request),
    }
}

/// Appends a line for the request to an empty text, with its LF.
fn put_request(text: &mut Vec<u8>, request: &Request) -> Result<(), RecordFault>
    requires { text.old.items ≡ [] }
    ensures text { OnOk result (IsTextOf request.now text.new.items) }
    ensures refused { IfErr result (λ e. TextRefused e request.now) }
    ensures wanted { result ≡ Err RecordFault.Memory → TextWants request.now (vec_capacity text.old) }
{
    if let Command::Unread(fault) = &request.command {
        put_unread(text, request.id, *fault)?;
        return Ok(());
    }
    match print_request(request, text) {
        Ok(()) => Ok(()),
        Err(error) => Err(fault_of(error)),
    }
}

/// Why a request that was read is not written, by why it is not printed.
fn fault_of(error: PrintError) -> RecordFault
    ensures { result ≡ fault_for error }
{
    match error {
        PrintError::Memory => RecordFault::Memory,
        PrintError::Unread
        | PrintError::OutOfRange
        | PrintError::NothingListed
        | PrintError::Skipped
        | PrintError::TooLong => RecordFault::Line,
    }
}

fn put_unread(text: &mut Vec<u8>, id: Option<u32>, fault: ReadFault) -> Result<(), AllocError>
    ensures ok { OnOk result (text.new.items ≡ text.old.items ++ (id_text id ++ (unread_text fault ++ 10 ∷ []))) }
    ensures wanted { OnErr result (LacksRoom text.old (id_text id ++ (unread_text fault ++ 10 ∷ []))) }
{
    put_id(text, id)?;
    text.extend_from_slice(unread_text(fault))?;
    put_end(text)
}
