//! A happening as its line.

ghost use Rattle.std.specs.Prelude.{◌≡◌, ◌∷◌, [], ◌++◌, codes, decimal, OnOk};
ghost use Rattle.std.specs.List.{flat_map};
ghost use Rattle.server_log.specs.Lines.{IsOneLine, field, harmless, harmless_byte, hex, is_plain};
ghost use Rattle.server_log.specs.Fields.{fields_of, ip_fields, ip_text, line_of, place_word, refusal_word};

use crate::happening::{Happening, Refusal, Started};
use crate::text::ShortText;
use itoa::Buffer;
use std::alloc::AllocError;

/// Appends the line of a happening, with its LF. Where memory is refused, what was appended is the front of a line.
pub fn print(out: &mut Vec<u8>, happening: &Happening) -> Result<(), AllocError>
    ensures line { OnOk result (out.new.items ≡ out.old.items ++ line_of happening.now) }
    ensures one { OnOk result (IsOneLine (line_of happening.now)) }
{
    put_harmless(out, happening.word().as_bytes())?;
    put_fields(out, happening)?;
    out.push(b'\n')?;
    Ok(())
}

/// Appends the fields of a happening.
fn put_fields(out: &mut Vec<u8>, happening: &Happening) -> Result<(), AllocError>
    ensures { OnOk result (out.new.items ≡ out.old.items ++ flat_map field (fields_of happening.now)) }
{
    match happening {
        Happening::Started(started) => put_started(out, started),
        Happening::RecordStarted { folder } => put_text(out, "folder", folder),
        Happening::RecordEnded { reason, place } => put_ended(out, reason.word(), *place),
        Happening::Login { client, name, ip } => put_named(out, name, *client, *ip),
        Happening::Denied {
            client,
            name,
            reason,
            ip,
        } => put_denied(out, name, reason.word(), *client, *ip),
        Happening::DeniedMore { client, count, ip } => put_denied_more(out, *count, *client, *ip),
        Happening::Logout {
            client,
            name,
            cause,
        } => put_outcome(out, name, ("cause", cause.word()), *client),
        Happening::Refused { reason, ip } => put_refused(out, *reason, *ip),
        Happening::MemoryRefused { worker } => put_count(out, "worker", u64::from(*worker)),
        Happening::Reserve(state) => put_only(out, "state", state.word()),
        Happening::Stopped { worker, events } => put_stopped(out, *worker, *events),
        Happening::Lost(lines) => put_count(out, "lost", *lines),
    }
}

/// Appends the fields of a server that has started.
fn put_started(out: &mut Vec<u8>, started: &Started) -> Result<(), AllocError>
    ensures { OnOk result (out.new.items
        ≡ out.old.items ++ flat_map field (fields_of (Happening.Started started.now))) }
{
    put_field(out, "version", started.version.as_bytes())?;
    put_field(out, "address", started.address.as_slice())?;
    put_sizes(out, started)?;
    Ok(())
}

/// Appends how large a server is that has started.
fn put_sizes(out: &mut Vec<u8>, started: &Started) -> Result<(), AllocError>
    ensures { OnOk result (out.new.items
        ≡ out.old.items ++ flat_map field ((codes "workers", decimal started.now.workers)
        ∷ (codes "client_limit", decimal started.now.client_limit)
        ∷ (codes "outbox_limit", decimal started.now.outbox_limit) ∷ (codes "accounts", decimal started.now.accounts)
        ∷ [])) }
{
    put_number(out, "workers", u64::from(started.workers))?;
    put_number(out, "client_limit", started.client_limit)?;
    put_number(out, "outbox_limit", started.outbox_limit)?;
    put_number(out, "accounts", started.accounts)?;
    Ok(())
}

/// Appends a client's name, its number and where it comes from.
fn put_named(
    out: &mut Vec<u8>,
    name: &ShortText,
    client: u64,
    ip: [u8; 4],
) -> Result<(), AllocError>
    ensures { OnOk result (out.new.items
        ≡ out.old.items ++ flat_map field ((codes "name", name.now) ∷ (codes "client", decimal client)
        ∷ (codes "ip", ip_text ip) ∷ [])) }
{
    put_field(out, "name", name.as_slice())?;
    put_number(out, "client", client)?;
    put_ip(out, ip)?;
    Ok(())
}

/// Appends the name that a client asked for, why it was denied, and the client.
fn put_denied(
    out: &mut Vec<u8>,
    name: &ShortText,
    reason: &str,
    client: u64,
    ip: [u8; 4],
) -> Result<(), AllocError>
    ensures { OnOk result (out.new.items
        ≡ out.old.items ++ flat_map field ((codes "name", name.now) ∷ (codes "reason", reason.now)
        ∷ (codes "client", decimal client) ∷ (codes "ip", ip_text ip) ∷ [])) }
{
    put_outcome(out, name, ("reason", reason), client)?;
    put_ip(out, ip)?;
    Ok(())
}

/// Appends how often more a client was denied, and the client.
fn put_denied_more(
    out: &mut Vec<u8>,
    count: u64,
    client: u64,
    ip: [u8; 4],
) -> Result<(), AllocError>
    ensures { OnOk result (out.new.items
        ≡ out.old.items ++ flat_map field ((codes "count", decimal count) ∷ (codes "client", decimal client)
        ∷ (codes "ip", ip_text ip) ∷ [])) }
{
    put_number(out, "count", count)?;
    put_number(out, "client", client)?;
    put_ip(out, ip)?;
    Ok(())
}

/// Appends why a connection was refused, and from where it came if that is known.
fn put_refused(out: &mut Vec<u8>, reason: Refusal, ip: Option<[u8; 4]>) -> Result<(), AllocError>
    ensures { OnOk result (out.new.items
        ≡ out.old.items ++ flat_map field ((codes "reason", refusal_word reason) ∷ ip_fields ip)) }
{
    put_field(out, "reason", reason.word().as_bytes())?;
    match ip {
        Some(ip) => put_ip(out, ip),
        None => Ok(()),
    }
}

/// Appends why a record ended, and the last place that it has.
fn put_ended(out: &mut Vec<u8>, reason: &str, place: Option<u64>) -> Result<(), AllocError>
    ensures { OnOk result (out.new.items
        ≡ out.old.items ++ flat_map field ((codes "reason", reason.now) ∷ (codes "place", place_word place) ∷ [])) }
{
    put_field(out, "reason", reason.as_bytes())?;
    match place {
        Some(place) => put_number(out, "place", place),
        None => put_field(out, "place", b"none"),
    }
}

/// Appends a client's name, what became of it, and its number.
fn put_outcome(
    out: &mut Vec<u8>,
    name: &ShortText,
    outcome: (&str, &str),
    client: u64,
) -> Result<(), AllocError>
    ensures { OnOk result (out.new.items
        ≡ out.old.items ++ flat_map field ((codes "name", name.now) ∷ (outcome.entry.0.now, outcome.entry.1.now)
        ∷ (codes "client", decimal client) ∷ [])) }
{
    let (key, value) = outcome;
    put_field(out, "name", name.as_slice())?;
    put_field(out, key, value.as_bytes())?;
    put_number(out, "client", client)?;
    Ok(())
}

/// Appends the only field of a happening.
fn put_only(out: &mut Vec<u8>, key: &str, value: &str) -> Result<(), AllocError>
    ensures { OnOk result (out.new.items ≡ out.old.items ++ flat_map field ((key.now, value.now) ∷ [])) }
{
    put_field(out, key, value.as_bytes())?;
    Ok(())
}

/// Appends the only field of a happening, a text.
fn put_text(out: &mut Vec<u8>, key: &str, text: &ShortText) -> Result<(), AllocError>
    ensures { OnOk result (out.new.items ≡ out.old.items ++ flat_map field ((key.now, text.now) ∷ [])) }
{
    put_field(out, key, text.as_slice())?;
    Ok(())
}

/// Appends the only field of a happening, a number.
fn put_count(out: &mut Vec<u8>, key: &str, n: u64) -> Result<(), AllocError>
    ensures { OnOk result (out.new.items ≡ out.old.items ++ flat_map field ((key.now, decimal n) ∷ [])) }
{
    put_number(out, key, n)?;
    Ok(())
}

/// Appends the fields of a worker that stopped.
fn put_stopped(out: &mut Vec<u8>, worker: u8, events: Option<u64>) -> Result<(), AllocError>
    ensures { OnOk result (out.new.items
        ≡ out.old.items ++ flat_map field (fields_of (Happening.Stopped worker events))) }
{
    put_number(out, "worker", u64::from(worker))?;
    match events {
        Some(events) => put_number(out, "events", events),
        None => put_field(out, "events", b"full"),
    }
}

/// Appends a field with a number.
#[tactic(auto, unfolding(crate::specs::Lines::field))]
fn put_number(out: &mut Vec<u8>, key: &str, n: u64) -> Result<(), AllocError>
    ensures { OnOk result (out.new.items ≡ out.old.items ++ field (key.now, decimal n)) }
{
    put_key(out, key)?;
    put_decimal(out, n)
}

/// Appends the field of an address.
#[tactic(auto, unfolding(crate::specs::Lines::field, crate::specs::Lines::harmless))]
fn put_ip(out: &mut Vec<u8>, ip: [u8; 4]) -> Result<(), AllocError>
    ensures { OnOk result (out.new.items ≡ out.old.items ++ field (codes "ip", ip_text ip)) }
{
    put_key(out, "ip")?;
    put_decimal(out, u64::from(ip[0]))?;
    put_octet(out, ip[1])?;
    put_octet(out, ip[2])?;
    put_octet(out, ip[3])
}

/// Appends a further number of an address, behind its dot.
#[tactic(auto, unfolding(crate::specs::Lines::harmless))]
fn put_octet(out: &mut Vec<u8>, octet: u8) -> Result<(), AllocError>
    ensures { OnOk result (out.new.items ≡ out.old.items ++ harmless (46 ∷ decimal octet)) }
{
    put_byte(out, b'.')?;
    put_decimal(out, u64::from(octet))
}

/// Appends a field.
#[tactic(auto, unfolding(crate::specs::Lines::field))]
fn put_field(out: &mut Vec<u8>, key: &str, value: &[u8]) -> Result<(), AllocError>
    ensures { OnOk result (out.new.items ≡ out.old.items ++ field (key.now, value.now)) }
{
    put_key(out, key)?;
    put_harmless(out, value)
}

/// Appends what stands before a value.
fn put_key(out: &mut Vec<u8>, key: &str) -> Result<(), AllocError>
    ensures { OnOk result (out.new.items ≡ out.old.items ++ (32 ∷ harmless key.now ++ 61 ∷ [])) }
{
    out.push(b' ')?;
    put_harmless(out, key.as_bytes())?;
    out.push(b'=')?;
    Ok(())
}

/// Appends a number.
fn put_decimal(out: &mut Vec<u8>, n: u64) -> Result<(), AllocError>
    ensures { OnOk result (out.new.items ≡ out.old.items ++ harmless (decimal n)) }
{
    let mut digits = Buffer::new();
    put_harmless(out, digits.format(n).as_bytes())
}

/// Appends bytes in their harmless form.
#[tactic(auto, unfolding(crate::specs::Lines::harmless))]
fn put_harmless(out: &mut Vec<u8>, bytes: &[u8]) -> Result<(), AllocError>
    ensures { OnOk result (out.new.items ≡ out.old.items ++ harmless bytes.now) }
{
    for byte in bytes {
        put_byte(out, *byte)?;
    }
    Ok(())
}

/// Appends a byte in its harmless form.
fn put_byte(out: &mut Vec<u8>, byte: u8) -> Result<(), AllocError>
    ensures { OnOk result (out.new.items ≡ out.old.items ++ harmless_byte byte) }
{
    if is_plain(byte) {
        out.push(byte)?;
        return Ok(());
    }
    out.push(b'%')?;
    out.push(hex(byte / 16))?;
    out.push(hex(byte))?;
    Ok(())
}

/// Whether a byte stands as it is.
fn is_plain(byte: u8) -> bool
    ensures { result ≡ is_plain byte }
{
    (b'0' <= byte && byte <= b':')
        || (b'A' <= byte && byte <= b'[')
        || (b'a' <= byte && byte <= b'z')
        || byte == b'-'
        || byte == b'.'
        || byte == b']'
        || byte == b'_'
}

/// The hexadecimal digit of a number's last four bits.
fn hex(n: u8) -> u8
    ensures { result ≡ hex n }
{
    let digit = n % 16;
    if digit < 10 { 48 + digit } else { 55 + digit }
}
