//! Settings with memory at hand.

use crate::verdict::{fail, same, same_for};
use line_words::TextBuf;
use lobby_model::settings::{DEFAULT_OUTBOX_LIMIT, GREATEST_OUTBOX_LIMIT, LEAST_OUTBOX_LIMIT};
use lobby_model::{Settings, SettingsError};
use std::alloc::Global;
use std::process::Abort;

/// A message of the day of so many equal lines.
fn message(alloc: Global, count: u32, line: &[u8]) -> Option<Vec<TextBuf>> {
    let mut motd = Vec::new(alloc);
    for _ in 0..count {
        motd.push(TextBuf::of(Vec::from_slice(alloc, line).ok()?)?)
            .ok()?;
    }
    Some(motd)
}

/// The default settings with a message of the day of so many equal lines.
fn settings(alloc: Global, count: u32, line: &[u8]) -> Result<Settings, SettingsError> {
    match message(alloc, count, line) {
        Some(motd) => Settings::new(alloc, b"0.38", b"*", 8201, 0, &motd, DEFAULT_OUTBOX_LIMIT),
        None => Err(SettingsError::Memory),
    }
}

fn shows_default(rt: &impl Abort, settings: &Settings) {
    same(
        rt,
        settings.protocol_version().as_slice(),
        b"0.38".as_slice(),
    );
    same(rt, settings.spring_version().as_slice(), b"*".as_slice());
    same(rt, (settings.udp_port(), settings.server_mode()), (8201, 0));
    same(rt, settings.motd().as_slice().len(), 1);
    same(rt, settings.outbox_limit(), 4_194_304);
}

#[test]
fn the_default_is_kept(rt: HostRuntime) {
    match settings(rt.alloc(), 1, b"Welcome") {
        Ok(settings) => {
            shows_default(&rt, &settings);
            drop(settings);
        }
        Err(_) => fail(&rt, "the default is in its bounds"),
    }
}

/// A version, the mode, the limit of an outbox, and whether they are in their bounds.
static VALUES: [(&[u8], u8, usize, bool); 9] = [
    (b"0.38", 1, LEAST_OUTBOX_LIMIT, true),
    (&[b'~'; 32], 0, GREATEST_OUTBOX_LIMIT, true),
    (b"", 0, LEAST_OUTBOX_LIMIT, false),
    (b"0 38", 0, LEAST_OUTBOX_LIMIT, false),
    (b"\x7f", 0, LEAST_OUTBOX_LIMIT, false),
    (&[b'~'; 33], 0, LEAST_OUTBOX_LIMIT, false),
    (b"0.38", 2, LEAST_OUTBOX_LIMIT, false),
    (b"0.38", 0, 65_535, false),
    (b"0.38", 0, 67_108_865, false),
];

fn refusal(
    alloc: Global,
    protocol: &[u8],
    spring: &[u8],
    mode: u8,
    limit: usize,
) -> Option<SettingsError> {
    Settings::new(alloc, protocol, spring, 0, mode, &[], limit).err()
}

#[test]
fn a_value_out_of_its_bounds_is_refused(rt: HostRuntime) {
    for (k, (version, mode, limit, is_good)) in VALUES.iter().enumerate() {
        let want = if *is_good {
            None
        } else {
            Some(SettingsError::OutOfBounds)
        };
        let first = refusal(rt.alloc(), version, b"*", *mode, *limit);
        let second = refusal(rt.alloc(), b"0.38", version, *mode, *limit);
        same_for(&rt, &k, (first, second), (want, want));
    }
}

/// How many lines, each of them, and why they are refused.
static MESSAGES: [(u32, &[u8], Option<SettingsError>); 3] = [
    (100, &[b'x'; 1_000], None),
    (101, b"", Some(SettingsError::OutOfBounds)),
    (1, &[b'x'; 1_001], Some(SettingsError::OutOfBounds)),
];

#[test]
fn a_message_of_the_day_has_100_lines_of_1000_bytes(rt: HostRuntime) {
    for (count, line, told) in &MESSAGES {
        let refusal = settings(rt.alloc(), *count, line).err();
        same_for(&rt, count, refusal, *told);
    }
}
