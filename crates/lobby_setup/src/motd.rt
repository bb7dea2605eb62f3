//! The message of the day.

ghost use Rattle.std.specs.Prelude.{◌≡◌, ◌+◌, None, IfOk};
ghost use Rattle.toml.specs.View.{view, items_view};
ghost use Rattle.lobby_setup.specs.Motd.{line_of, lines_of, motd_fault, line_fault};

use crate::error::Refusal;
use line_words::TextBuf;
use lobby_model::settings::{MOTD_LINES, is_motd_line};
use std::alloc::{AllocError, Global};
use toml::Value;
use toml_fields::FieldFault;

/// Why a value cannot be the line at this place, counted from 1.
pub fn line_fault(place: usize, value: &Value) -> Option<FieldFault>
    ensures { result ≡ line_fault place (view value.now) }
{
    match value.as_str() {
        None => Some(FieldFault::OtherKind),
        Some(line) if place <= MOTD_LINES && is_motd_line(line.as_bytes()) => None,
        Some(_) => Some(FieldFault::NotAllowed),
    }
}

/// The first value that cannot be a line, where there is one.
pub fn motd_fault(values: &[Value]) -> Option<Refusal>
    ensures { result ≡ motd_fault 1 (items_view values.now) }
{
    for (k, value) in values.iter().enumerate() {
        let place = k + 1;
        if let Some(fault) = line_fault(place, value) {
            return Some(Refusal::MotdLine { place, fault });
        }
    }
    None
}

/// The text of a value, none where it is no text.
fn line_of(value: &Value) -> &[u8]
    ensures { result.now ≡ line_of (view value.now) }
{
    match value.as_str() {
        Some(line) => line.as_bytes(),
        None => &[],
    }
}

/// Copies of the lines of a message of the day.
pub fn copy_motd(alloc: Global, values: &[Value]) -> Result<Vec<TextBuf>, AllocError>
    requires { motd_fault 1 (items_view values.now) ≡ None }
    ensures { IfOk result (λ lines. lines.items ≡ lines_of (items_view values.now)) }
{
    let mut lines = Vec::new(alloc);
    for value in values {
        lines.push(TextBuf::copy_of(alloc, line_of(value))?)?;
    }
    Ok(lines)
}
