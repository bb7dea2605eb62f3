//! The addresses from which a front connects.

ghost use Rattle.toml.specs.View.{view, items_view, table_view};
ghost use Rattle.toml_fields.specs.Fields.{text};
ghost use Rattle.lobby_setup.specs.Written.{IsWritten};
ghost use Rattle.lobby_setup.specs.Proxies.{all_listed, AreProxies, IsProxy, SayProxies};

use crate::error::Refusal;
use crate::key::Key;
use proxy_line::{MOST_PROXIES, Proxies, address};
use toml::{Table, Value};
use toml_fields::{FieldFault, list_or_empty, text_of};

/// What a value says as the address at this place, counted from 1.
pub fn address_at(place: usize, value: &Value) -> Result<[u8; 4], FieldFault>
    ensures { IsWritten (IsProxy place) (text (view value.now)) result }
{
    match text_of(value) {
        Ok(text) => match address(text.as_bytes()) {
            Some(ip) if place <= MOST_PROXIES => Ok(ip),
            _ => Err(FieldFault::NotAllowed),
        },
        Err(fault) => Err(fault),
    }
}

/// The addresses that values write, or the first value that is refused.
fn proxies_of(values: &[Value]) -> Result<Proxies, Refusal>
    ensures { AreProxies 1 (items_view values.now) (all_listed result) }
{
    let mut proxies = Proxies::new();
    for (k, value) in values.iter().enumerate() {
        let place = k + 1;
        match address_at(place, value) {
            Ok(ip) => proxies.add(ip),
            Err(fault) => return Err(Refusal::Proxy { place, fault }),
        }
    }
    Ok(proxies)
}

/// The addresses from which a front connects, or why there are none to go by.
pub fn proxies_at(table: &Table) -> Result<Proxies, Refusal>
    ensures { SayProxies (table_view table.now) (all_listed result) }
{
    let key = Key::Proxies;
    match list_or_empty(table, key.name()) {
        Ok(values) => proxies_of(values),
        Err(fault) => Err(Refusal::Field { key, fault }),
    }
}
