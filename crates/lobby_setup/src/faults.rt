//! All that is wrong in a file of settings.

ghost use Rattle.std.specs.Prelude.{◌≡◌, ◌++◌, [], ◌∷◌, option_map, IfOk, OnOk, Result};
ghost use Rattle.std.specs.Option.{option_to_list};
ghost use Rattle.std.specs.Result.{result_err};
ghost use Rattle.toml.specs.View.{items_view, table_view};
ghost use Rattle.lobby_setup.specs.Choices.{Choices, Says};
ghost use Rattle.lobby_setup.specs.Faults.{AreFaults, AreProxyFaults, HasProxyFaults, first_of};
ghost use Rattle.lobby_setup.specs.Faults.{greeting_faults, line_faults, motd_faults, table_faults};

use crate::error::Refusal;
use crate::fields::{
    endpoint_refusal, flag_field, listening_address, mode_field, outbox_field, port_field,
    text_field, version_field, workers_field,
};
use crate::key::Key;
use crate::level::log_field;
use crate::motd::line_fault;
use crate::proxies::address_at;
use std::alloc::{AllocError, Global};
use toml::{Table, Value};
use toml_fields::{FieldFault, list_or_empty};

/// Puts a fault behind the others, if there is one.
fn keep(faults: &mut Vec<Refusal>, fault: Option<Refusal>) -> Result<(), AllocError>
    ensures { OnOk result (faults.new.items ≡ faults.old.items ++ option_to_list fault) }
{
    if let Some(fault) = fault {
        faults.push(fault)?;
    }
    Ok(())
}

/// What is wrong at each key up to `server_mode`, with what was read at `address`.
fn greeting_faults(
    alloc: Global,
    endpoint: Result<([u8; 4], u16), FieldFault>,
    table: &Table,
) -> Result<Vec<Refusal>, AllocError>
    ensures { IfOk result (λ faults. faults.items ≡ greeting_faults endpoint (table_view table.now)) }
{
    let mut faults = Vec::new(alloc);
    keep(&mut faults, endpoint_refusal(endpoint))?;
    keep(&mut faults, workers_field(table).err())?;
    keep(&mut faults, outbox_field(table).err())?;
    keep(
        &mut faults,
        version_field(table, Key::ProtocolVersion, "0.38").err(),
    )?;
    keep(
        &mut faults,
        version_field(table, Key::SpringVersion, "*").err(),
    )?;
    keep(&mut faults, port_field(table).err())?;
    keep(&mut faults, mode_field(table).err())?;
    Ok(faults)
}

/// Each value that cannot be a line of the message of the day.
fn lines_refused(alloc: Global, values: &[Value]) -> Result<Vec<Refusal>, AllocError>
    ensures { IfOk result (λ faults. faults.items ≡ line_faults 1 (items_view values.now)) }
{
    let mut faults = Vec::new(alloc);
    for (k, value) in values.iter().enumerate() {
        let place = k + 1;
        if let Some(fault) = line_fault(place, value) {
            faults.push(Refusal::MotdLine { place, fault })?;
        }
    }
    Ok(faults)
}

/// That a key has no list.
fn no_list(alloc: Global, key: Key, fault: FieldFault) -> Result<Vec<Refusal>, AllocError>
    ensures { IfOk result (λ faults. faults.items ≡ Refusal.Field key fault ∷ []) }
{
    let mut faults = Vec::new(alloc);
    faults.push(Refusal::Field { key, fault })?;
    Ok(faults)
}

/// What is wrong at `motd`.
fn motd_faults(alloc: Global, table: &Table) -> Result<Vec<Refusal>, AllocError>
    ensures { IfOk result (λ faults. faults.items ≡ motd_faults (table_view table.now)) }
{
    let key = Key::Motd;
    match list_or_empty(table, key.name()) {
        Ok(values) => lines_refused(alloc, values),
        Err(fault) => no_list(alloc, key, fault),
    }
}

/// Why what was read as the address at a place is refused, if it is.
fn proxy_fault(place: usize, read: Result<[u8; 4], FieldFault>) -> Option<Refusal>
    ensures { result ≡ option_map (λ fault. Refusal.Proxy place fault) (result_err read) }
{
    match read {
        Ok(_) => None,
        Err(fault) => Some(Refusal::Proxy { place, fault }),
    }
}

/// Each value that writes no address of a front.
fn addresses_refused(alloc: Global, values: &[Value]) -> Result<Vec<Refusal>, AllocError>
    ensures { IfOk result (λ faults. AreProxyFaults 1 (items_view values.now) faults.items) }
{
    let mut faults = Vec::new(alloc);
    for (k, value) in values.iter().enumerate() {
        let place = k + 1;
        let fault = proxy_fault(place, address_at(place, value));
        keep(&mut faults, fault)?;
    }
    Ok(faults)
}

/// What is wrong at `proxies`.
fn proxy_faults(alloc: Global, table: &Table) -> Result<Vec<Refusal>, AllocError>
    ensures { IfOk result (λ faults. HasProxyFaults (table_view table.now) faults.items) }
{
    let key = Key::Proxies;
    match list_or_empty(table, key.name()) {
        Ok(values) => addresses_refused(alloc, values),
        Err(fault) => no_list(alloc, key, fault),
    }
}

/// What is wrong at each key, with what was read at `address` and what is wrong at `proxies`.
fn table_faults(
    alloc: Global,
    endpoint: Result<([u8; 4], u16), FieldFault>,
    motd: &[Refusal],
    proxies: &[Refusal],
    table: &Table,
) -> Result<Vec<Refusal>, AllocError>
    requires { motd.now ≡ motd_faults (table_view table.now) }
    ensures { IfOk result (λ faults. faults.items ≡ table_faults endpoint proxies.now (table_view table.now)) }
{
    let mut faults = greeting_faults(alloc, endpoint, table)?;
    faults.extend_from_slice(motd)?;
    keep(
        &mut faults,
        flag_field(table, Key::StopAtInputEnd, false).err(),
    )?;
    faults.extend_from_slice(proxies)?;
    keep(&mut faults, log_field(table).err())?;
    keep(&mut faults, text_field(table, Key::Record).err())?;
    keep(&mut faults, flag_field(table, Key::Private, true).err())?;
    Ok(faults)
}

/// All that is wrong in a table, in the order of its keys.
fn all_faults(alloc: Global, table: &Table) -> Result<Vec<Refusal>, AllocError>
    ensures { IfOk result (λ faults. AreFaults (table_view table.now) faults.items) }
{
    let motd = motd_faults(alloc, table)?;
    let proxies = proxy_faults(alloc, table)?;
    let faults = table_faults(alloc, listening_address(table), &motd, &proxies, table)?;
    Ok(faults)
}

/// All that is wrong in the table of a file of settings, in the order of [`Key`]. There is nothing exactly where
/// [`Setup::read`](crate::Setup::read) accepts the file, and else its first is what that refuses the file for.
pub fn settings_faults(alloc: Global, table: &Table) -> Result<Vec<Refusal>, AllocError>
    ensures all { IfOk result (λ faults. AreFaults (table_view table.now) faults.items) }
    ensures first { IfOk result (λ faults. (answer : Result Choices Refusal) → Says (table_view table.now) answer
        → first_of faults.items ≡ result_err answer) }
{
    let faults = all_faults(alloc, table)?;
    Ok(faults)
}
