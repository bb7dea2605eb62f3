//! What the keys of a file of settings say.

ghost use Rattle.std.specs.Prelude.{◌≡◌, ◌≤◌, IfOk, IsTrue, None, true, []};
ghost use Rattle.std.specs.Result.{result_err};
ghost use Rattle.toml.specs.View.{table_view, items_view};
ghost use Rattle.toml_fields.specs.Fields.{flag, lent, number, required, seen_list, text};
ghost use Rattle.proxy_line.specs.Words.{IsSocketAddress};
ghost use Rattle.lobby_model.specs.Configuration.{is_configuration, is_version, least_outbox_limit};
ghost use Rattle.lobby_model.specs.Configuration.{greatest_outbox_limit};
ghost use Rattle.lobby_setup.specs.Keys.{name_of};
ghost use Rattle.lobby_setup.specs.Motd.{motd_fault};
ghost use Rattle.lobby_setup.specs.Choices.{choices, motd_items, version};
ghost use Rattle.lobby_setup.specs.At.{at, field};
ghost use Rattle.lobby_setup.specs.Proxies.{all_listed};
ghost use Rattle.lobby_setup.specs.Written.{IsWritten};
ghost use Rattle.lobby_setup.specs.Gathered.{gathered, gathered_of};

use crate::error::Refusal;
use crate::key::Key;
use crate::level::log_field;
use crate::motd::motd_fault;
use lobby_model::WORKERS;
use lobby_model::settings::{
    DEFAULT_OUTBOX_LIMIT, GREATEST_OUTBOX_LIMIT, LEAST_OUTBOX_LIMIT, is_version,
};
use proxy_line::{Proxies, socket_address};
use server_log::LogLevel;
use toml::{Table, Value};
use toml_fields::{FieldFault, flag_or, list_or_empty, number_or, text_at, text_or};

/// What the keys of a file say, each within its bounds.
#[derive(Drop)]
pub struct Fields<'a> {
    pub ip: [u8; 4],
    pub port: u16,
    pub workers: u32,
    pub outbox_limit: u32,
    pub protocol_version: &'a str,
    pub spring_version: &'a str,
    pub udp_port: u16,
    pub server_mode: u8,
    pub motd: &'a [Value],
    pub stop_at_input_end: bool,
    pub proxies: Proxies,
    pub log: LogLevel,
    pub folder: &'a str,
    pub private: bool,
}

/// The address and the port at which to listen.
pub fn listening_address(table: &Table) -> Result<([u8; 4], u16), FieldFault>
    ensures { IsWritten IsSocketAddress (required text (name_of Key.Address) (table_view table.now)) result }
{
    match text_at(table, Key::Address.name()) {
        Ok(text) => match socket_address(text.as_bytes()) {
            Some(endpoint) => Ok(endpoint),
            None => Err(FieldFault::NotAllowed),
        },
        Err(fault) => Err(fault),
    }
}

/// The number at a key, or `default` where it is missing.
fn number_field(table: &Table, key: Key, low: u32, high: u32, default: u32) -> Result<u32, Refusal>
    requires low { low ≤ default }
    requires high { default ≤ high }
    ensures value { result ≡ field key (number low high) default (table_view table.now) }
    ensures within { IfOk result (λ number. (low ≤ number) × (number ≤ high)) }
{
    match number_or(table, key.name(), low, high, default) {
        Ok(number) => Ok(number),
        Err(fault) => Err(Refusal::Field { key, fault }),
    }
}

/// How many threads serve clients.
pub fn workers_field(table: &Table) -> Result<u32, Refusal>
    ensures value { result ≡ field Key.Workers (number 1 64) 4 (table_view table.now) }
    ensures within { IfOk result (λ number. (1 ≤ number) × (number ≤ 64)) }
{
    number_field(table, Key::Workers, 1, WORKERS as u32, 4)
}

/// The most bytes that may wait unread for a client.
pub fn outbox_field(table: &Table) -> Result<u32, Refusal>
    ensures value { result ≡ field Key.OutboxLimit (number least_outbox_limit greatest_outbox_limit) 4194304
        (table_view table.now) }
    ensures within { IfOk result (λ number. (65536 ≤ number) × (number ≤ 67108864)) }
{
    number_field(
        table,
        Key::OutboxLimit,
        LEAST_OUTBOX_LIMIT as u32,
        GREATEST_OUTBOX_LIMIT as u32,
        DEFAULT_OUTBOX_LIMIT as u32,
    )
}

/// The port that a client is greeted with.
pub fn port_field(table: &Table) -> Result<u32, Refusal>
    ensures value { result ≡ field Key.UdpPort (number 0 65535) 8201 (table_view table.now) }
    ensures within { IfOk result (λ number. number ≤ 65535) }
{
    number_field(table, Key::UdpPort, 0, 65_535, 8201)
}

/// The mode that a client is greeted with.
pub fn mode_field(table: &Table) -> Result<u32, Refusal>
    ensures value { result ≡ field Key.ServerMode (number 0 1) 0 (table_view table.now) }
    ensures within { IfOk result (λ number. number ≤ 1) }
{
    number_field(table, Key::ServerMode, 0, 1, 0)
}

/// The version word at a key, or `default` where it is missing.
pub fn version_field<'a>(table: &'a Table, key: Key, default: &'a str) -> Result<&'a str, Refusal>
    requires { is_version default.now ≡ true }
    ensures value { lent result ≡ field key version default.now (table_view table.now) }
    ensures version { IfOk result (λ word. is_version word.now ≡ true) }
{
    match text_or(table, key.name(), default) {
        Ok(word) if is_version(word.as_bytes()) => Ok(word),
        Ok(_) => Err(Refusal::Field {
            key,
            fault: FieldFault::NotAllowed,
        }),
        Err(fault) => Err(Refusal::Field { key, fault }),
    }
}

/// The values that are the lines of the message of the day.
fn motd_field(table: &Table) -> Result<&[Value], Refusal>
    ensures value { seen_list result ≡ motd_items (table_view table.now) }
    ensures lines { IfOk result (λ values. motd_fault 1 (items_view values.now) ≡ None) }
{
    let key = Key::Motd;
    match list_or_empty(table, key.name()) {
        Ok(values) => match motd_fault(values) {
            None => Ok(values),
            Some(refusal) => Err(refusal),
        },
        Err(fault) => Err(Refusal::Field { key, fault }),
    }
}

/// Whether the flag at a key is set, or `default` where it is missing.
pub fn flag_field(table: &Table, key: Key, default: bool) -> Result<bool, Refusal>
    ensures { result ≡ field key flag default (table_view table.now) }
{
    match flag_or(table, key.name(), default) {
        Ok(flag) => Ok(flag),
        Err(fault) => Err(Refusal::Field { key, fault }),
    }
}

/// The text at a key, or an empty one where it is missing.
pub fn text_field(table: &Table, key: Key) -> Result<&str, Refusal>
    ensures { lent result ≡ field key text [] (table_view table.now) }
{
    match text_or(table, key.name(), "") {
        Ok(text) => Ok(text),
        Err(fault) => Err(Refusal::Field { key, fault }),
    }
}

/// Why what was read at `address` is refused, if it is.
pub fn endpoint_refusal(endpoint: Result<([u8; 4], u16), FieldFault>) -> Option<Refusal>
    ensures { result ≡ result_err (at Key.Address endpoint) }
{
    match endpoint {
        Ok(_) => None,
        Err(fault) => Some(Refusal::Field {
            key: Key::Address,
            fault,
        }),
    }
}

/// What the keys of a table say, with what was read at `address` and at `proxies`, or the first of them that is
/// refused.
pub fn fields_of(
    endpoint: Result<([u8; 4], u16), FieldFault>,
    proxies: Result<Proxies, Refusal>,
    table: &Table,
) -> Result<Fields<'_>, Refusal>
    ensures value { gathered_of result ≡ choices endpoint (all_listed proxies) (table_view table.now) }
    ensures lines { IfOk result (λ fields. motd_fault 1 (items_view fields.motd.now) ≡ None) }
    ensures settings { IfOk result (λ fields. IsTrue (is_configuration (gathered fields).settings)) }
    ensures workers { IfOk result (λ fields. (1 ≤ fields.workers) × (fields.workers ≤ 64)) }
{
    let (ip, port) = match endpoint {
        Ok(endpoint) => endpoint,
        Err(fault) => {
            return Err(Refusal::Field {
                key: Key::Address,
                fault,
            });
        }
    };
    Ok(Fields {
        ip,
        port,
        workers: workers_field(table)?,
        outbox_limit: outbox_field(table)?,
        protocol_version: version_field(table, Key::ProtocolVersion, "0.38")?,
        spring_version: version_field(table, Key::SpringVersion, "*")?,
        udp_port: port_field(table)? as u16,
        server_mode: mode_field(table)? as u8,
        motd: motd_field(table)?,
        stop_at_input_end: flag_field(table, Key::StopAtInputEnd, false)?,
        proxies: proxies?,
        log: log_field(table)?,
        folder: text_field(table, Key::Record)?,
        private: flag_field(table, Key::Private, true)?,
    })
}
