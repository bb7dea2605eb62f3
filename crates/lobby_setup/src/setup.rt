//! What the server is set up to.

ghost use Rattle.std.specs.Prelude.{◌≡◌, ◌≤◌, IfOk, IsTrue, None};
ghost use Rattle.toml.specs.View.{items_view};
ghost use Rattle.lobby_model.specs.Configuration.{is_configuration};
ghost use Rattle.lobby_setup.specs.Answers.{held, IsAnswer, IsShortAnswer};
ghost use Rattle.lobby_setup.specs.Gathered.{gathered};
ghost use Rattle.lobby_setup.specs.Motd.{motd_fault};

use crate::error::{SetupError, SetupFault};
use crate::fields::{Fields, fields_of, listening_address};
use crate::motd::copy_motd;
use crate::proxies::proxies_at;
use lobby_model::Settings;
use proxy_line::Proxies;
use server_log::LogLevel;
use std::alloc::{AllocError, Global};
use std::net::{Ipv4Addr, SocketAddrV4};
use toml_fields::read_document;

/// What the server is set up to.
#[derive(Drop)]
pub struct Setup {
    /// What the lobby is told: its greeting, its message of the day, and how much may wait unread for a client.
    pub settings: Settings,
    /// Where the server listens. With port 0 the system chooses a port.
    pub address: SocketAddrV4,
    /// How many threads serve clients, 1 to 64.
    pub workers: u32,
    /// Whether the server stops where its standard input ends.
    pub stop_at_input_end: bool,
    /// From where a front connects.
    pub proxies: Proxies,
    /// How much operators are told.
    pub log: LogLevel,
    /// The folder in which what happens is recorded; empty for no record.
    pub folder: String,
    /// Whether a record has what users say in private.
    pub private: bool,
}

impl Setup {
    /// What a file of settings sets the server up to.
    ///
    /// `Unusable` where the file is not TOML or not UTF-8, else with the first key that is refused, in the order of
    /// [`crate::Key`]: it is missing though it has to be there, or its value is of another kind or not allowed. In a
    /// message of the day it is the first line that is refused, and of fronts the first address. `Memory` where it was
    /// refused for the file, or, once no key is refused, for the settings.
    pub fn read(alloc: Global, bytes: &[u8]) -> Result<Setup, SetupFault>
        ensures answer { IsAnswer bytes.now result }
        ensures workers { IfOk result (λ setup. (1 ≤ setup.workers) × (setup.workers ≤ 64)) }
    {
        let table = match read_document(alloc, bytes) {
            Ok(table) => table,
            Err(error) => return Err(SetupFault::from(error)),
        };
        let fields = match fields_of(listening_address(&table), proxies_at(&table), &table) {
            Ok(fields) => fields,
            Err(refusal) => return Err(SetupFault::Unusable(refusal)),
        };
        match setup_of(alloc, &fields) {
            Ok(setup) => Ok(setup),
            Err(_) => Err(SetupFault::Memory),
        }
    }
}

/// What a file of settings sets the server up to. `Unusable` where [`Setup::read`] refuses the file, and says
/// what is wrong in it.
pub fn read_setup(alloc: Global, bytes: &[u8]) -> Result<Setup, SetupError>
    ensures answer { IsShortAnswer bytes.now result }
    ensures workers { IfOk result (λ setup. (1 ≤ setup.workers) × (setup.workers ≤ 64)) }
{
    match Setup::read(alloc, bytes) {
        Ok(setup) => Ok(setup),
        Err(SetupFault::Unusable(_)) => Err(SetupError::Unusable),
        Err(SetupFault::Memory) => Err(SetupError::Memory),
    }
}

/// The setup of what the keys of a file say.
fn setup_of(alloc: Global, fields: &Fields<'_>) -> Result<Setup, AllocError>
    requires lines { motd_fault 1 (items_view fields.now.motd.now) ≡ None }
    requires settings { IsTrue (is_configuration (gathered fields.now).settings) }
    ensures { IfOk result (λ setup. held setup ≡ gathered fields.now) }
{
    let folder = String::from_str(alloc, fields.folder)?;
    let motd = copy_motd(alloc, fields.motd)?;
    let settings = Settings::within_bounds(
        alloc,
        fields.protocol_version.as_bytes(),
        fields.spring_version.as_bytes(),
        fields.udp_port,
        fields.server_mode,
        &motd,
        fields.outbox_limit as usize,
    )?;
    Ok(Setup {
        settings,
        address: SocketAddrV4::new(Ipv4Addr::from(fields.ip), fields.port),
        workers: fields.workers,
        stop_at_input_end: fields.stop_at_input_end,
        proxies: fields.proxies,
        log: fields.log,
        folder,
        private: fields.private,
    })
}
