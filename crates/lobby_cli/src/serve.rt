//! The command `serve`: a server by a file of settings and a file of accounts.

ghost use Rattle.std.specs.Prelude.{◌≤◌, IfOk};

use crate::error::ProgramError;
use crate::output::{ErrorWriter, Output, PatientOutput};
use crate::record::{NewRecord, new_record};
use account_book::AccountBook;
use lobby_model::Settings;
use lobby_setup::{CLIENT_LIMIT, FileError, Setup, accounts_of, read_file, settings_at};
use lobby_workers::{
    Gate, HashSeed, Log, Made, Masks, Pass, Record, ServerError, Service, run_server_recorded,
};
use mio::net::TcpListener;
use program_help::VERSION;
use server_log::{ShortText, Started};
use std::alloc::Global;
use std::io;
use std::net::{Net, SocketAddr, SocketAddrV4};
use std::random::RandomSource;
use std::rt::Files;
use std::sync::Wait;
use std::thread::Threads;

/// The gate of the program: nobody looks at its workers.
struct OpenGate;

impl Gate for OpenGate {
    ghost use Rattle.std.specs.Prelude.{false, ⊤};

    ghost wants = { λ gate. false };

    ghost handed = { λ gate made. ⊤ };

    fn before_take(&self, _worker: u8) {}

    fn wants_events(&self) -> bool {
        false
    }

    fn made(&self, made: Made) -> Pass {
        made.pass()
    }

    fn after_write(&self, _worker: u8, _bytes: &[u8]) {}

    fn woken(&self, _worker: u8) {}
}

/// What a server is set up to by its file of settings.
fn setup_at<R: Files + AllocGlobal>(rt: &R, path: &str) -> Result<Setup, ProgramError>
    ensures { IfOk result (λ setup. (1 ≤ setup.workers) × (setup.workers ≤ 64)) }
{
    match settings_at(rt, path) {
        Ok(setup) => Ok(setup),
        Err(FileError::Memory) => Err(ServerError::Memory.into()),
        Err(_) => Err(ProgramError::Settings),
    }
}

/// Why a server cannot use its file of accounts.
fn refused(error: FileError) -> ProgramError {
    match error {
        FileError::Memory => ServerError::Memory.into(),
        _ => ProgramError::Accounts,
    }
}

/// The accounts of a server.
fn book_of(alloc: Global, file: &[u8]) -> Result<AccountBook, ProgramError> {
    accounts_of(alloc, file).map_err(refused)
}

/// The files of the record of a server, if it has one, in which private talk is written or not.
fn record_of<R: Files + AllocGlobal + Clone + Drop>(
    rt: &R,
    record: &NewRecord<'_>,
    private: bool,
) -> Result<Option<Record<R::File>>, ProgramError> {
    if record.folder.is_empty() {
        return Ok(None);
    }
    let masks = Masks {
        accounts: book_of(rt.alloc(), record.accounts)?,
        private,
    };
    Ok(Some(new_record(rt, record, masks)?))
}

/// By what the words that clients choose are hashed: none of them knows it.
fn new_seed<R: RandomSource>(rt: &R) -> Result<HashSeed, ProgramError> {
    let mut bytes = [0; 16];
    match rt.fill_bytes(&mut bytes) {
        Ok(()) => Ok(HashSeed::new(&bytes)),
        Err(_) => Err(ProgramError::Random),
    }
}

/// Where a listener listens that was bound to this address, of which the system may have chosen the port, as text.
/// Fails only where memory is refused.
fn text_of(
    alloc: Global,
    listener: &TcpListener,
    address: SocketAddrV4,
) -> Result<ShortText, ServerError> {
    let address = match listener.local_addr() {
        Ok(SocketAddr::V4(bound)) => bound,
        _ => address,
    };
    match format!(in alloc; "{address}") {
        Ok(text) => Ok(ShortText::of(text.as_bytes())),
        Err(_) => Err(ServerError::Memory),
    }
}

/// Runs a server by its files, until its input ends or the program is killed. The first fault in the order of
/// settings, accounts, listener and record is the answer, and then what `run_server_recorded` gives.
pub fn serve<R>(rt: &R, settings: &str, accounts: &str) -> Result<(), ProgramError>
where
    R: Files + Input + Print + Eprint + AllocGlobal + Threads + Wait + Net + RandomSource,
    R: Clone + Drop + Sync,
    R::File: Send,
{
    let Setup {
        settings,
        address,
        workers,
        stop_at_input_end,
        proxies,
        log,
        folder,
        private,
    } = setup_at(rt, settings)?;
    let file = read_file(rt, accounts).map_err(refused)?;
    let accounts = book_of(rt.alloc(), &file)?;
    let Ok(listener) = TcpListener::bind(rt, SocketAddr::V4(address)) else {
        return Err(ServerError::Listener.into());
    };
    let record = NewRecord {
        folder: folder.as_str(),
        workers,
        settings: &settings,
        accounts: &file,
    };
    let record = record_of(rt, &record, private)?;
    let address = text_of(rt.alloc(), &listener, address)?;
    let log = Log {
        level: log,
        started: started_at(address, workers, &settings, &accounts),
    };
    let service = Service {
        settings,
        workers,
        stop_at_input_end,
        proxies,
        accounts,
        seed: new_seed(rt)?,
    };
    run(rt, service, listener, log, record)
}

/// What operators are told of a server that starts.
fn started_at(
    address: ShortText,
    workers: u32,
    settings: &Settings,
    accounts: &AccountBook,
) -> Started {
    Started {
        version: VERSION,
        address,
        workers,
        client_limit: CLIENT_LIMIT as u64,
        outbox_limit: settings.outbox_limit() as u64,
        accounts: accounts.len() as u64,
    }
}

/// Runs a server over the program's own input and output.
fn run<R>(
    rt: &R,
    service: Service,
    listener: TcpListener,
    log: Log,
    record: Option<Record<R::File>>,
) -> Result<(), ProgramError>
where
    R: Files + Input + Print + Eprint + AllocGlobal + Threads + Wait + Net + Sync,
    R::File: Send,
    requires { (1 ≤ service.workers) × (service.workers ≤ 64) }
{
    let mut input = rt.reader();
    let results = io::writer(rt);
    let mut output = PatientOutput::new(rt, rt.alloc(), Output::Results, results)?;
    let errors = PatientOutput::new(rt, rt.alloc(), Output::Errors, ErrorWriter { rt })?;
    let status = run_server_recorded(
        rt,
        rt.alloc(),
        service,
        listener,
        &mut input,
        &mut output,
        errors,
        &OpenGate,
        log,
        record,
    );
    match ServerError::of_run(status) {
        None => Ok(()),
        Some(error) => Err(error.into()),
    }
}
