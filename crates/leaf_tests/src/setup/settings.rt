//! Files of settings: the smallest one, one that names all keys, and ones with each kind of fault.

use crate::lists::are;
use crate::verdict::{fail, same, same_for};
use lobby_model::Settings;
use lobby_setup::{Key, Refusal, Setup, SetupError, SetupFault, read_setup};
use server_log::LogLevel;
use std::alloc::{AllocError, Global};
use std::net::{Ipv4Addr, SocketAddrV4};
use std::process::Abort;
use toml_fields::FieldFault;

const ALL: &[u8] = b"
address = '10.0.0.2:65535'
workers = 64
outbox_limit = 65536
protocol_version = '0.39'
spring_version = '105.0'
udp_port = 0
server_mode = 1
motd = ['Welcome!', '', 'Gr\xc3\xbc\xc3\x9fe']
stop_at_input_end = true
proxies = ['127.0.0.1', '10.0.0.2', '127.0.0.1']
log = 'all'
record = '/var/lib/r\xc3\xbcdder'
private = false
colour = 'a key that is not known'
";

/// Why a file is refused, or `None` if it is a good one.
fn refusal(alloc: Global, file: &[u8]) -> Option<SetupFault> {
    Setup::read(alloc, file).err()
}

/// Why a file that has an address and this line is refused; `Memory` too where there is none to write the file in.
fn refusal_with(alloc: Global, line: &str) -> Option<SetupFault> {
    match format!(in alloc; "address = '127.0.0.1:0'\n{line}\n") {
        Ok(file) => refusal(alloc, file.as_bytes()),
        Err(_) => Some(SetupFault::Memory),
    }
}

fn refused(key: Key, fault: FieldFault) -> Option<SetupFault> {
    Some(SetupFault::Unusable(Refusal::Field { key, fault }))
}

/// A file, and what the server is set up to by it.
struct Wanted {
    file: &'static [u8],
    address: ([u8; 4], u16),
    workers: u32,
    stop_at_input_end: bool,
    protocol_version: &'static [u8],
    spring_version: &'static [u8],
    udp_port: u16,
    server_mode: u8,
    outbox_limit: usize,
    motd: &'static [&'static [u8]],
    // whether each of these addresses is a front's
    proxies: &'static [([u8; 4], bool)],
    log: LogLevel,
    folder: &'static [u8],
    private: bool,
}

fn compare_settings(rt: &impl Abort, settings: &Settings, wanted: &Wanted) {
    same(
        rt,
        (
            settings.protocol_version().as_slice(),
            settings.spring_version().as_slice(),
        ),
        (wanted.protocol_version, wanted.spring_version),
    );
    same(
        rt,
        (
            settings.udp_port(),
            settings.server_mode(),
            settings.outbox_limit(),
            are(settings.motd().as_slice(), wanted.motd),
        ),
        (
            wanted.udp_port,
            wanted.server_mode,
            wanted.outbox_limit,
            true,
        ),
    );
}

fn compare(rt: &impl Abort, setup: &Setup, wanted: &Wanted) {
    let ([a, b, c, d], port) = wanted.address;
    let address = SocketAddrV4::new(Ipv4Addr::new(a, b, c, d), port);
    same(
        rt,
        (
            setup.address == address,
            setup.workers,
            setup.stop_at_input_end,
            setup.log,
        ),
        (true, wanted.workers, wanted.stop_at_input_end, wanted.log),
    );
    same(
        rt,
        (setup.folder.as_bytes(), setup.private),
        (wanted.folder, wanted.private),
    );
    for (address, is_front) in wanted.proxies {
        same_for(rt, address, setup.proxies.has(*address), *is_front);
    }
    compare_settings(rt, &setup.settings, wanted);
}

fn read(rt: &impl Abort, alloc: Global, wanted: &Wanted) {
    match read_setup(alloc, wanted.file) {
        Ok(setup) => {
            compare(rt, &setup, wanted);
            drop(setup);
        }
        Err(_) => fail(rt, "the file is good"),
    }
}

static SMALLEST: Wanted = Wanted {
    file: b"address = '127.0.0.1:0'",
    address: ([127, 0, 0, 1], 0),
    workers: 4,
    stop_at_input_end: false,
    protocol_version: b"0.38",
    spring_version: b"*",
    udp_port: 8201,
    server_mode: 0,
    outbox_limit: 4_194_304,
    motd: &[],
    proxies: &[([127, 0, 0, 1], false), ([0, 0, 0, 0], false)],
    log: LogLevel::Important,
    folder: b"",
    private: true,
};

#[test]
fn an_address_is_enough(rt: HostRuntime) {
    read(&rt, rt.alloc(), &SMALLEST);
}

static LARGEST: Wanted = Wanted {
    file: ALL,
    address: ([10, 0, 0, 2], 65_535),
    workers: 64,
    stop_at_input_end: true,
    protocol_version: b"0.39",
    spring_version: b"105.0",
    udp_port: 0,
    server_mode: 1,
    outbox_limit: 65_536,
    motd: &[b"Welcome!", b"", b"Gr\xc3\xbc\xc3\x9fe"],
    proxies: &[
        ([127, 0, 0, 1], true),
        ([10, 0, 0, 2], true),
        ([10, 0, 0, 1], false),
        ([0, 0, 0, 0], false),
    ],
    log: LogLevel::All,
    folder: b"/var/lib/r\xc3\xbcdder",
    private: false,
};

#[test]
fn all_keys_are_read(rt: HostRuntime) {
    read(&rt, rt.alloc(), &LARGEST);
}

/// A line behind the address, and the key whose value is refused for it.
type Row = (&'static str, Key);

fn refuse_all(rt: &impl Abort, alloc: Global, rows: &[Row], fault: FieldFault) {
    for (line, key) in rows {
        same_for(rt, line, refusal_with(alloc, line), refused(*key, fault));
    }
}

static NOT_ALLOWED: [Row; 12] = [
    ("workers = 0", Key::Workers),
    ("workers = 65", Key::Workers),
    ("workers = -1", Key::Workers),
    ("outbox_limit = 65535", Key::OutboxLimit),
    ("outbox_limit = 67108865", Key::OutboxLimit),
    ("protocol_version = ''", Key::ProtocolVersion),
    ("protocol_version = '0 38'", Key::ProtocolVersion),
    (
        "spring_version = 'a234567890a234567890a234567890abc'",
        Key::SpringVersion,
    ),
    ("udp_port = 65536", Key::UdpPort),
    ("server_mode = 2", Key::ServerMode),
    ("log = 'All'", Key::Log),
    ("log = ''", Key::Log),
];

#[test]
fn each_value_has_its_bounds(rt: HostRuntime) {
    refuse_all(&rt, rt.alloc(), &NOT_ALLOWED, FieldFault::NotAllowed);
}

static OTHER_KIND: [Row; 13] = [
    ("workers = '4'", Key::Workers),
    ("workers = 4.0", Key::Workers),
    ("outbox_limit = []", Key::OutboxLimit),
    ("protocol_version = 0.38", Key::ProtocolVersion),
    ("spring_version = 105", Key::SpringVersion),
    ("udp_port = true", Key::UdpPort),
    ("server_mode = false", Key::ServerMode),
    ("motd = 'Welcome!'", Key::Motd),
    ("stop_at_input_end = 1", Key::StopAtInputEnd),
    ("proxies = '127.0.0.1'", Key::Proxies),
    ("log = true", Key::Log),
    ("record = true", Key::Record),
    ("private = 'no'", Key::Private),
];

#[test]
fn each_value_has_its_kind(rt: HostRuntime) {
    refuse_all(&rt, rt.alloc(), &OTHER_KIND, FieldFault::OtherKind);
}

static ADDRESSES: [(&[u8], FieldFault); 5] = [
    (b"workers = 4", FieldFault::Missing),
    (b"address = 8200", FieldFault::OtherKind),
    (b"address = 'localhost:8200'", FieldFault::NotAllowed),
    (b"address = '127.0.0.1'", FieldFault::NotAllowed),
    (b"address = '127.0.0.1:08200'", FieldFault::NotAllowed),
];

#[test]
fn an_address_is_four_numbers_and_a_port(rt: HostRuntime) {
    for (file, fault) in &ADDRESSES {
        let told = refusal(rt.alloc(), file);
        same_for(&rt, file, told, refused(Key::Address, *fault));
    }
}

/// A message of the day of so many empty lines.
fn motd_of(alloc: Global, count: u32) -> Result<String, AllocError> {
    let mut line = String::new(alloc);
    line.push_str("motd = [")?;
    for _ in 0..count {
        line.push_str("'',")?;
    }
    line.push_str("]")?;
    Ok(line)
}

fn refusal_of_lines(alloc: Global, count: u32) -> Option<SetupFault> {
    match motd_of(alloc, count) {
        Ok(line) => refusal_with(alloc, line.as_str()),
        Err(AllocError) => Some(SetupFault::Memory),
    }
}

fn bad_line(place: usize, fault: FieldFault) -> Option<SetupFault> {
    Some(SetupFault::Unusable(Refusal::MotdLine { place, fault }))
}

static BAD_LINES: [(&str, FieldFault); 2] = [
    ("motd = ['a', \"b\\nc\", 5]", FieldFault::NotAllowed),
    ("motd = ['a', 5, \"b\\r\"]", FieldFault::OtherKind),
];

#[test]
fn the_first_bad_line_of_the_day_is_named(rt: HostRuntime) {
    for (line, fault) in &BAD_LINES {
        same_for(
            &rt,
            line,
            refusal_with(rt.alloc(), line),
            bad_line(2, *fault),
        );
    }
    same(&rt, refusal_of_lines(rt.alloc(), 100), None);
    same(
        &rt,
        refusal_of_lines(rt.alloc(), 101),
        bad_line(101, FieldFault::NotAllowed),
    );
}

/// Fronts at so many addresses.
fn proxies_of(alloc: Global, count: u32) -> Result<String, AllocError> {
    let mut line = String::new(alloc);
    line.push_str("proxies = [")?;
    for _ in 0..count {
        line.push_str("'10.0.0.1',")?;
    }
    line.push_str("]")?;
    Ok(line)
}

fn refusal_of_proxies(alloc: Global, count: u32) -> Option<SetupFault> {
    match proxies_of(alloc, count) {
        Ok(line) => refusal_with(alloc, line.as_str()),
        Err(AllocError) => Some(SetupFault::Memory),
    }
}

fn bad_proxy(place: usize, fault: FieldFault) -> Option<SetupFault> {
    Some(SetupFault::Unusable(Refusal::Proxy { place, fault }))
}

static BAD_PROXIES: [(&str, FieldFault); 4] = [
    (
        "proxies = ['10.0.0.1', '10.0.0.01', 5]",
        FieldFault::NotAllowed,
    ),
    (
        "proxies = ['10.0.0.1', 'localhost']",
        FieldFault::NotAllowed,
    ),
    (
        "proxies = ['10.0.0.1', '10.0.0.1:80']",
        FieldFault::NotAllowed,
    ),
    ("proxies = ['10.0.0.1', 5, '']", FieldFault::OtherKind),
];

#[test]
fn the_first_bad_address_of_a_front_is_named(rt: HostRuntime) {
    for (line, fault) in &BAD_PROXIES {
        same_for(
            &rt,
            line,
            refusal_with(rt.alloc(), line),
            bad_proxy(2, *fault),
        );
    }
    same(&rt, refusal_of_proxies(rt.alloc(), 64), None);
    same(
        &rt,
        refusal_of_proxies(rt.alloc(), 65),
        bad_proxy(65, FieldFault::NotAllowed),
    );
}

/// Whether an error shows itself by this text.
fn shows(alloc: Global, error: Option<SetupFault>, wanted: &str) -> bool {
    match error {
        Some(error) => match format!(in alloc; "{error}") {
            Ok(text) => text.as_str() == wanted,
            Err(_) => false,
        },
        None => false,
    }
}

static TEXTS: [(&[u8], &str); 5] = [
    (
        b"workers = 4\naddress = '127.0.0.1:0\n",
        "line 2 is not TOML",
    ),
    (
        b"",
        "`address` is missing: expected an IPv4 address and a port, as \"127.0.0.1:8200\"",
    ),
    (
        b"address = '127.0.0.1:0'\nworkers = 65",
        "`workers` is not allowed: expected a whole number from 1 to 64",
    ),
    (
        b"address = '127.0.0.1:0'\nmotd = [5]",
        "line 1 of `motd` is of another kind: expected a list of at most 100 texts of at most 1000 bytes without CR and LF",
    ),
    (
        b"address = '127.0.0.1:0'\nproxies = ['10.0.0.1', '::1']",
        "address 2 of `proxies` is not allowed: expected a list of at most 64 IPv4 addresses, as [\"127.0.0.1\"]",
    ),
];

#[test]
fn a_refusal_says_what_is_wrong_and_where(rt: HostRuntime) {
    for (file, text) in &TEXTS {
        let told = refusal(rt.alloc(), file);
        same_for(&rt, text, shows(rt.alloc(), told, text), true);
    }
}

/// What the short reading answers for a file that the long one refuses so.
fn without_cause(fault: SetupFault) -> SetupError {
    match fault {
        SetupFault::Unusable(_) => SetupError::Unusable,
        SetupFault::Memory => SetupError::Memory,
    }
}

#[test]
fn each_front_of_a_file_has_an_answer(rt: HostRuntime) {
    for len in 0..ALL.len() {
        let front = &ALL[..len];
        let told = refusal(rt.alloc(), front);
        same_for(&rt, &len, told == Some(SetupFault::Memory), false);
        let told_shortly = read_setup(rt.alloc(), front).err();
        same_for(&rt, &len, told_shortly, told.map(without_cause));
    }
}
