//! Whether a server can listen at the address of its settings.

use proxy_line::Proxies;
use std::io::{ErrorKind, Read, Write};
use std::net::{Ipv4Addr, Net, OpenStream, SocketAddr, SocketAddrV4, TcpListener, TcpStream};
use std::time::Duration;

/// What each lobby server greets a client with.
const GREETING: &[u8] = b"TASSERVER ";

/// The line that a server waits for which takes a connection to come from a front.
const FRONT: &[u8] = b"PROXY UNKNOWN\r\n";

/// What is at an address.
#[derive(Clone, Copy, PartialEq, Eq, Debug)]
pub enum Place {
    /// Nobody: a server can listen there.
    Free,
    /// A lobby server that runs.
    Taken,
    /// None to listen at, or another program's.
    Refused,
}

/// How long a server has to connect and to greet.
fn patience() -> Duration {
    Duration::from_secs(2)
}

/// Where a server can be reached that listens at an address.
fn reached(address: SocketAddrV4) -> SocketAddrV4 {
    if address.ip().is_unspecified() {
        SocketAddrV4::new(Ipv4Addr::LOCALHOST, address.port())
    } else {
        address
    }
}

/// Whether a lobby server greets at an address, also one that knows connections of fronts.
fn greets<R: Net>(rt: &R, address: SocketAddrV4, proxies: &Proxies) -> bool
where
    R::Stream: Drop,
{
    let address = reached(address);
    let has_front = proxies.has(address.ip().octets());
    let address = SocketAddr::V4(address);
    let Ok(mut stream) = TcpStream::connect_timeout(rt, &address, patience()) else {
        return false;
    };
    let is_bounded = stream.set_read_timeout(Some(patience())).is_ok();
    let is_told = !has_front || stream.write(FRONT).is_ok();
    let mut bytes = [0; 10];
    let greets = is_bounded
        && is_told
        && stream.read(&mut bytes).is_ok()
        && bytes.as_slice() == GREETING;
    drop(stream);
    greets
}

/// Says whether a server can listen at an address, and who has it if not.
pub fn try_address<R: Net + Print>(rt: &R, address: SocketAddrV4, proxies: &Proxies) -> Place
where
    R::Stream: Drop,
    R::Listener: Drop,
{
    let kind = match TcpListener::bind(rt, SocketAddr::V4(address)) {
        Ok(listener) => {
            drop(listener);
            let _ = println!(rt; "address: {address} is free");
            return Place::Free;
        }
        Err(error) => error.kind(),
    };
    if kind == ErrorKind::AddrInUse && greets(rt, address, proxies) {
        let _ = println!(rt;
            "address: {address} is that of a lobby server that runs: it is free once that is stopped"
        );
        return Place::Taken;
    }
    let _ = if kind == ErrorKind::AddrInUse {
        println!(rt; "address: {address} is in use by another program")
    } else {
        println!(rt; "address: {address}: no server can listen there: {kind}")
    };
    Place::Refused
}
