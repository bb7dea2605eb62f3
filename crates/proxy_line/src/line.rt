//! The whole line.

ghost use Rattle.std.specs.Prelude.{◌≡◌, ℕ, ◌↔◌, List, IfSome, IsSomeAnd, IsTrue};
ghost use Rattle.proxy_line.specs.Words.{Finds, IsPort};
ghost use Rattle.proxy_line.specs.Routes.{ArePorts, IsRoute, IsSomePort, LeadsWithAddress};
ghost use Rattle.proxy_line.specs.Lines.{address, IsLineOf, IsProxyLine, Says};

use crate::addresses::{address, port};
use crate::numbers::part_at;

/// The most bytes that a line has, its CR LF counted.
pub const LONGEST: usize = 107;

/// Where a line says that the connection comes from.
#[derive(Clone, Copy, PartialEq, Eq, Debug)]
pub enum ProxySource {
    /// From this address.
    Given([u8; 4]),
    /// The line gives none: from where it comes without the line.
    OwnAddress,
}

impl ProxySource {
    /// Where a connection comes from that comes from `own` without the line.
    pub fn address(self, own: [u8; 4]) -> [u8; 4]
        ensures { result ≡ address own self }
    {
        match self {
            ProxySource::Given(source) => source,
            ProxySource::OwnAddress => own,
        }
    }
}

/// Where a connection comes from that begins with this line, its CR LF counted:
///
/// - `PROXY TCP4 SOURCE DESTINATION SOURCE_PORT DESTINATION_PORT` gives the source: two IPv4 addresses and two ports, 0
///   to 65535, all
///   without leading zeros, each behind one space;
/// - `PROXY UNKNOWN`, and `PROXY UNKNOWN ` with anything but LF behind it, give none.
///
/// `None` at any other line, and at one of more than 107 bytes.
pub fn read_proxy_line(line: &[u8]) -> Option<ProxySource>
    ensures { Finds (IsProxyLine line.now) result }
{
    if line.len() > LONGEST {
        return None;
    }
    source_in(text_of(line)?)
}

/// The text of a line, without its CR LF; `None` where it does not end so, or has an LF before.
fn text_of(line: &[u8]) -> Option<&[u8]>
    ensures sound { IfSome result (λ text. IsLineOf line.now text.now) }
    ensures complete { (text : List ℕ) → IsLineOf line.now text → IsSomeAnd result (λ found. found.now ≡ text) }
{
    let text = line.strip_suffix(b"\r\n")?;
    if text.contains(&b'\n') {
        None
    } else {
        Some(text)
    }
}

/// Where the text of a line says that the connection comes from.
fn source_in(text: &[u8]) -> Option<ProxySource>
    ensures { Finds (Says text.now) result }
{
    if let Some(route) = text.strip_prefix(b"PROXY TCP4 ") {
        return Some(ProxySource::Given(source_of(route)?));
    }
    if text == b"PROXY UNKNOWN".as_slice() || text.starts_with(b"PROXY UNKNOWN ") {
        Some(ProxySource::OwnAddress)
    } else {
        None
    }
}

/// The source of `SOURCE DESTINATION SOURCE_PORT DESTINATION_PORT`.
fn source_of(route: &[u8]) -> Option<[u8; 4]>
    ensures { Finds (IsRoute route.now) result }
{
    let (source, rest) = address_before_space(route)?;
    let (_, ports) = address_before_space(rest)?;
    if are_ports(ports) { Some(source) } else { None }
}

/// The address before the first space, and what stands behind that.
fn address_before_space(text: &[u8]) -> Option<([u8; 4], &[u8])>
    ensures sound { IfSome result (λ parts. LeadsWithAddress text.now parts.0 parts.1.now) }
    ensures complete { (ip rest : List ℕ) → LeadsWithAddress text.now ip rest
        → IsSomeAnd result (λ parts. (parts.0 ≡ ip) × (parts.1.now ≡ rest)) }
{
    let (host, rest) = part_at(text, b' ')?;
    Some((address(host)?, rest))
}

/// Whether the text is two ports with a space between them.
fn are_ports(text: &[u8]) -> bool
    ensures { IsTrue result ↔ ArePorts text.now }
{
    match part_at(text, b' ') {
        Some((source, destination)) => is_port(source) && is_port(destination),
        None => false,
    }
}

/// Whether the text is a port.
fn is_port(text: &[u8]) -> bool
    ensures { IsTrue result ↔ IsSomePort text.now }
{
    port(text).is_some()
}
