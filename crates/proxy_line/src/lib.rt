//! IPv4 addresses and ports as text, and the PROXY line with which a front begins a connection.
//!
//! [`read_proxy_line`] gives the [`ProxySource`] of a whole line, which is where the connection comes from.
//!
//! The check has good lines with the address that each gives. `ADDRESS` is the one from which the front itself
//! connects.
//!
//! For example (`checks/proxy.py`):
//!
//! ```text
//! ("PROXY TCP4 255.255.255.255 255.255.255.255 65535 65535\r\n", "255.255.255.255"),
//! ("PROXY TCP4 0.0.0.0 0.0.0.0 0 0\r\n", "0.0.0.0"),
//! ("PROXY UNKNOWN\r\n", ADDRESS),
//! ```
//!
//! A front, such as one that ends TLS, connects in the place of its client, so its line says where the client is.
//! The line is that of version 1 of the PROXY protocol, for IPv4. [`HalfLine`] takes it byte by byte, as it comes.
//! [`address`], [`port`] and [`number`] read a text that is one as a whole, without leading zeros.
#![tactic(auto)]

mod addresses;
mod half;
mod line;
mod numbers;
mod proxies;

pub use addresses::{address, port, socket_address};
pub use half::{HalfLine, Step};
pub use line::{LONGEST, ProxySource, read_proxy_line};
pub use numbers::{number, number_before, part_at};
pub use proxies::{MOST_PROXIES, Proxies};
