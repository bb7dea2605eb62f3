//! Numbers and addresses that are written as they have to be, and ones that nearly are.

use crate::verdict::{same, same_for};
use proxy_line::{address, number, number_before, part_at, socket_address};

static NUMBERS: [(&[u8], Option<u32>); 9] = [
    (b"0", Some(0)),
    (b"10", Some(10)),
    (b"4294967295", Some(u32::MAX)),
    (b"4294967296", None),
    (b"", None),
    (b"01", None),
    (b"+1", None),
    (b"-1", None),
    (b"1 ", None),
];

#[test]
fn numbers_have_no_leading_zeros(rt: HostRuntime) {
    for (text, want) in &NUMBERS {
        same_for(&rt, text, number(text), *want);
    }
    same(
        &rt,
        (number_before(b"12 rest", b' '), number_before(b"12", b' ')),
        (Some((12, b"rest".as_slice())), None),
    );
    same(
        &rt,
        part_at(b"a=b=c", b'='),
        Some((b"a".as_slice(), b"b=c".as_slice())),
    );
}

static ADDRESSES: [(&[u8], Option<[u8; 4]>); 8] = [
    (b"127.0.0.1", Some([127, 0, 0, 1])),
    (b"255.255.255.255", Some([255, 255, 255, 255])),
    (b"256.0.0.1", None),
    (b"10.0.0", None),
    (b"10.0.0.1.2", None),
    (b"10.0.0.01", None),
    (b"10..0.1", None),
    (b"localhost", None),
];

#[test]
fn addresses_have_four_numbers(rt: HostRuntime) {
    for (text, want) in &ADDRESSES {
        same_for(&rt, text, address(text), *want);
    }
}

const HERE: [u8; 4] = [127, 0, 0, 1];

static PORTS: [(&[u8], Option<([u8; 4], u16)>); 8] = [
    (b"127.0.0.1:8200", Some((HERE, 8200))),
    (b"127.0.0.1:0", Some((HERE, 0))),
    (b"127.0.0.1:65535", Some((HERE, u16::MAX))),
    (b"127.0.0.1:65536", None),
    (b"127.0.0.1:08200", None),
    (b"127.0.0.1:", None),
    (b"127.0.0.1", None),
    (b"[::1]:8200", None),
];

#[test]
fn a_port_stands_behind_a_colon(rt: HostRuntime) {
    for (text, want) in &PORTS {
        same_for(&rt, text, socket_address(text), *want);
    }
}
