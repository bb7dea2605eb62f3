//! Bytes as a script writes them.
#![tactic(auto, using(reply_printer::proofs::Kept::front_more, reply_printer::proofs::Kept::front_all))]

ghost use Rattle.std.specs.Prelude.{◌≡◌, ◌<◌, ◌≤◌, ◌++◌, ◌∷◌, IfOk, OnErr, vec_capacity};
ghost use Rattle.std.specs.Char.{digit_char};
ghost use Rattle.reply_printer.specs.Fronts.{Keeps, LacksRoom};
ghost use Rattle.record_lines.specs.Printed.{escaped, escaped_byte, hexadecimal_digits};

use std::alloc::AllocError;

/// Appends the bytes. A backslash and each byte that a terminal obeys are escapes, all others stand as they are: no
/// line is forged, and every language stays readable.
#[tactic(auto, using(reply_printer::proofs::Kept::front_more, reply_printer::proofs::Kept::front_all), unfolding(crate::specs::Printed::escaped))]
pub(crate) fn put_escaped(out: &mut Vec<u8>, bytes: &[u8]) -> Result<(), AllocError>
    ensures ok { IfOk result (λ _. out.new.items ≡ out.old.items ++ escaped bytes.now) }
    ensures wanted { OnErr result (LacksRoom out.old (escaped bytes.now)) }
    ensures kept { Keeps out.old.items out.new.items }
    ensures room { vec_capacity out.old ≤ vec_capacity out.new }
{
    for byte in bytes {
        put_byte(out, *byte)?;
    }
    Ok(())
}

fn put_byte(out: &mut Vec<u8>, byte: u8) -> Result<(), AllocError>
    ensures ok { IfOk result (λ _. out.new.items ≡ out.old.items ++ escaped_byte byte) }
    ensures wanted { OnErr result (LacksRoom out.old (escaped_byte byte)) }
    ensures kept { Keeps out.old.items out.new.items }
    ensures room { vec_capacity out.old ≤ vec_capacity out.new }
{
    match byte {
        b'\\' => out.extend_from_slice(b"\\\\"),
        b'\n' => out.extend_from_slice(b"\\n"),
        b'\t' => out.extend_from_slice(b"\\t"),
        b'\r' => out.extend_from_slice(b"\\r"),
        0..=31 | 127 => {
            out.extend_from_slice(b"\\x")?;
            put_hexadecimal(out, byte)
        }
        _ => {
            out.push(byte)?;
            Ok(())
        }
    }
}

/// Appends a byte as two hexadecimal digits.
pub(crate) fn put_hexadecimal(out: &mut Vec<u8>, byte: u8) -> Result<(), AllocError>
    ensures ok { IfOk result (λ _. out.new.items ≡ out.old.items ++ hexadecimal_digits byte) }
    ensures wanted { OnErr result (LacksRoom out.old (hexadecimal_digits byte)) }
    ensures kept { Keeps out.old.items out.new.items }
    ensures room { vec_capacity out.old ≤ vec_capacity out.new }
{
    out.extend_from_slice(&[digit(byte / 16), digit(byte % 16)])
}

/// The hexadecimal digit of a number.
fn digit(n: u8) -> u8
    requires { n < 16 }
    ensures { result ≡ digit_char n }
{
    if n < 10 { b'0' + n } else { b'a' - 10 + n }
}
