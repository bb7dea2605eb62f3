//! The line of each step, behind the place of its event.
#![tactic(auto, using(reply_printer::proofs::Kept::front_more, reply_printer::proofs::Kept::front_all))]

ghost use Rattle.std.specs.Prelude.{◌≡◌, ◌<◌, ◌≤◌, ◌+◌, ◌^◌, [], ◌∷◌, ◌++◌, decimal, IfOk, OnOk, IfErr};
ghost use Rattle.std.specs.Prelude.{Err, OnErr, length, slice_index, vec_capacity};
ghost use Rattle.arrayvec.specs.ArrayVec.{array_vec_len};
ghost use Rattle.proxy_line.specs.Words.{dotted};
ghost use Rattle.reply_printer.specs.Fronts.{Keeps, LacksRoom};
ghost use Rattle.record_lines.specs.Steps.{Open, Send, Take, Read, Shut, step_verb};
ghost use Rattle.record_lines.specs.Printed.{AreOctets, NumberRefused, Prints, StepRefused, escaped, front, printed};

use crate::escapes::put_escaped;
use crate::fault::RecordFault;
use arrayvec::ArrayVec;
use itoa::Buffer;
use reply_printer::pieces::{put_behind, put_end};
use std::alloc::AllocError;

/// The most bytes of a line that has no address and nothing that a client said: a place of 20 digits, a word of four
/// letters, two numbers of ten, three spaces and an LF. Such a line is appended at once, since most are of one kind.
const SHORT: usize = 48;

/// Appends the line with which a client connects. The functions behind this one are for the other steps.
pub(crate) fn put_open(
    out: &mut Vec<u8>,
    place: u64,
    label: u64,
    ip: [u8; 4],
) -> Result<(), RecordFault>
    ensures ok { OnOk result (Prints place (Open label ip) out.old.items out.new.items) }
    ensures refused { IfErr result (λ e. StepRefused e (Open label ip)) }
    ensures wanted { result ≡ Err RecordFault.Memory → LacksRoom out.old (printed place (Open label ip)) }
    ensures kept { Keeps out.old.items out.new.items }
    ensures room { vec_capacity out.old ≤ vec_capacity out.new }
{
    put_front(out, place, b"open", label)?;
    put_address(out, ip)?;
    put_end(out)?;
    Ok(())
}

pub(crate) fn put_send(
    out: &mut Vec<u8>,
    place: u64,
    label: u64,
    bytes: &[u8],
) -> Result<(), RecordFault>
    ensures ok { OnOk result (Prints place (Send label bytes.now) out.old.items out.new.items) }
    ensures refused { IfErr result (λ e. StepRefused e (Send label bytes.now)) }
    ensures wanted { result ≡ Err RecordFault.Memory → LacksRoom out.old (printed place (Send label bytes.now)) }
    ensures kept { Keeps out.old.items out.new.items }
    ensures room { vec_capacity out.old ≤ vec_capacity out.new }
{
    put_front(out, place, b"send", label)?;
    put_bytes(out, bytes)?;
    put_end(out)?;
    Ok(())
}

pub(crate) fn put_take(out: &mut Vec<u8>, place: u64, label: u64) -> Result<(), RecordFault>
    ensures ok { OnOk result (Prints place (Take label) out.old.items out.new.items) }
    ensures refused { IfErr result (λ e. StepRefused e (Take label)) }
    ensures wanted { result ≡ Err RecordFault.Memory → LacksRoom out.old (printed place (Take label)) }
    ensures kept { Keeps out.old.items out.new.items }
    ensures room { vec_capacity out.old ≤ vec_capacity out.new }
{
    put_front(out, place, b"take", label)?;
    put_end(out)?;
    Ok(())
}

pub(crate) fn put_read(
    out: &mut Vec<u8>,
    place: u64,
    label: u64,
    count: u64,
) -> Result<(), RecordFault>
    ensures ok { OnOk result (Prints place (Read label count) out.old.items out.new.items) }
    ensures refused { IfErr result (λ e. StepRefused e (Read label count)) }
    ensures wanted { result ≡ Err RecordFault.Memory → LacksRoom out.old (printed place (Read label count)) }
    ensures kept { Keeps out.old.items out.new.items }
    ensures room { vec_capacity out.old ≤ vec_capacity out.new }
{
    let line = read_line(place, small(label)?, small(count)?);
    out.extend_from_slice(&line)?;
    Ok(())
}

pub(crate) fn put_shut(out: &mut Vec<u8>, place: u64, label: u64) -> Result<(), RecordFault>
    ensures ok { OnOk result (Prints place (Shut label) out.old.items out.new.items) }
    ensures refused { IfErr result (λ e. StepRefused e (Shut label)) }
    ensures wanted { result ≡ Err RecordFault.Memory → LacksRoom out.old (printed place (Shut label)) }
    ensures kept { Keeps out.old.items out.new.items }
    ensures room { vec_capacity out.old ≤ vec_capacity out.new }
{
    put_front(out, place, b"shut", label)?;
    put_end(out)?;
    Ok(())
}

/// Appends the front of a line: the place, the word of the step and the client's label.
fn put_front(out: &mut Vec<u8>, place: u64, verb: &[u8; 4], label: u64) -> Result<(), RecordFault>
    ensures ok { OnOk result (out.new.items ≡ out.old.items ++ front place verb.now label) }
    ensures small { OnOk result (label < 2 ^ 32) }
    ensures refused { IfErr result (λ e. NumberRefused e label) }
    ensures wanted { result ≡ Err RecordFault.Memory → LacksRoom out.old (front place verb.now label) }
    ensures kept { Keeps out.old.items out.new.items }
    ensures room { vec_capacity out.old ≤ vec_capacity out.new }
{
    let line = front_of(place, verb, small(label)?);
    out.extend_from_slice(&line)?;
    Ok(())
}

/// The line with which a client reads so many bytes.
fn read_line(place: u64, label: u32, count: u32) -> ArrayVec<u8, SHORT>
    ensures { result.items ≡ (front place (step_verb (Read label count)) label ++ (32 ∷ decimal count)) ++ 10 ∷ [] }
{
    let mut line = front_of(place, b"read", label);
    push_number(&mut line, count);
    line.push(b'\n');
    line
}

/// The front of a line.
fn front_of(place: u64, verb: &[u8; 4], label: u32) -> ArrayVec<u8, SHORT>
    ensures front { result.items ≡ front place verb.now label }
    ensures room { array_vec_len result ≤ 36 }
{
    let mut line = ArrayVec::new();
    let mut digits = Buffer::new();
    push_short(&mut line, digits.format(place).as_bytes());
    line.push(b' ');
    push_short(&mut line, verb);
    push_number(&mut line, label);
    line
}

fn push_number(line: &mut ArrayVec<u8, SHORT>, n: u32)
    requires { array_vec_len line.old ≤ 37 }
    ensures text { line.new.items ≡ line.old.items ++ (32 ∷ decimal n) }
    ensures len { array_vec_len line.new ≤ array_vec_len line.old + 11 }
{
    let mut digits = Buffer::new();
    line.push(b' ');
    push_short(line, digits.format(n).as_bytes());
}

fn push_short(line: &mut ArrayVec<u8, SHORT>, bytes: &[u8])
    requires { array_vec_len line.old + length bytes.now ≤ 48 }
    ensures text { line.new.items ≡ line.old.items ++ bytes.now }
    ensures len { array_vec_len line.new ≡ array_vec_len line.old + length bytes.now }
{
    line.try_extend_from_slice(bytes).unwrap();
}

/// A number as a script has it.
fn small(number: u64) -> Result<u32, RecordFault>
    ensures ok { IfOk result (λ n. (n ≡ number) × (n < 2 ^ 32)) }
    ensures refused { IfErr result (λ e. NumberRefused e number) }
    ensures number { IfErr result (λ e. e ≡ RecordFault.Number) }
{
    match u32::try_from(number) {
        Ok(number) => Ok(number),
        Err(_) => Err(RecordFault::Number),
    }
}

fn put_bytes(out: &mut Vec<u8>, bytes: &[u8]) -> Result<(), AllocError>
    ensures ok { IfOk result (λ _. out.new.items ≡ out.old.items ++ (32 ∷ escaped bytes.now)) }
    ensures wanted { OnErr result (LacksRoom out.old (32 ∷ escaped bytes.now)) }
    ensures kept { Keeps out.old.items out.new.items }
    ensures room { vec_capacity out.old ≤ vec_capacity out.new }
{
    out.push(b' ')?;
    put_escaped(out, bytes)
}

fn put_address(out: &mut Vec<u8>, ip: [u8; 4]) -> Result<(), AllocError>
    ensures ok { IfOk result (λ _. out.new.items
        ≡ out.old.items ++ (32 ∷ dotted (slice_index ip 0) (slice_index ip 1) (slice_index ip 2) (slice_index ip 3))) }
    ensures wanted { OnErr result (LacksRoom out.old
        (32 ∷ dotted (slice_index ip 0) (slice_index ip 1) (slice_index ip 2) (slice_index ip 3))) }
    ensures octets { OnOk result (AreOctets ip) }
    ensures kept { Keeps out.old.items out.new.items }
    ensures room { vec_capacity out.old ≤ vec_capacity out.new }
{
    put_octet(out, b' ', ip[0])?;
    put_octet(out, b'.', ip[1])?;
    put_octet(out, b'.', ip[2])?;
    put_octet(out, b'.', ip[3])?;
    Ok(())
}

fn put_octet(out: &mut Vec<u8>, separator: u8, octet: u8) -> Result<(), AllocError>
    ensures ok { IfOk result (λ _. out.new.items ≡ out.old.items ++ (separator ∷ decimal octet)) }
    ensures wanted { OnErr result (LacksRoom out.old (separator ∷ decimal octet)) }
    ensures small { octet < 2 ^ 8 }
    ensures kept { Keeps out.old.items out.new.items }
    ensures room { vec_capacity out.old ≤ vec_capacity out.new }
{
    let mut digits = Buffer::new();
    put_behind(out, separator, digits.format(octet).as_bytes())
}
