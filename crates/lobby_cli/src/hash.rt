//! The command `hash`: one line in, its password word out.

ghost use Rattle.std.specs.Prelude.{◌≡◌, ◌≢◌, ◌<◌, ◌≤◌, length, take, IfSome};
ghost use Rattle.std.specs.Io.KnownBytes.{Keeps};
ghost use Rattle.lobby_cli.specs.Hash.{first_line, password_in, word_line, without_return, GainsFront};
ghost use Rattle.lobby_cli.specs.Reading.{GivesByte, Begins};

use account_book::password_word;
use std::io::{ErrorKind, Read, Write};

/// The longest line, in bytes before its LF, a CR counted. Without a limit an input that never ends would be read for
/// ever.
const LINE_LIMIT: usize = 8_192;

/// A line of the limit, its LF, and one read to spare for a call that was interrupted. Without a last one an input that
/// is interrupted again and again would be read for ever.
const READ_LIMIT: u32 = 8_194;

/// A write for each byte of a word's line, and some to spare for calls that were interrupted: an output that takes
/// nothing does not keep the program.
const WRITE_LIMIT: u32 = 64;

/// What one read gave.
enum Got {
    Byte(u8),
    End,
    Interrupted,
    Fault,
}

/// How an input begins.
enum Line {
    /// A password of so many bytes, without the line's end.
    Password(usize),
    /// A line over the limit.
    TooLong,
    /// A read failed, or the input was not finished after the last read.
    Fault,
}

/// Prints the password word of the input's first line, or of the whole input where it has no LF,
/// and an LF behind it.
///
/// The status is 0 for a word, 1 for a line of more than 8,192 bytes before its LF, and 2 where
/// reading failed or 8,194 reads did not come to the end of the line. With 1 and 2 nothing is
/// printed. A print that fails is ignored: what was printed is then the front of the word's line.
pub fn hash_line<R: Read, W: Write>(input: &mut R, output: &mut W) -> u8
    ensures done { result ≡ 0 → IfSome (R.remaining input.old) (λ bytes.
        (length (first_line bytes) ≤ 8192)
        × GainsFront (W.contents output.old) (W.contents output.new)
        (word_line (password_in bytes))) }
    ensures too_long { result ≡ 1 → IfSome (R.remaining input.old) (λ bytes.
        8192 < length (first_line bytes)) }
    ensures silent { result ≢ 0 → Keeps (W.contents output.old) (W.contents output.new) }
    ensures statuses { result ≤ 2 }
{
    let mut line = [0; LINE_LIMIT];
    match read_line(input, &mut line) {
        Line::Password(len) => {
            print_front(output, &word_line(&line[..len]));
            0
        }
        Line::TooLong => 1,
        Line::Fault => 2,
    }
}

/// Reads the input up to its first LF, or to its end, a byte at a time: what stands behind the LF
/// is left to whoever reads next.
fn read_line<R: Read>(input: &mut R, line: &mut [u8; LINE_LIMIT]) -> Line
    ensures { Begins (R.remaining input.old) line.new result }
{
    let mut len = 0;
    for _ in 0..READ_LIMIT {
        match read_byte(input) {
            Got::Byte(b'\n') => return Line::Password(len_without_return(&line[..len])),
            Got::Byte(_) if len >= LINE_LIMIT => return Line::TooLong,
            Got::Byte(byte) => {
                line[len] = byte;
                len += 1;
            }
            Got::End => return Line::Password(len),
            Got::Interrupted => {}
            Got::Fault => return Line::Fault,
        }
    }
    Line::Fault
}

/// Reads one byte.
fn read_byte<R: Read>(input: &mut R) -> Got
    ensures { GivesByte (R.remaining input.old) (R.remaining input.new) result }
{
    let mut byte = [0];
    match input.read(&mut byte) {
        Ok(0) => Got::End,
        Ok(_) => Got::Byte(byte[0]),
        Err(e) if e.kind() == ErrorKind::Interrupted => Got::Interrupted,
        Err(_) => Got::Fault,
    }
}

/// The length of a line without one CR at its end.
fn len_without_return(line: &[u8]) -> usize
    ensures line { take result line.now ≡ without_return line.now }
    ensures within { result ≤ length line.now }
{
    match line {
        [.., b'\r'] => line.len() - 1,
        _ => line.len(),
    }
}

/// The word of a password and an LF.
fn word_line(password: &[u8]) -> [u8; 25]
    ensures { result ≡ word_line password.now }
{
    let mut line = [b'\n'; 25];
    line[..24].copy_from_slice(&password_word(password));
    line
}

/// Prints a text, up to the first write that is refused.
fn print_front<W: Write>(output: &mut W, text: &[u8])
    ensures { GainsFront (W.contents output.old) (W.contents output.new) text.now }
{
    let mut written = 0;
    for _ in 0..WRITE_LIMIT {
        match output.write(&text[written..]) {
            Ok(0) => return,
            Ok(count) => written += count,
            Err(e) if e.kind() == ErrorKind::Interrupted => {}
            Err(_) => return,
        }
        if written == text.len() {
            return;
        }
    }
}
