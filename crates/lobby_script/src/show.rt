//! Shows what was put to a client.

ghost use Rattle.std.specs.Prelude.{◌≡◌, [], ◌∷◌, ◌++◌, length, drop, IfOk, OnOk, Err};
ghost use Rattle.std.specs.Io.KnownBytes.{Appends, Keeps};
ghost use Rattle.lobby_hall.specs.Record.{log_at};
ghost use Rattle.lobby_script.specs.Acts.{labelled};
ghost use Rattle.lobby_script.specs.declared.fault.LineFault.TheVariants as fault;

use crate::fault::LineFault;
use itoa::Buffer;
use lobby_hall::Hall;
use proxy_line::part_at;
use std::io;
use std::io::Write;

/// Writes the lines put to a client of which `shown` bytes were shown before, each after the label.
/// How many bytes were put to it in all; on `Memory` nothing was written.
pub fn show<W: Write>(
    hall: &mut Hall,
    client: u64,
    label: u32,
    shown: usize,
    writer: &mut W,
) -> Result<usize, LineFault>
    ensures stays { OnOk result (hall.new ≡ hall.old) }
    ensures all { IfOk result (λ put. put ≡ length (log_at hall.old.record_so_far client).put) }
    ensures writes { OnOk result (Appends (W.contents writer.old) (W.contents writer.new)
        (labelled label (drop shown (log_at hall.old.record_so_far client).put))) }
    ensures memory { result ≡ Err fault.Memory → Keeps (W.contents writer.old) (W.contents writer.new) }
    ensures step { result ≡ Err fault.BadStep → ⊥ }
{
    let put = hall.record()?.put(client);
    let new = put.get(shown..).unwrap_or(&[]);
    write_lines(label, new, writer)?;
    Ok(put.len())
}

fn write_lines<W: Write>(label: u32, bytes: &[u8], writer: &mut W) -> io::Result<()>
    ensures { OnOk result (Appends (W.contents writer.old) (W.contents writer.new) (labelled label bytes.now)) }
{
    let mut buffer = Buffer::new();
    let name = buffer.format(label).as_bytes();
    let mut rest = bytes;
    while let Some((line, behind)) = part_at(rest, b'\n') {
        write_line(name, line, writer)?;
        rest = behind;
    }
    Ok(())
}

fn write_line<W: Write>(name: &[u8], line: &[u8], writer: &mut W) -> io::Result<()>
    ensures { OnOk result (Appends (W.contents writer.old) (W.contents writer.new) (name.now ++ 62 ∷ 32
        ∷ (line.now ++ 10 ∷ []))) }
{
    writer.write_all(name)?;
    writer.write_all(b"> ")?;
    writer.write_all(line)?;
    writer.write_all(b"\n")
}
