//! Plays a whole script.

ghost use Rattle.std.specs.Prelude.{◌≡◌, ◌<◌, ◌≤◌, ℕ, List, length, Err, IfSome, OnOk};
ghost use Rattle.std.specs.Io.KnownBytes.{Appends, Keeps};
ghost use Rattle.lobby_script.specs.Player.{IsAt};
ghost use Rattle.lobby_script.specs.Prepared.{nothing_set};
ghost use Rattle.lobby_script.specs.Scene.{unopened};
ghost use Rattle.lobby_script.specs.Script.{OutputOf, OutputOfFront, StopsAt};
ghost use Rattle.lobby_script.specs.declared.fault.PlayFault.TheVariants as fault;

use crate::fault::PlayFault;
use crate::input::{SCRIPT_LIMIT, read_script};
use crate::lines::Lines;
use crate::player::Player;
use std::alloc::Global;
use std::io::{Read, Write};

/// Reads a whole script, plays it from the empty lobby with the default settings on, and writes
/// what it shows. `BadStep` tells the first line that a script may not have there, and the lines
/// before it have played. A script of more than 1,048,576 bytes is `TooLong`, and a read that
/// fails, or an end that does not come within 1,048,577 reads, is `Device`: both come before
/// anything is written, so nothing of a script that is too long is ever played. A write that fails
/// is `Device` too, and what stands written then is open. Where memory is refused, what is written
/// is the output of the script's first lines.
pub fn play<R: Read, W: Write>(
    alloc: Global,
    reader: &mut R,
    writer: &mut W,
) -> Result<(), PlayFault>
    ensures ok { OnOk result (IfSome (R.remaining reader.old) (λ script.
        (out : List ℕ) × OutputOf script out × Appends (W.contents writer.old) (W.contents writer.new) out)) }
    ensures bad_step { (line : ℕ) → result ≡ Err (fault.BadStep line) → IfSome (R.remaining reader.old) (λ script.
        (out : List ℕ) × StopsAt script line out × Appends (W.contents writer.old) (W.contents writer.new) out) }
    ensures too_long { result ≡ Err fault.TooLong
        → IfSome (R.remaining reader.old) (λ script. SCRIPT_LIMIT < length script)
        × Keeps (W.contents writer.old) (W.contents writer.new) }
    ensures memory { result ≡ Err fault.Memory
        → IfSome (R.remaining reader.old) (λ script.
        (out : List ℕ) × OutputOfFront script out × Appends (W.contents writer.old) (W.contents writer.new) out) }
    ensures fits { OnOk result (IfSome (R.remaining reader.old) (λ script. length script ≤ SCRIPT_LIMIT)) }
    ensures bad_step_fits { (line : ℕ) → result ≡ Err (fault.BadStep line)
        → IfSome (R.remaining reader.old) (λ script. length script ≤ SCRIPT_LIMIT) }
    ensures nothing_of_too_long { IfSome (R.remaining reader.old) (λ script. SCRIPT_LIMIT < length script
        → Keeps (W.contents writer.old) (W.contents writer.new)) }
{
    let script = read_script(alloc, reader)?;
    let played = play_script(alloc, script.as_slice(), writer);
    // What was shown before a bad step is to be seen too.
    let flushed = writer.flush();
    played?;
    flushed.map_err(|_| PlayFault::Device)
}

/// Plays the lines of a script from the empty lobby on, and writes what it shows.
fn play_script<W: Write>(alloc: Global, script: &[u8], writer: &mut W) -> Result<(), PlayFault>
    requires { length script.now ≤ SCRIPT_LIMIT }
    ensures ok { OnOk result ((out : List ℕ) × OutputOf script.now out
        × Appends (W.contents writer.old) (W.contents writer.new) out) }
    ensures bad_step { (line : ℕ) → result ≡ Err (fault.BadStep line)
        → (out : List ℕ) × StopsAt script.now line out × Appends (W.contents writer.old) (W.contents writer.new) out }
    ensures memory { result ≡ Err fault.Memory
        → (out : List ℕ) × OutputOfFront script.now out × Appends (W.contents writer.old) (W.contents writer.new) out }
    ensures too_long { result ≡ Err fault.TooLong → ⊥ }
{
    let mut player = Player::new(alloc);
    let played = play_lines(&mut player, script, writer);
    drop(player);
    played
}

/// Has the player play the lines of a script. It played none before.
fn play_lines<W: Write>(player: &mut Player, script: &[u8], writer: &mut W) -> Result<(), PlayFault>
    requires fits { length script.now ≤ SCRIPT_LIMIT }
    requires fresh { IsAt player.old (unopened nothing_set) }
    ensures ok { OnOk result ((out : List ℕ) × OutputOf script.now out
        × Appends (W.contents writer.old) (W.contents writer.new) out) }
    ensures bad_step { (line : ℕ) → result ≡ Err (fault.BadStep line)
        → (out : List ℕ) × StopsAt script.now line out × Appends (W.contents writer.old) (W.contents writer.new) out }
    ensures memory { result ≡ Err fault.Memory
        → (out : List ℕ) × OutputOfFront script.now out × Appends (W.contents writer.old) (W.contents writer.new) out }
    ensures too_long { result ≡ Err fault.TooLong → ⊥ }
{
    let mut number = 0u64;
    for line in Lines::of(script) {
        number += 1;
        if let Err(fault) = player.play_line(line, writer) {
            return Err(fault.at(number));
        }
    }
    Ok(())
}
