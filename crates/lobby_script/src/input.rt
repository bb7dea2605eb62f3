//! Reads a whole script.

ghost use Rattle.std.specs.Prelude.{◌≡◌, ◌<◌, ◌≤◌, ℕ, length, Err, IfOk, IfSome};
ghost use Rattle.lobby_script.specs.declared.fault.PlayFault.TheVariants as fault;

use crate::fault::PlayFault;
use std::alloc::{AllocError, Global};
use std::io::{ErrorKind, Read};

/// The most bytes of a script: no device that never ends can fill the memory.
pub const SCRIPT_LIMIT: usize = 1_048_576;

/// The most reads of a script: one for each byte, and one that finds the end. Without a last one an
/// input that is interrupted again and again would be read for ever.
pub const MOST_READS: u32 = 1_048_577;

const PIECE: usize = 4096;

/// All that the reader gives: `TooLong` where that is more than a script may have, `Device` where
/// a read fails or the end does not come in time.
pub fn read_script<R: Read>(alloc: Global, reader: &mut R) -> Result<Vec<u8>, PlayFault>
    ensures all { IfOk result (λ script. IfSome (R.remaining reader.old) (λ all. script.items ≡ all)) }
    ensures short { IfOk result (λ script. length script.items ≤ SCRIPT_LIMIT) }
    ensures too_long { result ≡ Err fault.TooLong → IfSome (R.remaining reader.old) (λ all. SCRIPT_LIMIT < length all) }
    ensures no_step { (line : ℕ) → result ≡ Err (fault.BadStep line) → ⊥ }
{
    let mut script = Vec::new(alloc);
    let mut piece = [0u8; PIECE];
    for _ in 0..MOST_READS {
        match reader.read(&mut piece) {
            Ok(0) => return Ok(script),
            Ok(count) => {
                if count > SCRIPT_LIMIT - script.len() {
                    return Err(PlayFault::TooLong);
                }
                script.extend_from_slice(&piece[..count])?;
            }
            Err(error) => {
                if error.kind() != ErrorKind::Interrupted {
                    return Err(PlayFault::Device);
                }
            }
        }
    }
    Err(PlayFault::Device)
}
