//! Why a reader stops.

ghost use Rattle.std.specs.Prelude.{◌≡◌};
ghost use Rattle.command_grammar.specs.declared.fault.ReadError.TheVariants.{Fault, Memory};

use crate::command::ReadFault;
use std::alloc::AllocError;

/// The line is not a command, or memory for an argument was refused.
#[derive(Drop)]
pub enum ReadError {
    /// The line is not a command, for this reason.
    Fault(ReadFault),
    /// Memory for an argument was refused.
    Memory(AllocError),
}

impl From<ReadFault> for ReadError {
    ghost from_gives = { λ fault error. error ≡ Fault fault };

    fn from(fault: ReadFault) -> ReadError {
        ReadError::Fault(fault)
    }
}

impl From<AllocError> for ReadError {
    ghost from_gives = { λ refusal error. error ≡ Memory refusal };

    fn from(refusal: AllocError) -> ReadError {
        ReadError::Memory(refusal)
    }
}
