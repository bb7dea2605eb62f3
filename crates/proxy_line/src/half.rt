//! The line as it comes, byte by byte.

ghost use Rattle.std.specs.Prelude.{◌≡◌, ◌∷◌, ◌++◌, []};

use crate::line::{LONGEST, ProxySource, read_proxy_line};
use std::marker::Model;

/// What one more byte came to.
#[derive(Clone, Copy, PartialEq, Eq, Debug)]
pub enum Step {
    /// The line goes on.
    More,
    /// The line is whole, and says where the connection comes from.
    Whole(ProxySource),
    /// The line has ended, or has 107 bytes, and is none with which a front begins.
    Refused,
}

/// The front of a line, without its LF: at most 106 bytes.
#[derive(Drop)]
pub struct HalfLine {
    bytes: [u8; LONGEST],
    count: usize,
}

impl Model for HalfLine {
    ghost use Rattle.std.specs.Prelude.{◌≡◌, ℕ, ◌<◌, List, take, false};
    ghost use Rattle.line_words.specs.Bytes.{has_byte};

    ghost Value = { List ℕ };

    ghost view = { λ half. take half.count half.bytes };

    ghost invariant = { λ half. (half.count < 107) × (has_byte 10 (take half.count half.bytes) ≡ false) };
}

impl HalfLine {
    ghost use Rattle.proxy_line.specs.Steps.{IsStep};
    ghost use Rattle.proxy_line.specs.declared.half.Step.TheVariants as step;

    /// Nothing yet.
    pub fn new() -> HalfLine
        ensures { result ≡ [] }
    {
        HalfLine {
            bytes: [0; LONGEST],
            count: 0,
        }
    }

    /// Takes the next byte. It is kept where the line goes on.
    pub fn take(&mut self, byte: u8) -> Step
        ensures step { IsStep (self.old ++ byte ∷ []) result }
        ensures kept { result ≡ step.More → self.new ≡ self.old ++ byte ∷ [] }
    {
        self.bytes[self.count] = byte;
        let line = &self.bytes[..self.count + 1];
        if byte != b'\n' && line.len() < LONGEST {
            self.count += 1;
            return Step::More;
        }
        match read_proxy_line(line) {
            Some(source) => Step::Whole(source),
            None => Step::Refused,
        }
    }
}
