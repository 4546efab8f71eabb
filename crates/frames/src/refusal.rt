ghost use Rattle.std.specs.Prelude.{◌≡◌, Some};
ghost use Rattle.frames.specs.Refusals.{number_of};
ghost use Rattle.frames.specs.Texts.{refusal_text};

use std::error::Error;
use std::fmt;

// Why a frame or a queue is not made.
#[derive(Clone, Copy, PartialEq, Eq, Debug)]
pub enum Refusal {
    // The lent memory has no place, or more than 64.
    Memory,
    // The identifier is above 2047, or there are more than 8 bytes.
    Malformed,
}

impl Refusal {
    // The number under which the refusal is reported.
    pub fn number(self) -> u8
        ensures { result ≡ number_of self }
    {
        match self {
            Refusal::Memory => 9,
            Refusal::Malformed => 11,
        }
    }
}

impl fmt::Display for Refusal {
    ghost output = { λ e. Some (refusal_text e) };

    fn fmt<W: fmt::Write>(&self, f: &mut fmt::Formatter<W>) -> fmt::Result {
        f.write_str(match self {
            Refusal::Memory => "the queue's memory has no place or more than 64",
            Refusal::Malformed => "the identifier is above 2047, or there are more than 8 bytes",
        })
    }
}

impl Error for Refusal {}
