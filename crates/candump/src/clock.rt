// The clock of a log: its first time stamp and the latest, in microseconds.
ghost use Rattle.std.specs.Prelude.{◌≤◌, Some};
ghost use Rattle.candump.specs.Texts.{slip_text};

use std::error::Error;
use std::fmt;

pub mod methods;

#[derive(Clone, Copy)]
pub struct Clock {
    first: u64,
    latest: u64,
    ghost ordered: { first ≤ latest },
}

// Why a time stamp cannot follow the latest.
#[derive(Clone, Copy, Debug, PartialEq, Eq)]
pub enum Slip {
    // it is earlier
    Backwards,
    // it is more than 24 hours later
    Gap,
}

impl fmt::Display for Slip {
    ghost output = { λ slip. Some (slip_text slip) };

    fn fmt<W: fmt::Write>(&self, f: &mut fmt::Formatter<W>) -> fmt::Result {
        f.write_str(match self {
            Slip::Backwards => "time runs backwards",
            Slip::Gap => "more than 24 hours have gone by since the frame before",
        })
    }
}

impl Error for Slip {}
