// What a reading is refused for, by layer: digits, line, sheet. A fault keeps its line, from 1.
ghost use Rattle.std.specs.Prelude.{◌≡◌, Some};
ghost use Rattle.sheet.specs.declared.faults.Fault.TheVariants.{Line};
ghost use Rattle.sheet.specs.declared.faults.LineFault.TheVariants.{Digits};
ghost use Rattle.sheet.specs.Faults.{refusal_of, line_number_of, layer_of, short_refusal, digits_sentence, line_sentence};

use crate::keys::Key;
use std::error::Error;
use std::fmt;

// The refusal number of an output that is too short.
const OUTPUT_TOO_SHORT: u8 = 8;

// The value is no number.
#[derive(Clone, Copy, Debug, PartialEq, Eq)]
pub struct DigitsFault {
    pub line: usize,
}

#[derive(Clone, Copy, Debug, PartialEq, Eq)]
pub enum LineFault {
    Digits(DigitsFault),
    // no line end, no '=', or another key than the one that is due
    Shape { line: usize, due: Key },
}

#[derive(Clone, Copy, Debug, PartialEq, Eq)]
pub enum Fault {
    Line(LineFault),
    // the value is not within low to high
    Range {
        line: usize,
        key: Key,
        low: u32,
        high: u32,
    },
    // the node is own or not above the last
    Order {
        line: usize,
    },
    // a keep-alive slave without a heartbeat
    Silent {
        line: usize,
    },
    // more than 256 sets so far
    TooManySets {
        line: usize,
    },
    // bytes after the last line
    After {
        line: usize,
    },
}

// The part of the reader that found a fault.
#[derive(Clone, Copy, Debug, PartialEq, Eq)]
pub enum Layer {
    Digits,
    Line,
    Sheet,
}

// The output is shorter than the sheet's text, which needs so many bytes.
#[derive(Clone, Copy, Debug, PartialEq, Eq)]
pub struct TooShort {
    pub needed: usize,
}

impl From<DigitsFault> for LineFault {
    ghost from_gives = { λ d r. r ≡ Digits d };

    fn from(d: DigitsFault) -> LineFault {
        LineFault::Digits(d)
    }
}

impl From<LineFault> for Fault {
    ghost from_gives = { λ d r. r ≡ Line d };

    fn from(d: LineFault) -> Fault {
        Fault::Line(d)
    }
}

impl Fault {
    // Its refusal number.
    pub fn number(&self) -> u8
        ensures { result ≡ refusal_of self.now }
    {
        match self {
            Fault::Line(LineFault::Digits(_)) => 1,
            Fault::Line(LineFault::Shape { .. }) => 2,
            Fault::Range { .. } => 3,
            Fault::Order { .. } => 4,
            Fault::Silent { .. } => 5,
            Fault::TooManySets { .. } => 6,
            Fault::After { .. } => 7,
        }
    }

    // The line that it was found at, from 1.
    pub fn line(&self) -> usize
        ensures { result ≡ line_number_of self.now }
    {
        match *self {
            Fault::Line(LineFault::Digits(d)) => d.line,
            Fault::Line(LineFault::Shape { line, .. }) => line,
            Fault::Range { line, .. }
            | Fault::Order { line }
            | Fault::Silent { line }
            | Fault::TooManySets { line }
            | Fault::After { line } => line,
        }
    }

    pub fn layer(&self) -> Layer
        ensures { result ≡ layer_of self.now }
    {
        match self {
            Fault::Line(LineFault::Digits(_)) => Layer::Digits,
            Fault::Line(LineFault::Shape { .. }) => Layer::Line,
            _ => Layer::Sheet,
        }
    }
}

impl TooShort {
    // Its refusal number.
    pub fn number(&self) -> u8
        ensures { result ≡ short_refusal self.now }
    {
        OUTPUT_TOO_SHORT
    }
}

impl fmt::Display for Layer {
    fn fmt<W: fmt::Write>(&self, f: &mut fmt::Formatter<W>) -> fmt::Result {
        f.write_str(match self {
            Layer::Digits => "digits",
            Layer::Line => "line",
            Layer::Sheet => "sheet",
        })
    }
}

impl fmt::Display for DigitsFault {
    ghost output = { λ d. Some (digits_sentence d) };

    fn fmt<W: fmt::Write>(&self, f: &mut fmt::Formatter<W>) -> fmt::Result {
        f.write_str("the value must be a decimal number up to 4294967295 without leading zeros")
    }
}

impl fmt::Display for LineFault {
    ghost output = { λ d. Some (line_sentence d) };

    fn fmt<W: fmt::Write>(&self, f: &mut fmt::Formatter<W>) -> fmt::Result {
        match self {
            LineFault::Digits(fault) => write!(f, "{fault}"),
            LineFault::Shape { due, .. } => {
                write!(f, "'{due}=' with a number and a line end is due here")
            }
        }
    }
}

// A sentence for the fitter.
impl fmt::Display for Fault {
    fn fmt<W: fmt::Write>(&self, f: &mut fmt::Formatter<W>) -> fmt::Result {
        write!(f, "line {}: ", self.line())?;
        match self {
            Fault::Line(fault) => write!(f, "{fault}")?,
            Fault::Range { key, low, high, .. } => {
                write!(f, "{key} must be from {low} to {high}")?;
            }
            Fault::Order { .. } => {
                f.write_str("node must be above the last slave's and other than own")?;
            }
            Fault::Silent { .. } => f.write_str("hb must be above 0 for a keep-alive slave")?,
            Fault::TooManySets { .. } => f.write_str("a sheet has at most 256 sets in all")?,
            Fault::After { .. } => f.write_str("nothing may follow the last line")?,
        }
        write!(f, " (refusal {})", self.number())
    }
}

impl fmt::Display for TooShort {
    fn fmt<W: fmt::Write>(&self, f: &mut fmt::Formatter<W>) -> fmt::Result {
        let needed = self.needed;
        let number = self.number();
        write!(f, "the output must hold {needed} bytes (refusal {number})")
    }
}

impl Error for DigitsFault {}

impl Error for LineFault {}

impl Error for Fault {}

impl Error for TooShort {}
