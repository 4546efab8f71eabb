use std::error::Error;
use std::fmt;

// A byte that stands for nothing that is known, where a command or a sign was read.
#[derive(Clone, Copy, Debug, PartialEq, Eq)]
pub struct UnknownCode(pub u8);

impl fmt::Display for UnknownCode {
    ghost use Rattle.std.specs.Prelude.{Some};
    ghost use Rattle.frames.specs.Texts.{unknown_text};

    ghost output = { λ e. Some (unknown_text e.0) };

    fn fmt<W: fmt::Write>(&self, f: &mut fmt::Formatter<W>) -> fmt::Result {
        write!(f, "no known code: {}", self.0)
    }
}

impl Error for UnknownCode {}
