// The sheet text that is left, and the number of the line that is due in it.
ghost use Rattle.std.specs.Prelude.{◌≡◌, ◌+◌, ◌^◌, ◌<◌, [], length, Decides};
ghost use Rattle.sheet.specs.Lines.{line_of};
ghost use Rattle.sheet.specs.Reads.{Takes};

use crate::digits::number;
use crate::faults::LineFault;
use crate::keys::Key;
use crate::line::cut;

#[derive(Drop)]
pub(crate) struct Cursor<'a> {
    rest: &'a [u8],
    line: usize,
    ghost counted: { line + length rest.now < 2 ^ 64 },
}

impl<'a> Cursor<'a> {
    pub(crate) fn new(text: &'a [u8]) -> Cursor<'a>
        ensures { (result.rest.now ≡ text.now) × (result.line ≡ 1) }
    {
        Cursor {
            rest: text,
            line: 1,
        }
    }

    pub(crate) fn line(&self) -> usize
        ensures { result ≡ self.now.line }
    {
        self.line
    }

    pub(crate) fn at_end(&self) -> bool
        ensures { Decides result (self.now.rest.now ≡ []) }
    {
        self.rest.is_empty()
    }

    // The number in the line that is due, and past it; a fault leaves the cursor where it was.
    pub(crate) fn number(&mut self, due: Key) -> Result<u32, LineFault>
        ensures { Takes self.old.line (line_of self.old.line due self.old.rest.now) result self.new.line self.new.rest.now }
    {
        let line = self.line;
        let shape = LineFault::Shape { line, due };
        let (whole, rest) = cut(self.rest, b'\n').ok_or(shape)?;
        let (key, value) = cut(whole, b'=').ok_or(shape)?;
        if key != due.name().as_bytes() {
            return Err(shape);
        }
        let n = number(value, line)?;
        self.rest = rest;
        self.line = line + 1;
        Ok(n)
    }
}
