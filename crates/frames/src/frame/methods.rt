ghost use Rattle.std.specs.Prelude.{◌≡◌, ◌%◌, ◌≤◌, length, Some, Decides};
ghost use Rattle.std.specs.Cmp.{partial_equiv_from_equiv};
ghost use Rattle.frames.specs.Contents.{Made, content_of};
ghost use Rattle.frames.specs.Fields.{fields_agree, fields_agree_equiv, FieldsDecide};
ghost use Rattle.frames.specs.Texts.{frame_text};

use super::Frame;
use crate::refusal::Refusal;
use std::fmt;

impl Frame {
    // A frame from an identifier of any size and any bytes, unless they are too large or too many.
    pub fn new(id: u32, bytes: &[u8]) -> Result<Frame, Refusal>
        ensures { Made id bytes.now result }
    {
        let n = bytes.len();
        if id > 2047 || n > 8 {
            return Err(Refusal::Malformed);
        }
        let mut held = [0u8; 8];
        held[..n].copy_from_slice(bytes);
        Ok(Frame {
            id: id as u16,
            len: n as u8,
            bytes: held,
        })
    }

    pub fn id(&self) -> u16
        ensures value { result ≡ (content_of self.now).id }
        ensures legal { result ≤ 2047 }
    {
        self.id
    }

    // The node that the identifier's low seven bits name, as in every identifier of the predefined connection set.
    pub fn node(&self) -> u8
        ensures { result ≡ (content_of self.now).id % 128 }
    {
        (self.id % 128) as u8
    }

    // The bytes that count.
    pub fn data(&self) -> &[u8]
        ensures value { result.now ≡ (content_of self.now).bytes }
        ensures legal { length result.now ≤ 8 }
    {
        &self.bytes[..usize::from(self.len)]
    }
}

// Frames are equal exactly if they are the same value. By hand: a derive has no clauses, and this one promises so.
impl PartialEq for Frame {
    ghost eq = { fields_agree };

    ghost laws = { partial_equiv_from_equiv fields_agree_equiv };

    #[tactic(auto, using(crate::proofs::Same::fields_decide))]
    fn eq(&self, other: &Frame) -> bool
        ensures fields { result ≡ fields_agree self.now other.now }
        ensures same { Decides result (self.now ≡ other.now) }
        ensures law { FieldsDecide }
    {
        self.len == other.len && self.id == other.id && self.bytes == other.bytes
    }
}

impl Eq for Frame {
    ghost laws = { fields_agree_equiv };
}

impl fmt::Display for Frame {
    ghost output = { λ frame. Some (frame_text (content_of frame)) };

    fn fmt<W: fmt::Write>(&self, f: &mut fmt::Formatter<W>) -> fmt::Result {
        write!(f, "{}", self.id)?;
        for byte in self.data() {
            write!(f, ",{byte}")?;
        }
        Ok(())
    }
}
