ghost use Rattle.std.specs.Prelude.{◌≡◌};
ghost use Rattle.frames.specs.Contents.{content_of};
ghost use Rattle.frames.specs.Sdo.{write_code, value_bytes, request_content, value_in, said_to, reply_in};

use crate::frame::Frame;

// How many bytes a written value has.
#[derive(Clone, Copy)]
pub enum Size {
    One,
    Two,
    Three,
    Four,
}

// What a request wants: the value of an object, or a value written to it.
#[derive(Clone, Copy)]
pub enum Access {
    Read,
    // Of the value, the lowest bytes of that size are written.
    Write(Size, u32),
}

// A request of the service data objects (CiA 301): an object of a node, by index and sub-index, is read or written.
#[derive(Clone, Copy)]
pub struct Request {
    pub node: u8,
    pub index: u16,
    pub sub: u8,
    pub access: Access,
}

// What an answer to a request says.
#[derive(Clone, Copy, PartialEq, Eq)]
pub enum Reply {
    Abort,
    Written,
    Value(u32),
}

// The first byte of a write request and its four value bytes.
fn write_of(size: Size, value: u32) -> (u8, [u8; 4])
    ensures { (result.0 ≡ write_code size) × (result.1 ≡ value_bytes size value) }
{
    let [a, b, c, d] = value.to_le_bytes();
    match size {
        Size::One => (0x2F, [a, 0, 0, 0]),
        Size::Two => (0x2B, [a, b, 0, 0]),
        Size::Three => (0x27, [a, b, c, 0]),
        Size::Four => (0x23, [a, b, c, d]),
    }
}

// The value that an answer to a read carries in its last four bytes. Its codes are not those of a write.
fn value_in(command: u8, value: [u8; 4]) -> Option<u32>
    ensures { result ≡ value_in command value }
{
    let [a, b, c, d] = value;
    match command {
        0x4F => Some(u32::from_le_bytes([a, 0, 0, 0])),
        0x4B => Some(u32::from_le_bytes([a, b, 0, 0])),
        0x47 => Some(u32::from_le_bytes([a, b, c, 0])),
        0x43 => Some(u32::from_le_bytes([a, b, c, d])),
        _ => None,
    }
}

impl Access {
    // What an answer says by its first byte and its last four, if it fits.
    fn said(self, command: u8, value: [u8; 4]) -> Option<Reply>
        ensures { result ≡ said_to self command value }
    {
        match (self, command) {
            (_, 0x80) => Some(Reply::Abort),
            (Access::Write(_, _), 0x60) => Some(Reply::Written),
            (Access::Write(_, _), _) => None,
            (Access::Read, _) => value_in(command, value).map(Reply::Value),
        }
    }
}

impl Request {
    pub fn frame(&self) -> Frame
        ensures { content_of result ≡ request_content self.now }
    {
        let (command, [a, b, c, d]) = match self.access {
            Access::Read => (0x40, [0, 0, 0, 0]),
            Access::Write(size, value) => write_of(size, value),
        };
        let [low, high] = self.index.to_le_bytes();
        Frame {
            id: 0x600 + u16::from(self.node),
            len: 8,
            bytes: [command, low, high, self.sub, a, b, c, d],
        }
    }

    // What a frame says in answer to this request, if it fits it.
    pub fn reply(&self, frame: &Frame) -> Option<Reply>
        ensures { result ≡ reply_in self.now (content_of frame.now) }
    {
        if frame.id() != 0x580 + u16::from(self.node) {
            return None;
        }
        let &[command, low, high, sub, a, b, c, d] = frame.data() else {
            return None;
        };
        if u16::from_le_bytes([low, high]) != self.index || sub != self.sub {
            return None;
        }
        self.access.said(command, [a, b, c, d])
    }
}
