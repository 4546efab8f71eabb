ghost use Rattle.std.specs.Prelude.{◌≡◌};
ghost use Rattle.frames.specs.Trials.{TypeRead, type_reply};

use crate::frame::Frame;
use crate::sdo::{Access, Reply, Request};

// What the read of the device type, 1000h:00, of node 5 hears in the answer `first` 00h 10h 00h 92h 01h 00h 00h.
pub fn device_type(first: u8) -> Option<Reply>
    ensures said { result ≡ type_reply first }
    ensures trial { TypeRead }
{
    let request = Request {
        node: 5,
        index: 0x1000,
        sub: 0,
        access: Access::Read,
    };
    let answer = Frame {
        id: 0x585,
        len: 8,
        bytes: [first, 0x00, 0x10, 0x00, 0x92, 0x01, 0x00, 0x00],
    };
    request.reply(&answer)
}
