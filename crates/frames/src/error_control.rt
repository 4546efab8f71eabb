ghost use Rattle.std.specs.Prelude.{◌≡◌};
ghost use Rattle.frames.specs.Codes.{DecodesBy};
ghost use Rattle.frames.specs.Contents.{content_of};
ghost use Rattle.frames.specs.Signs.{sign_by, sign_in};

use crate::frame::Frame;
use crate::unknown_code::UnknownCode;

// What a device says of itself in error control (CiA 301): its boot-up, or by a heartbeat its state.
#[derive(Clone, Copy, Debug, PartialEq, Eq)]
pub enum Sign {
    BootUp,
    Stopped,
    Operational,
    PreOperational,
}

impl TryFrom<u8> for Sign {
    type Error = UnknownCode;

    ghost try_from_gives = { DecodesBy sign_by };

    fn try_from(code: u8) -> Result<Sign, UnknownCode> {
        match code {
            0x00 => Ok(Sign::BootUp),
            0x04 => Ok(Sign::Stopped),
            0x05 => Ok(Sign::Operational),
            0x7F => Ok(Sign::PreOperational),
            _ => Err(UnknownCode(code)),
        }
    }
}

impl Sign {
    // What a frame says of the device `node`, if anything.
    pub fn read(frame: &Frame, node: u8) -> Option<Sign>
        ensures { result ≡ sign_in (content_of frame.now) node }
    {
        if frame.id() != 0x700 + u16::from(node) {
            return None;
        }
        let &[code] = frame.data() else {
            return None;
        };
        Sign::try_from(code).ok()
    }
}
