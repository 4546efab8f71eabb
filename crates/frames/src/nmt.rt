ghost use Rattle.std.specs.Prelude.{◌≡◌, Some};
ghost use Rattle.frames.specs.Codes.{DecodesBy};
ghost use Rattle.frames.specs.Contents.{content_of};
ghost use Rattle.frames.specs.Nmt.{code_of, command_by, nmt_content, nmt_in, reaches};
ghost use Rattle.frames.specs.Texts.{command_text, nmt_text};

use crate::frame::Frame;
use crate::unknown_code::UnknownCode;
use std::fmt;

// The commands of NMT node control (CiA 301).
#[derive(Clone, Copy, Debug, PartialEq, Eq)]
pub enum Command {
    Start,
    Stop,
    ResetNode,
    ResetCommunication,
}

impl From<Command> for u8 {
    ghost from_gives = { λ command code. code ≡ code_of command };

    fn from(command: Command) -> u8 {
        match command {
            Command::Start => 0x01,
            Command::Stop => 0x02,
            Command::ResetNode => 0x81,
            Command::ResetCommunication => 0x82,
        }
    }
}

impl TryFrom<u8> for Command {
    type Error = UnknownCode;

    ghost try_from_gives = { DecodesBy command_by };

    fn try_from(code: u8) -> Result<Command, UnknownCode> {
        match code {
            0x01 => Ok(Command::Start),
            0x02 => Ok(Command::Stop),
            0x81 => Ok(Command::ResetNode),
            0x82 => Ok(Command::ResetCommunication),
            _ => Err(UnknownCode(code)),
        }
    }
}

impl fmt::Display for Command {
    ghost output = { λ command. Some (command_text command) };

    fn fmt<W: fmt::Write>(&self, f: &mut fmt::Formatter<W>) -> fmt::Result {
        f.write_str(match self {
            Command::Start => "start",
            Command::Stop => "stop",
            Command::ResetNode => "reset node",
            Command::ResetCommunication => "reset communication",
        })
    }
}

// A command to a node, or with node 0 to every device but the master.
#[derive(Clone, Copy, Debug, PartialEq, Eq)]
pub struct NmtMessage {
    pub command: Command,
    pub node: u8,
}

impl NmtMessage {
    pub fn frame(self) -> Frame
        ensures content { content_of result ≡ nmt_content self }
        ensures read_back { nmt_in (content_of result) ≡ Some self }
    {
        Frame {
            id: 0,
            len: 2,
            bytes: [u8::from(self.command), self.node, 0, 0, 0, 0, 0, 0],
        }
    }

    // What a frame commands, if anything.
    pub fn read(frame: &Frame) -> Option<NmtMessage>
        ensures { result ≡ nmt_in (content_of frame.now) }
    {
        if frame.id() != 0 {
            return None;
        }
        let &[code, node] = frame.data() else {
            return None;
        };
        let command = Command::try_from(code).ok()?;
        Some(NmtMessage { command, node })
    }

    // Whether the command names or covers the device `node` in a network whose master has the node `master`.
    pub fn reaches(self, node: u8, master: u8) -> bool
        ensures { result ≡ reaches self node master }
    {
        node != 0 && (self.node == node || self.node == 0 && node != master)
    }
}

impl fmt::Display for NmtMessage {
    ghost output = { λ message. Some (nmt_text message) };

    fn fmt<W: fmt::Write>(&self, f: &mut fmt::Formatter<W>) -> fmt::Result {
        let command = self.command;
        match self.node {
            0 => write!(f, "NMT {command} to all"),
            node => write!(f, "NMT {command} to node {node}"),
        }
    }
}
