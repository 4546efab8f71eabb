// The calls of a session, and what they answer.
ghost use Rattle.std.specs.Prelude.{◌≡◌, Some};
ghost use Rattle.master.specs.Calls.{number_of, sentence_of};

use frames::frame::Frame;
use std::error::Error;
use std::fmt;

// A call that can change a master or its port: a value and no closure, since a row of them is lent by its caller.
#[derive(Clone, Copy)]
pub enum Call {
    // a frame came over the bus
    Heard(Frame),
    // a millisecond went by
    Tick,
    // the frame that is due is put in the port
    Work,
    // the port's first frame goes to the bus
    Take,
}

// What a frame that was heard was to the master.
#[derive(Clone, Copy, Debug, PartialEq, Eq)]
pub enum Use {
    Used,
    Unused,
}

// What a work did.
#[derive(Clone, Copy, Debug, PartialEq, Eq)]
pub enum Worked {
    // one frame was put in the port
    Put,
    NothingDue,
}

// Why a call is refused. A refused call changes nothing.
#[derive(Clone, Copy, Debug, PartialEq, Eq)]
pub enum Refusal {
    // the node asked for is 0 or above 127
    NoNode,
    // the identifier is above 2047, or there are more than 8 bytes
    NoFrame,
    // the master is halted
    Halted,
    // something is due and the port has no room
    NoRoom,
}

impl Refusal {
    // The number under which the refusal is reported.
    pub fn number(self) -> u8
        ensures { result ≡ number_of self }
    {
        match self {
            Refusal::NoNode => 10,
            Refusal::NoFrame => 11,
            Refusal::Halted => 12,
            Refusal::NoRoom => 13,
        }
    }
}

// A sentence for the fitter.
impl fmt::Display for Refusal {
    ghost output = { λ r. Some (sentence_of r) };

    fn fmt<W: fmt::Write>(&self, f: &mut fmt::Formatter<W>) -> fmt::Result {
        f.write_str(match self {
            Refusal::NoNode => "a node is from 1 to 127",
            Refusal::NoFrame =>
                "no frame: the identifier is above 2047, or there are more than 8 bytes",
            Refusal::Halted => "the master is halted",
            Refusal::NoRoom => "something is due, and the port is full",
        })
    }
}

impl Error for Refusal {}

// What a call answered.
#[derive(Clone, Copy)]
pub enum Answer {
    Heard(Use),
    Ticked,
    Worked(Result<Worked, Refusal>),
    Took(Option<Frame>),
}

// A call of a row, with its answer.
#[derive(Clone, Copy)]
pub struct Exchange {
    pub call: Call,
    pub answer: Answer,
}
