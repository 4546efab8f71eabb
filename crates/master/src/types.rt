// What the master keeps of its slaves, and what can happen to them.
ghost use Rattle.std.specs.Prelude.{◌≡◌, Some};
ghost use Rattle.master.specs.Calls.{letters_of};
ghost use Rattle.master.specs.Network.{command_of};
ghost use Rattle.master.specs.Step.{word_of};

use frames::error_control::Sign;
use frames::nmt::Command;
use frames::sdo::Reply;
use std::fmt;

// The two resets: of the node, 81h, and of its communication, 82h.
#[derive(Clone, Copy)]
pub enum ResetKind {
    Node,
    Communication,
}

impl From<ResetKind> for Command {
    ghost from_gives = { λ k c. c ≡ command_of k };

    fn from(reset: ResetKind) -> Command {
        match reset {
            ResetKind::Node => Command::ResetNode,
            ResetKind::Communication => Command::ResetCommunication,
        }
    }
}

// A check of a slave's try that asks by a request and waits for the answer.
#[derive(Clone, Copy)]
pub enum Check {
    // the device type, 1000h:00
    Kind,
    // the identity, 1018h:01 to :04
    Vendor,
    Product,
    Revision,
    Serial,
    // the set with this number is written
    Set(usize),
}

// What a slave's result says. The letters are those of CiA 302-2.
#[derive(Clone, Copy, Debug, PartialEq, Eq)]
pub enum Letter {
    // A: the sheet does not list the node
    NotListed,
    // B: no device type was answered
    NoAnswer,
    // C: another device type
    OtherType,
    // D: another vendor, or no answer
    OtherVendor,
    // E: no heartbeat where one was due, or no more
    NoHeartbeat,
    // J: a set was not written
    NotSet,
    // K: no heartbeat after the sets
    NoControl,
    // L: it was found running, and passed
    FoundRunning,
    // M, N, O: another product code, revision, serial number, or no answer
    OtherProduct,
    OtherRevision,
    OtherSerial,
    // OK: it passed
    Ready,
}

impl Letter {
    // The letter as it is shown.
    pub fn text(self) -> &'static str
        ensures { result.now ≡ letters_of self }
    {
        match self {
            Letter::NotListed => "A",
            Letter::NoAnswer => "B",
            Letter::OtherType => "C",
            Letter::OtherVendor => "D",
            Letter::NoHeartbeat => "E",
            Letter::NotSet => "J",
            Letter::NoControl => "K",
            Letter::FoundRunning => "L",
            Letter::OtherProduct => "M",
            Letter::OtherRevision => "N",
            Letter::OtherSerial => "O",
            Letter::Ready => "OK",
        }
    }
}

impl fmt::Display for Letter {
    ghost output = { λ l. Some (letters_of l) };

    fn fmt<W: fmt::Write>(&self, f: &mut fmt::Formatter<W>) -> fmt::Result {
        f.write_str(self.text())
    }
}

// The latest that was heard from a slave or done to it. Silence is a word like the others: the law of resets speaks of it.
#[derive(Clone, Copy)]
pub enum Word {
    Silence,
    BootUp,
    Stopped,
    Operational,
    PreOperational,
    Reset,
    Loss,
}

impl From<Sign> for Word {
    ghost from_gives = { λ s w. w ≡ word_of s };

    fn from(sign: Sign) -> Word {
        match sign {
            Sign::BootUp => Word::BootUp,
            Sign::Stopped => Word::Stopped,
            Sign::Operational => Word::Operational,
            Sign::PreOperational => Word::PreOperational,
        }
    }
}

// Where a slave's try stands. Waits count the ticks that are left.
#[derive(Clone, Copy)]
pub enum Stage {
    // until its boot-up is heard, or a limit after a reset runs out
    AwaitBoot {
        left: Option<u16>,
    },
    // the request of a check is due
    Ask {
        check: Check,
    },
    // the request is open
    Asked {
        check: Check,
        left: u16,
    },
    // a keep-alive slave's state is listened for
    ListenState {
        left: u16,
    },
    // its heartbeat is listened for
    ListenControl {
        left: u16,
        running: bool,
    },
    // every check is met
    Passed {
        running: bool,
        started: bool,
        left: u16,
    },
    // until it tries anew
    Retry {
        left: u16,
    },
    // a reset of its own is due
    ResetDue {
        reset: ResetKind,
    },
}

#[derive(Clone, Copy)]
pub struct Entry {
    pub stage: Stage,
    pub word: Word,
    // a boot-up was heard since the session began or the last reset
    pub booted: bool,
    pub result: Option<Letter>,
    // it passed or missed a check once
    pub once: bool,
}

#[derive(Clone, Copy)]
pub enum Input {
    Heard(Sign),
    Replied(Reply),
    Tick,
}

// What can go wrong in a step: a check is missed, or a slave that had passed is lost.
#[derive(Clone, Copy)]
pub enum Setback {
    Missed(Letter),
    Lost,
}

// What a step made of an entry, and whether it brought a setback.
#[derive(Clone, Copy)]
pub struct Stepped {
    pub entry: Entry,
    pub brought: Option<Setback>,
}

// What follows a check that is met.
#[derive(Clone, Copy)]
pub enum Next {
    Ask(Check),
    ListenState,
    ListenControl,
    Pass,
}

// What a slave is owed.
#[derive(Clone, Copy)]
pub enum Duty {
    Reset(ResetKind),
    Request(Check),
    Start,
}

// What is done to an entry besides its steps: a value and no closure, since contracts and laws name what is done.
#[derive(Clone, Copy)]
pub enum Change {
    // a keep-alive slave begins at check 1
    Begin,
    // a reset that names or covers the slave is put
    Reset,
    // the request of its check is put; so many ticks are there for the answer
    Request(u16),
    // a start that names or covers it is put
    Start,
}

// What slaves are counted for: a value and no closure, since the contract of a count names what is counted.
#[derive(Clone, Copy)]
pub enum Quality {
    Cleared,
    Passed,
    Spared,
    // its node is not above the one that was served last
    Served,
}

// A reset of all nodes, at once or one by one.
#[derive(Clone, Copy)]
pub enum Sweep {
    // nothing is put yet
    Begun { reset: ResetKind },
    // one by one; `passed` is the last node that was come to
    Singles { reset: ResetKind, passed: u8 },
}

#[derive(Clone, Copy)]
pub enum Phase {
    Running,
    StopDue,
    Halted,
}

// What a work would put. Nothing is a plan like the others, and no missing one: carried out, it ends a sweep.
#[derive(Clone, Copy)]
pub enum Plan {
    Nothing,
    Stop,
    ResetAll { reset: ResetKind },
    ResetOne { reset: ResetKind, node: u8 },
    // a duty to the slave of this node
    Serve { node: u8, duty: Duty },
    // the start of all, at the turn of the slave of this node
    StartAll { node: u8 },
}
