// What the printed lines mean, in words for the fitter.
use crate::report::Output;
use frames::frame::Frame;
use frames::nmt::NmtMessage;
use master::Letter;
use std::fmt;

// What a line means.
#[derive(Clone, Copy)]
pub(crate) struct Note<'a>(pub(crate) Output<'a>);

// What the run came to for a listed slave.
#[derive(Clone, Copy)]
pub(crate) struct Outcome {
    pub(crate) node: u8,
    pub(crate) mandatory: bool,
    pub(crate) letter: Option<Letter>,
}

impl fmt::Display for Note<'_> {
    fn fmt<W: fmt::Write>(&self, f: &mut fmt::Formatter<W>) -> fmt::Result {
        match self.0 {
            Output::Out(taken) => write_taken(f, taken),
            Output::BadSheet(fault) => write!(f, "{fault}"),
            Output::Refused(refusal) => write!(f, "{refusal}"),
            Output::Go { go, slaves } => write_lamp(f, go, slaves),
            Output::Halted(true) => f.write_str(
                "a needed slave failed or was lost: the master has stopped",
            ),
            Output::Halted(false) => f.write_str("the master is at work"),
            Output::Slave { letter: None, .. } => f.write_str("no result yet"),
            Output::Slave {
                letter: Some(letter),
                ..
            } => f.write_str(letter_note(letter)),
        }
    }
}

// What a frame asks for, or why there is none.
fn write_taken<W: fmt::Write>(f: &mut fmt::Formatter<W>, taken: Option<Frame>) -> fmt::Result {
    let Some(frame) = taken else {
        return f.write_str("nothing may leave the port now");
    };
    match NmtMessage::read(&frame) {
        Some(message) => write!(f, "{message}"),
        None => write_request(f, &frame),
    }
}

// Only for the note: the library puts requests, and reads none.
fn write_request<W: fmt::Write>(f: &mut fmt::Formatter<W>, frame: &Frame) -> fmt::Result {
    let [command, low, high, sub, a, b, c, d] = frame.data() else {
        return Ok(());
    };
    let node = frame.node();
    let index = u16::from_le_bytes([*low, *high]);
    let size = match command {
        0x2F => 1,
        0x2B => 2,
        0x27 => 3,
        0x23 => 4,
        _ => return write!(f, "SDO read {index:04X}h:{sub:02X} of node {node}"),
    };
    let value = u32::from_le_bytes([*a, *b, *c, *d]);
    write!(
        f,
        "SDO write {index:04X}h:{sub:02X} of node {node}: value {value}, size {size}"
    )
}

impl Outcome {
    // A mandatory slave must have passed; an optional one must have had a result.
    fn holds_lamp(self) -> bool {
        match self.letter {
            None => true,
            Some(Letter::Ready | Letter::FoundRunning) => false,
            Some(_) => self.mandatory,
        }
    }
}

// The nodes of the slaves that keep the lamp amber, the first of them after a heading.
fn write_waiting<W: fmt::Write>(
    f: &mut fmt::Formatter<W>,
    heading: &str,
    slaves: &[Outcome],
    mandatory: bool,
) -> fmt::Result {
    let mut waiting = slaves
        .iter()
        .filter(|slave| slave.mandatory == mandatory && slave.holds_lamp());
    if let Some(first) = waiting.next() {
        write!(f, "{heading}{}", first.node)?;
    }
    for slave in waiting {
        write!(f, ", {}", slave.node)?;
    }
    Ok(())
}

// The lamp, green at Go, and the slaves that keep it amber.
fn write_lamp<W: fmt::Write>(
    f: &mut fmt::Formatter<W>,
    go: bool,
    slaves: &[Outcome],
) -> fmt::Result {
    if slaves.is_empty() {
        return f.write_str("lamp green: the sheet lists no slave");
    }
    if go {
        return f.write_str("lamp green: every needed slave has passed");
    }
    f.write_str("lamp amber")?;
    write_waiting(f, ": waiting for slaves ", slaves, true)?;
    write_waiting(f, "; optional slaves still being checked: ", slaves, false)
}

// A function, since a type of its own would be printed in this one place only.
fn letter_note(letter: Letter) -> &'static str {
    match letter {
        Letter::NotListed => "not on the sheet",
        Letter::NoAnswer => "no answer to the read of the device type",
        Letter::OtherType => "another device type than the sheet says",
        Letter::OtherVendor => "another vendor than the sheet says",
        Letter::NoHeartbeat => "no heartbeat",
        Letter::NotSet => "a set could not be written",
        Letter::NoControl => "no heartbeat after the sets",
        Letter::FoundRunning => "found running, and passed",
        Letter::OtherProduct => "another product code than the sheet says",
        Letter::OtherRevision => "another revision than the sheet says",
        Letter::OtherSerial => "another serial number than the sheet says",
        Letter::Ready => "passed",
    }
}
