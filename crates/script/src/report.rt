// The lines that a run prints, and the column behind them.
use crate::notes::{Note, Outcome};
use crate::style::Style;
use frames::frame::Frame;
use master::{Letter, Refusal};
use sheet::Fault;
use std::alloc::Global;
use std::fmt;
use std::io::Write;

// A line as it is printed.
#[derive(Clone, Copy)]
pub(crate) enum Output<'a> {
    // what a take answered
    Out(Option<Frame>),
    BadSheet(Fault),
    Refused(Refusal),
    // Go, with what the run came to for each listed slave
    Go { go: bool, slaves: &'a [Outcome] },
    Halted(bool),
    Slave { node: u8, letter: Option<Letter> },
}

impl fmt::Display for Output<'_> {
    fn fmt<W: fmt::Write>(&self, f: &mut fmt::Formatter<W>) -> fmt::Result {
        match *self {
            Output::Out(Some(frame)) => write!(f, "out={frame}"),
            Output::Out(None) => f.write_str("out=none"),
            Output::BadSheet(fault) => write!(f, "refused={}", fault.number()),
            Output::Refused(refusal) => write!(f, "refused={}", refusal.number()),
            Output::Go { go, .. } => write!(f, "go={}", u8::from(go)),
            Output::Halted(halted) => write!(f, "halted={}", u8::from(halted)),
            Output::Slave { node, letter: None } => write!(f, "slave={node},none"),
            Output::Slave {
                node,
                letter: Some(letter),
            } => write!(f, "slave={node},{letter}"),
        }
    }
}

// Who is told of each line of a run.
pub(crate) trait Listener {
    fn line(&mut self, line: Output<'_>) -> anyhow::Result<()>;
}

// Where the lines go, and whether each has its note.
#[derive(Drop)]
pub(crate) struct Printer<'a, W> {
    pub(crate) heap: Global,
    pub(crate) style: Style,
    pub(crate) out: &'a mut W,
}

impl<W: Write> Listener for Printer<'_, W> {
    fn line(&mut self, line: Output<'_>) -> anyhow::Result<()> {
        match self.style {
            Style::Plain => writeln!(self.out, "{line}")?,
            Style::Explained => {
                let text = format!(in self.heap; "{line}")?;
                writeln!(self.out, "{text:<32}  {}", Note(line))?;
            }
        }
        Ok(())
    }
}

// Nobody is told, and no line is made.
#[derive(Clone, Copy)]
pub(crate) struct Nobody;

impl Listener for Nobody {
    fn line(&mut self, _: Output<'_>) -> anyhow::Result<()> {
        Ok(())
    }
}

// The line of a call that was refused, if it was.
pub(crate) fn refusal<L: Listener, T: Copy>(
    listener: &mut L,
    answer: Result<T, Refusal>,
) -> anyhow::Result<()> {
    match answer {
        Ok(_) => Ok(()),
        Err(refusal) => listener.line(Output::Refused(refusal)),
    }
}
