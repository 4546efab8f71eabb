// A session, run on a fresh master by the single calls.
ghost use Rattle.std.specs.Prelude.{◌≡◌, OnOk};
ghost use Rattle.master.specs.Masters.{machine_by};
ghost use Rattle.master.specs.Session.{Machine};
ghost use Rattle.script.specs.Plays.{times, done, played, LineByLine};
ghost use Rattle.script.specs.Views.{line_of};

use crate::lines::Line;
use crate::notes::Outcome;
use crate::reader::{next_line, read_line};
use crate::report::{Listener, Nobody, Output, Printer, refusal};
use crate::ring::{ring_master, ring_places};
use crate::style::Style;
use master::Master;
use ports::port::Port;
use sheet::Sheet;
use std::alloc::{AllocError, Global};
use std::io::Write;

// Makes a call so many times, unless one of them ends in an error.
fn repeat<P: Port, F: FnMut(&mut Master<P>) -> anyhow::Result<()>>(
    master: &mut Master<P>,
    count: u32,
    mut call: F,
) -> anyhow::Result<()>
    requires { (f : F) (m : _) → F.pre f m }
    ensures { (step : Machine → Machine) → ((f : F) (m : _) (r : _) (n : _) (g : F) → F.step f m r n g → OnOk r (machine_by P.Port n.now ≡ step (machine_by P.Port m.now))) → OnOk result (machine_by P.Port master.new ≡ times step count (machine_by P.Port master.old)) }
{
    for _ in 0..count {
        call(master)?;
    }
    Ok(())
}

// The calls that a line asks for. A refused call does not end a count.
fn carry_out<L: Listener, P: Port>(
    listener: &mut L,
    master: &mut Master<P>,
    line: Line,
) -> anyhow::Result<()>
    ensures { OnOk result (machine_by P.Port master.new ≡ done (line_of line) (machine_by P.Port master.old)) }
{
    match line {
        Line::Heard { id, data } => refusal(listener, master.heard(id, data.as_slice())),
        Line::Work(count) => repeat(master, count, |master| refusal(listener, master.work())),
        Line::Take(count) => repeat(master, count, |master| {
            listener.line(Output::Out(master.take()))
        }),
        Line::Tick(count) => repeat(master, count, |master| {
            master.tick();
            Ok(())
        }),
    }
}

fn outcomes<P: Port>(heap: Global, master: &Master<P>) -> Result<Vec<Outcome>, AllocError> {
    master
        .sheet()
        .slaves
        .iter()
        .map(|slave| Outcome {
            node: slave.node,
            mandatory: slave.mandatory,
            // a listed slave's node is never refused
            letter: master.result(slave.node).unwrap_or(None),
        })
        .collect(heap)
}

// Prints what a master has come to: Go, halted and the slaves' letters.
pub fn print_report<W: Write, P: Port>(
    heap: Global,
    out: &mut W,
    style: Style,
    master: &Master<P>,
) -> anyhow::Result<()> {
    let slaves = outcomes(heap, master)?;
    let slaves = slaves.as_slice();
    let mut printer = Printer { heap, style, out };
    let go = master.go();
    printer.line(Output::Go { go, slaves })?;
    printer.line(Output::Halted(master.halted()))?;
    for Outcome { node, letter, .. } in slaves.iter().copied() {
        printer.line(Output::Slave { node, letter })?;
    }
    Ok(())
}

// Makes the calls of a session's text on a master, and tells what was taken and refused.
fn listen<L: Listener, P: Port>(
    listener: &mut L,
    master: &mut Master<P>,
    session: &[u8],
) -> anyhow::Result<()>
    ensures { OnOk result (machine_by P.Port master.new ≡ played session.now (machine_by P.Port master.old)) }
{
    let mut rest = session;
    while !rest.is_empty() {
        let (text, more) = next_line(rest);
        if let Some(line) = read_line(text) {
            carry_out(listener, master, line)?;
        }
        rest = more;
    }
    Ok(())
}

// Makes the calls of a session's text on a master, and prints what was taken and refused. All lines are done, unless
// printing fails.
#[tactic(auto, using(crate::proofs::Playing::line_by_line))]
pub fn play<W: Write, P: Port>(
    heap: Global,
    out: &mut W,
    style: Style,
    master: &mut Master<P>,
    session: &[u8],
) -> anyhow::Result<()>
    ensures played { OnOk result (machine_by P.Port master.new ≡ played session.now (machine_by P.Port master.old)) }
    ensures law { LineByLine }
{
    listen(&mut Printer { heap, style, out }, master, session)
}

// The same, with nothing printed.
pub fn play_silently<P: Port>(master: &mut Master<P>, session: &[u8]) -> anyhow::Result<()>
    ensures { OnOk result (machine_by P.Port master.new ≡ played session.now (machine_by P.Port master.old)) }
{
    listen(&mut Nobody, master, session)
}

// Runs a session's text with a sheet's text, and prints what was taken and refused, then Go, halted and the slaves'
// letters. A sheet that is refused runs as the empty one.
pub fn run<W: Write>(
    heap: Global,
    out: &mut W,
    style: Style,
    sheet_text: &[u8],
    session: &[u8],
) -> anyhow::Result<()> {
    let mut sheet = Sheet::empty(heap)?;
    if let Err(fault) = sheet.read(sheet_text) {
        let mut printer = Printer { heap, style, out };
        printer.line(Output::BadSheet(fault))?;
    }
    let mut places = ring_places();
    let mut master = ring_master(sheet, &mut places);
    play(heap, out, style, &mut master, session)?;
    print_report(heap, out, style, &master)
}
