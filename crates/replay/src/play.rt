// A log, heard by a fresh master whose port is a gap port on a ring of 64.
use crate::print::print_frame;
use anyhow::anyhow;
use candump::{Clock, Entry, Ticks, interface, read_line};
use master::{Master, Worked};
use ports::port::Port;
use script::{Lines, Style, print_report, ring_master, ring_places};
use sheet::Sheet;
use std::alloc::Global;
use std::io::Write;

// The time stamp of the log's first frame, and its interface; none if the log has no frame.
fn start_of(log: &[u8]) -> Option<(u64, &[u8])> {
    Lines::new(log).find_map(|text| Some((read_line(text)?.micros, interface(text)?)))
}

// Puts what is due and prints what leaves, until nothing is put and nothing leaves. The count is there because every
// loop has to end.
fn settle<W: Write, P: Port>(
    out: &mut W,
    master: &mut Master<P>,
    name: &[u8],
    micros: u64,
) -> anyhow::Result<()> {
    for _ in 0..u64::MAX {
        let put = master.work() == Ok(Worked::Put);
        let taken = master.take();
        if let Some(frame) = &taken {
            print_frame(out, micros, name, frame)?;
        } else if !put {
            break;
        }
    }
    Ok(())
}

// The milliseconds that end before a frame of the log, and then the frame.
fn follow<W: Write, P: Port>(
    out: &mut W,
    master: &mut Master<P>,
    name: &[u8],
    ticks: Ticks,
    entry: &Entry,
) -> anyhow::Result<()> {
    for k in 1..=ticks.count() {
        master.tick();
        settle(out, master, name, ticks.time(k))?;
    }
    let _ = master.heard(u32::from(entry.frame.id()), entry.frame.data());
    settle(out, master, name, entry.micros)
}

// Lets a master hear a log, and answers how many lines were skipped.
fn hear<W: Write, P: Port>(
    heap: Global,
    out: &mut W,
    master: &mut Master<P>,
    log: &[u8],
) -> anyhow::Result<u64> {
    // a log without a frame has no time, and any will do
    let (first, name) = start_of(log).unwrap_or((0, &[]));
    let mut clock = Clock::new(first);
    let mut skipped = 0u64;
    for (line, text) in (1u64..).zip(Lines::new(log)) {
        let Some(entry) = read_line(text) else {
            skipped = skipped.saturating_add(1);
            continue;
        };
        match clock.advance(entry.micros) {
            Ok(ticks) => follow(out, master, name, ticks, &entry)?,
            Err(slip) => return Err(anyhow!(format!(in heap; "line {line}: {slip}")?)),
        }
    }
    Ok(skipped)
}

// Lets a master with a sheet's text hear a log. A sheet that is refused runs as the empty one.
pub(crate) fn run<W: Write>(
    heap: Global,
    out: &mut W,
    sheet_text: &[u8],
    log: &[u8],
) -> anyhow::Result<()> {
    let mut sheet = Sheet::empty(heap)?;
    if let Err(fault) = sheet.read(sheet_text) {
        writeln!(out, "refused={}", fault.number())?;
    }
    let mut places = ring_places();
    let mut master = ring_master(sheet, &mut places);
    let skipped = hear(heap, out, &mut master, log)?;
    print_report(heap, out, Style::Plain, &master)?;
    writeln!(out, "skipped={skipped}")?;
    Ok(())
}
