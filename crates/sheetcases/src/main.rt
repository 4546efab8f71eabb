// Reads each sheet that the file `cases` names, and says what came: the fault with its sentence, or how much the sheet holds and
// how long its text is when it is written again.
#![tactic(auto)]

use sheet::Sheet;
use std::fs;
use std::io::{BufWriter, Write};

// Longer than any sheet's text.
const LONGEST: usize = 40000;

fn count_sets(sheet: &Sheet) -> usize {
    sheet.slaves.iter().fold(0usize, |sets, slave| {
        sets.saturating_add(slave.sets.as_slice().len())
    })
}

// The length of the text that the sheet writes; none, unless it is the text that was read.
fn rewritten(sheet: &Sheet, text: &[u8], out: &mut [u8]) -> Option<usize> {
    let n = sheet.write(out).ok()?;
    (out.get(..n)? == text).then_some(n)
}

fn run_case<W: Write>(
    rt: &HostRuntime,
    out: &mut W,
    sheet: &mut Sheet,
    name: &str,
    room: &mut [u8],
) -> anyhow::Result<()> {
    let path = format!(in rt.alloc(); "{name}.txt")?;
    let text = fs::read(rt, path.as_str())?;
    match sheet.read(text.as_slice()) {
        Ok(()) => {
            let slaves = sheet.slaves.len();
            let sets = count_sets(sheet);
            let n = rewritten(sheet, text.as_slice(), room).unwrap_or(0);
            writeln!(
                out,
                "{name:<26} right slaves={slaves} sets={sets} rewritten={n}"
            )?;
        }
        // Each program reports a fault in lines of its own.
        Err(fault) => {
            writeln!(
                out,
                "{name:<26} refused={} line={} layer={}",
                fault.number(),
                fault.line(),
                fault.layer()
            )?;
            writeln!(out, "{:26} {fault}", "")?;
        }
    }
    Ok(())
}

fn main(rt: HostRuntime) -> anyhow::Result<()> {
    let cases = fs::read_to_string(&rt, "cases")?;
    let mut sheet = Sheet::empty(rt.alloc())?;
    let mut room = vec![in rt.alloc(); 0u8; LONGEST]?;
    let mut out = BufWriter::new(rt.alloc(), rt.stdout())?;
    for name in cases.as_str().lines() {
        run_case(&rt, &mut out, &mut sheet, name, room.as_mut_slice())?;
    }
    out.flush()?;
    Ok(())
}
