// Says whether an assignment sheet is right; if it is, what it assigns, and if not, which line is wrong and why.
#![tactic(auto)]

use sheet::{Fault, Sheet, Slave};
use std::io::{BufWriter, Write};
use std::{env, fs};

const DEFAULT_PATH: &str = "sheet.txt";

// A function: a type of its own with a `Display` would say the same in more lines.
fn yes_no(b: bool) -> &'static str {
    if b { "yes" } else { "no" }
}

// One line a slave, under the columns' heads.
fn print_slave<W: Write>(out: &mut W, slave: &Slave) -> anyhow::Result<()> {
    let node = slave.node;
    let needed = if slave.mandatory {
        "mandatory"
    } else {
        "optional"
    };
    let keep = yes_no(slave.keep);
    let hb = slave.hb;
    let sets = slave.sets.as_slice().len();
    writeln!(
        out,
        "{node:>6}  {needed:<9}  {keep:<10}  {hb:>9}  {sets:>4}"
    )?;
    Ok(())
}

fn print_facts<W: Write>(out: &mut W, sheet: &Sheet) -> anyhow::Result<()> {
    writeln!(out, "own       {}", sheet.own)?;
    writeln!(out, "wait      {}", sheet.wait)?;
    writeln!(out, "boottime  {}", sheet.boottime)?;
    writeln!(out, "inhibit   {}", sheet.inhibit)?;
    writeln!(out, "startall  {}", yes_no(sheet.startall))?;
    writeln!(out, "resetall  {}", yes_no(sheet.resetall))?;
    writeln!(out, "stopall   {}", yes_no(sheet.stopall))?;
    writeln!(out, "slaves    {}", sheet.slaves.len())?;
    if !sheet.slaves.is_empty() {
        writeln!(out, "  node  needed     keep-alive  heartbeat  sets")?;
    }
    for slave in &sheet.slaves {
        print_slave(out, slave)?;
    }
    Ok(())
}

// Each program reports a fault in lines of its own.
fn print_fault<W: Write>(out: &mut W, fault: &Fault) -> anyhow::Result<()> {
    writeln!(out, "{fault}")?;
    writeln!(
        out,
        "refused={} line={} layer={}",
        fault.number(),
        fault.line(),
        fault.layer()
    )?;
    Ok(())
}

// The file at the path given as an argument, or sheet.txt in this folder. The programs above have one of their own:
// the one crate below them all, sheet, has no IO.
fn read_file(rt: &HostRuntime) -> anyhow::Result<Vec<u8>> {
    let path = env::args(rt)?.nth(1);
    let path = path.as_deref().unwrap_or(DEFAULT_PATH);
    let text = fs::read(rt, path);
    if let Err(error) = &text {
        eprintln!(rt; "sheetcheck: cannot read {path}: {error}")?;
    }
    Ok(text?)
}

fn main(rt: HostRuntime) -> anyhow::Result<()> {
    let text = read_file(&rt)?;
    let mut sheet = Sheet::empty(rt.alloc())?;
    let mut out = BufWriter::new(rt.alloc(), rt.stdout())?;
    match sheet.read(text.as_slice()) {
        Ok(()) => print_facts(&mut out, &sheet)?,
        Err(fault) => print_fault(&mut out, &fault)?,
    }
    out.flush()?;
    Ok(())
}
