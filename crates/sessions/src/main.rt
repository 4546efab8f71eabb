// Runs each session that the file `cases` names, plain or explained, and prints what it comes to under that line.
#![tactic(auto)]

use anyhow::anyhow;
use script::{Style, run};
use std::fs;
use std::io::{BufWriter, Write};

fn run_case<W: Write>(rt: &HostRuntime, out: &mut W, case: &str) -> anyhow::Result<()> {
    let Some((word, name)) = case.split_once(' ') else {
        return Err(anyhow!("a case has a style and a name"));
    };
    let sheet_path = format!(in rt.alloc(); "{name}.sheet")?;
    let session_path = format!(in rt.alloc(); "{name}.session")?;
    let sheet = fs::read(rt, sheet_path.as_str())?;
    let session = fs::read(rt, session_path.as_str())?;
    let style: Style = word
        .parse()
        .map_err(|_| anyhow!("a case is plain or explained"))?;
    writeln!(out, "== {case}")?;
    run(rt.alloc(), out, style, sheet.as_slice(), session.as_slice())
}

fn main(rt: HostRuntime) -> anyhow::Result<()> {
    let cases = fs::read_to_string(&rt, "cases")?;
    let mut out = BufWriter::new(rt.alloc(), rt.stdout())?;
    for case in cases.as_str().lines() {
        run_case(&rt, &mut out, case)?;
    }
    out.flush()?;
    Ok(())
}
