// Runs the session of a folder: sheet.txt and session.txt, or two files that are named. With --explain in front, each
// line that it prints has a note for the fitter.
#![tactic(auto)]

use anyhow::anyhow;
use script::{Style, run};
use std::io::{BufWriter, Write};
use std::{env, fs};

const SHEET_PATH: &str = "sheet.txt";

const SESSION_PATH: &str = "session.txt";

const EXPLAIN: &str = "--explain";

// Stands in each program: a public function has to have a contract, and what a file holds has none.
fn read_file(rt: &HostRuntime, path: &str) -> anyhow::Result<Vec<u8>> {
    match fs::read(rt, path) {
        Ok(bytes) => Ok(bytes),
        Err(error) => {
            eprintln!(rt; "starter: cannot read {path}: {error}")?;
            Err(error.into())
        }
    }
}

fn start(rt: &HostRuntime, style: Style, sheet: &str, session: &str) -> anyhow::Result<()> {
    let sheet = read_file(rt, sheet)?;
    let session = read_file(rt, session)?;
    let mut out = BufWriter::new(rt.alloc(), rt.stdout())?;
    run(
        rt.alloc(),
        &mut out,
        style,
        sheet.as_slice(),
        session.as_slice(),
    )?;
    out.flush()?;
    Ok(())
}

fn main(rt: HostRuntime) -> anyhow::Result<()> {
    let args: Vec<String> = env::args(&rt)?.skip(1).collect(rt.alloc())?;
    let (style, paths) = match args.as_slice() {
        [first, rest @ ..] if first.as_str() == EXPLAIN => (Style::Explained, rest),
        all => (Style::Plain, all),
    };
    match paths {
        [] => start(&rt, style, SHEET_PATH, SESSION_PATH),
        [sheet, session] => start(&rt, style, sheet.as_str(), session.as_str()),
        _ => {
            eprintln!(rt; "starter: usage: starter [--explain] [SHEET SESSION]")?;
            Err(anyhow!("two files or none"))
        }
    }
}
