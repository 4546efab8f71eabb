// Lets a master hear a log of `candump -L`: sheet.txt and candump.log of the folder, or two files that are named. Prints
// what the master would have sent, and what it came to.
#![tactic(auto)]

mod play;
mod print;

use anyhow::anyhow;
use std::io::{BufWriter, Write};
use std::{env, fs};

const SHEET_PATH: &str = "sheet.txt";

const LOG_PATH: &str = "candump.log";

// Stands in each program: a public function has to have a contract, and what a file holds has none.
fn read_file(rt: &HostRuntime, path: &str) -> anyhow::Result<Vec<u8>> {
    match fs::read(rt, path) {
        Ok(bytes) => Ok(bytes),
        Err(error) => {
            eprintln!(rt; "replay: cannot read {path}: {error}")?;
            Err(error.into())
        }
    }
}

// What was printed before a refusal stays printed.
fn replay(rt: &HostRuntime, sheet: &str, log: &str) -> anyhow::Result<()> {
    let sheet = read_file(rt, sheet)?;
    let log = read_file(rt, log)?;
    let mut out = BufWriter::new(rt.alloc(), rt.stdout())?;
    let result = play::run(rt.alloc(), &mut out, sheet.as_slice(), log.as_slice());
    out.flush()?;
    if let Err(error) = &result {
        eprintln!(rt; "replay: {error}")?;
    }
    result
}

fn main(rt: HostRuntime) -> anyhow::Result<()> {
    let args: Vec<String> = env::args(&rt)?.skip(1).collect(rt.alloc())?;
    match args.as_slice() {
        [] => replay(&rt, SHEET_PATH, LOG_PATH),
        [sheet, log] => replay(&rt, sheet.as_str(), log.as_str()),
        _ => {
            eprintln!(rt; "replay: usage: replay [SHEET LOG]")?;
            Err(anyhow!("two files or none"))
        }
    }
}
