// Many calls of one kind.
ghost use Rattle.std.specs.Prelude.{◌≡◌, ◌≤◌, is_ok, if◌then◌else◌};
ghost use Rattle.sheet.specs.Format.{reading};

use master::{Master, Use, Worked};
use ports::port::Port;
use sheet::{Few, Sheet};

pub(crate) fn ticks<P: Port>(master: &mut Master<P>, count: u32) -> u32
    ensures { result ≤ count }
{
    for _ in 0..count {
        master.tick();
    }
    if master.go() { count } else { 0 }
}

// The identifiers of the listed slaves' heartbeats. A sheet lists at most 126.
fn heartbeat_ids<P: Port>(master: &Master<P>) -> Few<u32, 126> {
    let mut ids = Few::new(0);
    for slave in &master.sheet().slaves {
        ids.push(0x700 + u32::from(slave.node));
    }
    ids
}

// The heartbeats of the listed slaves in turn, each with these bytes.
pub(crate) fn heartbeats<P: Port>(master: &mut Master<P>, bytes: &[u8], count: u32) -> u32
    ensures { result ≤ count }
{
    let used = heartbeat_ids(master)
        .as_slice()
        .iter()
        .cycle()
        .take(count as usize)
        .filter(|id| master.heard(**id, bytes) == Ok(Use::Used))
        .count();
    used as u32
}

pub(crate) fn works<P: Port>(master: &mut Master<P>, count: u32) -> u32
    ensures { result ≤ count }
{
    let idle = (0..count)
        .filter(|_| master.work() == Ok(Worked::NothingDue))
        .count();
    idle as u32
}

// How many readings of a text found no fault.
pub(crate) fn readings(sheet: &mut Sheet, text: &[u8], count: u32) -> u32
    ensures { result ≡ (if is_ok (reading text.now) then count else 0) }
{
    // A loop, since its count is exact: of a filter whose closure changes the sheet a proof knows the bound alone.
    let mut read = 0;
    for _ in 0..count {
        if sheet.read(text).is_ok() {
            read += 1;
        }
    }
    read
}
