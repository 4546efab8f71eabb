// C functions for a program that measures the library. Nothing is kept between two of them: each makes a master from the
// text of a sheet, runs the text of a session on it, and then makes calls of one kind. A refused sheet is the empty one.
// Each answers 0 if there is no memory, as C has no `Option`.
#![tactic(auto)]

ghost use Rattle.std.specs.Prelude.{◌≡◌, ◌<◌, ◌≤◌, is_ok, if◌then◌else◌};
ghost use Rattle.sheet.specs.Format.{reading};

mod batches;
mod prefix;

use batches::{heartbeats, readings, ticks, works};
use prefix::after_session;
use script::{Style, run};
use sheet::Sheet;
use std::alloc::Global;

// As many as there were ticks if the lamp is green after them, else 0.
#[unsafe(no_mangle)]
pub extern "C" fn measure_ticks(heap: Global, sheet: &[u8], session: &[u8], count: u32) -> u32
    ensures { result ≤ count }
{
    after_session(heap, sheet, session, |master| ticks(master, count))
}

// How many of the heartbeats with these bytes, of the listed slaves in turn, were used.
#[unsafe(no_mangle)]
pub extern "C" fn measure_heartbeats(
    heap: Global,
    sheet: &[u8],
    session: &[u8],
    bytes: &[u8],
    count: u32,
) -> u32
    ensures { result ≤ count }
{
    after_session(
        heap,
        sheet,
        session,
        |master| heartbeats(master, bytes, count),
    )
}

// How many of the works found nothing due.
#[unsafe(no_mangle)]
pub extern "C" fn measure_works(heap: Global, sheet: &[u8], session: &[u8], count: u32) -> u32
    ensures { result ≤ count }
{
    after_session(heap, sheet, session, |master| works(master, count))
}

// How many of the readings of a sheet's text found no fault: all of them or none.
#[unsafe(no_mangle)]
pub extern "C" fn measure_readings(heap: Global, text: &[u8], count: u32) -> u32
    ensures { 0 < result → result ≡ (if is_ok (reading text.now) then count else 0) }
{
    match Sheet::empty(heap) {
        Ok(mut sheet) => readings(&mut sheet, text, count),
        Err(_) => 0,
    }
}

fn copy_front(from: &[u8], to: &mut [u8]) {
    let n = from.len().min(to.len());
    to[..n].copy_from_slice(&from[..n]);
}

// The length of what a session prints, of which as much is written as `out` has room for.
#[unsafe(no_mangle)]
pub extern "C" fn measure_report(
    heap: Global,
    sheet: &[u8],
    session: &[u8],
    out: &mut [u8],
) -> usize {
    let mut printed = Vec::new(heap);
    if run(heap, &mut printed, Style::Plain, sheet, session).is_err() {
        return 0;
    }
    copy_front(printed.as_slice(), out);
    printed.len()
}
