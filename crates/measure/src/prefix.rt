// Calls on a master that has gone through a session.
ghost use Rattle.std.specs.Prelude.{ℕ, ◌≤◌};

use script::{RingMaster, play_silently, ring_master, ring_places};
use sheet::Sheet;
use std::alloc::Global;

// What the calls come to; 0 if there is no memory.
pub(crate) fn after_session<F: FnOnce(&mut RingMaster<'_>) -> u32>(
    heap: Global,
    sheet_text: &[u8],
    session: &[u8],
    calls: F,
) -> u32
    requires { (m : _) → F.pre calls m }
    ensures { (most : ℕ) → ((m : _) (r : _) (n : _) → F.post calls m r n → r ≤ most) → result ≤ most }
{
    let Ok(mut sheet) = Sheet::empty(heap) else {
        return 0;
    };
    let _ = sheet.read(sheet_text);
    let mut places = ring_places();
    let mut master = ring_master(sheet, &mut places);
    if play_silently(&mut master, session).is_err() {
        return 0;
    }
    calls(&mut master)
}
