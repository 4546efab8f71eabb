ghost use Rattle.std.specs.Prelude.{◌≡◌, true};
ghost use Rattle.ports.specs.Turns.{fair};

use frames::frame::Frame;

pub mod methods;

// A place for a frame. Its turn is 0 if the place is free, and 1 if its frame is the first to leave.
#[derive(Clone, Copy)]
pub struct Slot {
    turn: u8,
    frame: Frame,
}

// The mailbox port: three slots, those in use numbered by turn from 1 on. Every frame that leaves lowers the turns of the
// others, so that no turn passes 3.
#[derive(Drop)]
pub struct Mailbox {
    a: Slot,
    b: Slot,
    c: Slot,
    ghost turns_ok: { fair a.turn b.turn c.turn ≡ true },
}
