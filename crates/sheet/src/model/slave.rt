// A slave that the sheet assigns: what it must be, how it is watched and what is written to it. The numbers are those of the
// text, in which 0 stands for any, or for none.
ghost use Rattle.std.specs.Prelude.{◌≡◌, ◌≤◌, false, ◌&&◌, ◌==◌};

use crate::model::sets::Sets;

#[derive(Clone, Copy)]
pub struct Slave {
    pub node: u8,
    // Go waits for it
    pub mandatory: bool,
    // keep-alive: never reset while it may be running
    pub keep: bool,
    // the device type; the sheet's key is `type`
    pub kind: u32,
    pub vendor: u32,
    pub product: u32,
    pub revision: u32,
    pub serial: u32,
    // ticks without a heartbeat until it is lost; 0: it sends none
    pub hb: u16,
    pub sets: Sets,
    ghost named: { (1 ≤ node) × (node ≤ 127) },
    ghost alive: { (keep && hb == 0) ≡ false },
}
