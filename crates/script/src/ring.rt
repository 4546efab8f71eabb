// A master on the port that all programs give it: a gap port on a ring of 64.
ghost use Rattle.std.specs.Prelude.{◌≡◌, [], ◌∷◌, map, replicate};
ghost use Rattle.frames.specs.Contents.{content_of};
ghost use Rattle.master.specs.FromPort.{fresh_machine};
ghost use Rattle.master.specs.Masters.{machine_by};
ghost use Rattle.ports.specs.Gaps.{gap_ticks};
ghost use Rattle.sheet.specs.Sheets.{lines_of};

use frames::frame::Frame;
use frames::nmt::{Command, NmtMessage};
use frames::queue::Queue;
use master::Master;
use ports::gap_port::GapPort;
use ports::port::Port;
use sheet::Sheet;

// A master with the port of all programs.
pub type RingMaster<'a> = Master<GapPort<Queue<'a, Frame>>>;

// The places of a ring, with a frame in each that never leaves.
pub fn ring_places() -> [Frame; 64]
    ensures { map content_of result ≡ replicate 64 (record { id = 0; bytes = 1 ∷ 0 ∷ [] }) }
{
    let blank = NmtMessage {
        command: Command::Start,
        node: 0,
    };
    [blank.frame(); 64]
}

// A fresh master with a sheet; nothing waits in its port yet.
pub fn ring_master(sheet: Sheet, places: &mut [Frame; 64]) -> RingMaster<'_>
    ensures { machine_by ⟦<GapPort<Queue<'static, Frame>> as Port>⟧ result ≡ fresh_machine (lines_of sheet) (record { waiting = []; most = 64; gap = gap_ticks sheet.inhibit; pause = 0 }) }
{
    let inhibit = sheet.inhibit;
    let ring = Queue::new(places).unwrap();
    Master::new(sheet, GapPort::new(ring, inhibit))
}
