// The assignment sheet. Its slaves' memory is taken when it is made, for the most that a sheet can list.
ghost use Rattle.std.specs.Prelude.{◌≡◌, ◌≤◌, true, vec_len, vec_capacity};
ghost use Rattle.sheet.specs.Format.{good};
ghost use Rattle.sheet.specs.Views.{lines_from};

use crate::model::slave::Slave;

#[derive(Drop)]
pub struct Sheet {
    // the master's own node
    pub own: u8,
    // ticks that a slave has for an answer
    pub wait: u16,
    // ticks after which a mandatory slave that does not answer halts the master; 0: never
    pub boottime: u32,
    // between NMT commands, in units of 100 µs
    pub inhibit: u16,
    // one start for all slaves where they can be started together
    pub startall: bool,
    // the loss of a mandatory slave resets all
    pub resetall: bool,
    // the loss of a mandatory slave stops all
    pub stopall: bool,
    pub slaves: Vec<Slave>,
    ghost room: { 126 ≤ vec_capacity slaves },
    ghost listed: { vec_len slaves ≤ 126 },
    ghost kept: { good (lines_from own wait boottime inhibit startall resetall stopall slaves) ≡ true },
}
