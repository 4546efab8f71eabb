// What a slave's lines depend on: the master's own node, the node of the slave before, and the sets so far.
ghost use Rattle.std.specs.Prelude.{◌≡◌, ◌+◌, ◌≤◌, length};
ghost use Rattle.sheet.specs.Few.{few_items};

use crate::model::slave::Slave;

#[derive(Clone, Copy)]
pub(crate) struct Before {
    pub(crate) own: u8,
    pub(crate) last: u8,
    pub(crate) sofar: usize,
    ghost few: { sofar ≤ 256 },
}

impl Before {
    // Before the first slave.
    pub(crate) fn first(own: u8) -> Before
        ensures { (result.own ≡ own) × ((result.last ≡ 0) × (result.sofar ≡ 0)) }
    {
        Before {
            own,
            last: 0,
            sofar: 0,
        }
    }

    pub(crate) fn after(self, slave: &Slave) -> Before
        requires { self.sofar + length (few_items slave.now.sets) ≤ 256 }
        ensures { (result.own ≡ self.own) × ((result.last ≡ slave.now.node) × (result.sofar ≡ self.sofar + length (few_items slave.now.sets))) }
    {
        Before {
            own: self.own,
            last: slave.node,
            sofar: self.sofar + slave.sets.as_slice().len(),
        }
    }
}
