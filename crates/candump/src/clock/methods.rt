ghost use Rattle.std.specs.Prelude.{◌≡◌};
ghost use Rattle.candump.specs.Times.{Advance, latest_after};

use super::{Clock, Slip};
use crate::ticks::Ticks;

// 24 hours in microseconds.
const LONGEST_GAP: u64 = 86_400_000_000;

impl Clock {
    // The clock of a log that begins at a time stamp.
    pub fn new(micros: u64) -> Clock
        ensures first { result.first ≡ micros }
        ensures latest { result.latest ≡ micros }
    {
        Clock {
            first: micros,
            latest: micros,
        }
    }

    // Goes on to the next time stamp, and answers with the milliseconds that end on the way. They are counted from the
    // first time stamp. A stamp that cannot follow changes nothing.
    pub fn advance(&mut self, micros: u64) -> Result<Ticks, Slip>
        ensures answer { Advance self.old.first self.old.latest micros result }
        ensures first { self.new.first ≡ self.old.first }
        ensures latest { self.new.latest ≡ latest_after self.old.latest micros }
    {
        if micros < self.latest {
            return Err(Slip::Backwards);
        }
        if micros - self.latest > LONGEST_GAP {
            return Err(Slip::Gap);
        }
        let begun = (self.latest - self.first) / 1000;
        let ended = (micros - self.first) / 1000;
        self.latest = micros;
        Ok(Ticks {
            since: self.first + begun * 1000,
            count: (ended - begun) as u32,
        })
    }
}
