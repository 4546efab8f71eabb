ghost use Rattle.std.specs.Prelude.{◌≡◌, ◌+◌, ◌*◌, min};

use super::Ticks;

impl Ticks {
    pub fn count(&self) -> u32
        ensures { result ≡ self.now.count }
    {
        self.count
    }

    // The time, in microseconds, at which the k-th of them ends; past the last, the last one's.
    pub fn time(&self, k: u32) -> u64
        ensures { result ≡ self.now.since + min k self.now.count * 1000 }
    {
        self.since + u64::from(k.min(self.count)) * 1000
    }
}
