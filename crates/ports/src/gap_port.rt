ghost use Rattle.std.specs.Prelude.{◌≡◌, max};
ghost use Rattle.ports.specs.Gaps.{gap_ticks, GapTrials};
ghost use Rattle.ports.specs.Meaning.{is_command};

use super::port::Port;
use frames::frame::Frame;

// Any port, with a gap of its own between NMT commands. The gap that holds is the greater of its own and the one below.
#[derive(Drop)]
pub struct GapPort<P> {
    below: P,
    gap: u16,
    pause: u16,
}

// The gap in ticks for an inhibit time in units of 100 µs.
pub fn gap_ticks(inhibit: u16) -> u16
    ensures ticks { result ≡ gap_ticks inhibit }
    ensures trials { GapTrials }
{
    inhibit.div_ceil(10)
}

fn is_command(frame: Frame) -> bool
    ensures { result ≡ is_command frame }
{
    frame.id() == 0
}

impl<P: Port> GapPort<P> {
    // A gap port over a port, for an inhibit time in units of 100 µs.
    pub fn new(below: P, inhibit: u16) -> GapPort<P>
        ensures below { result.below ≡ below }
        ensures gap { result.gap ≡ gap_ticks inhibit }
        ensures pause { result.pause ≡ 0 }
    {
        GapPort {
            below,
            gap: gap_ticks(inhibit),
            pause: 0,
        }
    }
}

impl<P: Port> Port for GapPort<P> {
    ghost waiting = { λ p. P.Port.waiting p.below };

    ghost most = { λ p. P.Port.most p.below };

    ghost gap = { λ p. max p.gap (P.Port.gap p.below) };

    ghost pause = { λ p. max p.pause (P.Port.pause p.below) };

    ghost least = { λ p. P.Port.least p.below };

    ghost within = { λ p. P.Port.within p.below };

    fn room(&self) -> usize {
        self.below.room()
    }

    fn put(&mut self, frame: Frame) -> bool {
        self.below.put(frame)
    }

    fn first(&self) -> Option<Frame> {
        self.below.first()
    }

    fn take(&mut self) -> Option<Frame> {
        if self.pause > 0 && self.first().is_some_and(is_command) {
            return None;
        }
        let taken = self.below.take();
        if taken.is_some_and(is_command) {
            self.pause = self.gap;
        }
        taken
    }

    fn tick(&mut self) {
        self.pause = self.pause.saturating_sub(1);
        self.below.tick();
    }
}
