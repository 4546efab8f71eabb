ghost use Rattle.std.specs.Prelude.{◌≡◌, ℕ, ◌-◌, ◌≤◌, List, length};
ghost use Rattle.frames.specs.Lists.{first_of, accepts, added};
ghost use Rattle.frames.specs.declared.frame.Frame.{Frame};
ghost use Rattle.ports.specs.Meaning.{given, kept, paused};

use frames::frame::Frame;

// Where frames wait for the bus. A port means four things, and its calls change nothing of them but what they say.
// A clause for each that stays, and no clause for all: who uses a port cites them one by one.
pub trait Port {
    // The frames that wait, first to last.
    ghost waiting: { Self → List Frame };

    // How many can wait.
    ghost most: { Self → ℕ };

    // How many ticks stand between two NMT commands.
    ghost gap: { Self → ℕ };

    // How many ticks are left until the next NMT command may leave.
    ghost pause: { Self → ℕ };

    // At least one frame can wait at every port,
    ghost least: { (p : Self) → 1 ≤ most p };

    // and no more wait than can.
    ghost within: { (p : Self) → length (waiting p) ≤ most p };

    // How many more frames can wait.
    fn room(&self) -> usize
        ensures { result ≡ most self.now - length (waiting self.now) };

    // Adds a frame at the end exactly if there is room, and says whether it did. A yes or no, and no `Result`: who is declined
    // still has the frame, which is copied.
    fn put(&mut self, frame: Frame) -> bool
        ensures answer { result ≡ accepts (most self.old) (waiting self.old) }
        ensures list { waiting self.new ≡ added (most self.old) (waiting self.old) frame }
        ensures most_same { most self.new ≡ most self.old }
        ensures gap_same { gap self.new ≡ gap self.old }
        ensures pause_same { pause self.new ≡ pause self.old };

    // The first waiting frame.
    fn first(&self) -> Option<Frame>
        ensures { result ≡ first_of (waiting self.now) };

    // Removes the first waiting frame and answers it, unless it is an NMT command and the pause lasts. An NMT command
    // that leaves sets the pause to the gap.
    fn take(&mut self) -> Option<Frame>
        ensures answer { result ≡ given (waiting self.old) (pause self.old) }
        ensures list { waiting self.new ≡ kept (waiting self.old) (pause self.old) }
        ensures pauses { pause self.new ≡ paused (waiting self.old) (pause self.old) (gap self.old) }
        ensures most_same { most self.new ≡ most self.old }
        ensures gap_same { gap self.new ≡ gap self.old };

    // Lets a millisecond go by: a pause above 0 is one less.
    fn tick(&mut self)
        ensures pauses { pause self.new ≡ pause self.old - 1 }
        ensures list { waiting self.new ≡ waiting self.old }
        ensures most_same { most self.new ≡ most self.old }
        ensures gap_same { gap self.new ≡ gap self.old };
}
