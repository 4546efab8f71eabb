ghost use Rattle.frames.proofs.QueueLaws.{queue_some, queue_within};
ghost use Rattle.frames.specs.Waiting.{waiting as queueWaiting, most as queueMost};

use super::port::Port;
use frames::frame::Frame;
use frames::queue::Queue;

// The ring port: a queue of frames in lent memory, with no gap between commands. The queue's own calls have the names of
// the port's, so a path says that they are meant.
impl<'a> Port for Queue<'a, Frame> {
    ghost waiting = { queueWaiting };

    ghost most = { queueMost };

    ghost gap = { λ _. 0 };

    ghost pause = { λ _. 0 };

    ghost least = { queue_some };

    ghost within = { queue_within };

    fn room(&self) -> usize {
        Queue::room(self)
    }

    fn put(&mut self, frame: Frame) -> bool {
        Queue::put(self, frame)
    }

    fn first(&self) -> Option<Frame> {
        Queue::first(self)
    }

    fn take(&mut self) -> Option<Frame> {
        Queue::take(self)
    }

    fn tick(&mut self) {}
}
