ghost use Rattle.std.specs.Prelude.{◌≡◌, true, false, Some};
ghost use Rattle.ports.specs.Trials.{OnePlace};

use crate::port::Port;
use frames::frame::Frame;
use frames::queue::Queue;

// What a ring port with one place answers to a put of `a`, a put of `b`, a take, and a put of `b` again.
pub fn ring_of_one(a: Frame, b: Frame) -> (bool, bool, Option<Frame>, bool)
    ensures answers { result ≡ (true, false, Some a, true) }
    ensures trial { OnePlace a b }
{
    let mut slots = [b; 1];
    let mut ring = Queue::new(&mut slots).unwrap();
    let first = Port::put(&mut ring, a);
    let second = Port::put(&mut ring, b);
    let taken = Port::take(&mut ring);
    let third = Port::put(&mut ring, b);
    (first, second, taken, third)
}
