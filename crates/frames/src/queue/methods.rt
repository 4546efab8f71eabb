ghost use Rattle.std.specs.Prelude.{◌≡◌, ◌+◌, ◌-◌, ◌<◌, ◌≤◌, ◌⊎◌, length};
ghost use Rattle.frames.specs.Lists.{first_of, rest_of, first_is, accepts, added};
ghost use Rattle.frames.specs.Waiting.{Begun, waiting, most};

use super::Queue;
use crate::identified::Identified;
use crate::refusal::Refusal;

impl<'a, T: Identified + Copy> Queue<'a, T> {
    // An empty queue in the lent memory, unless that has no place or more than 64.
    pub fn new(slots: &'a mut [T]) -> Result<Queue<'a, T>, Refusal>
        ensures { Begun (length slots.old) result }
    {
        let n = slots.len();
        if n == 0 || n > 64 {
            return Err(Refusal::Memory);
        }
        Ok(Queue {
            slots,
            head: 0,
            len: 0,
        })
    }

    // How many more elements can wait.
    pub fn room(&self) -> usize
        ensures { result ≡ most self.now - length (waiting self.now) }
    {
        self.slots.len() - self.len
    }

    // The place that is `ahead` places behind the head; the first place follows the last.
    fn place(&self, ahead: usize) -> usize
        requires { ahead ≤ most self.now }
        ensures within { result < most self.now }
        ensures round { (result ≡ self.now.head + ahead) ⊎ (result + most self.now ≡ self.now.head + ahead) }
    {
        let at = self.head + ahead;
        let places = self.slots.len();
        if at < places { at } else { at - places }
    }

    // Adds an element at the end exactly if there is room, and says whether it did. A yes or no, and no `Result`: who is
    // declined still has the element, which is copied.
    pub fn put(&mut self, x: T) -> bool
        ensures answer { result ≡ accepts (most self.old) (waiting self.old) }
        ensures list { waiting self.new ≡ added (most self.old) (waiting self.old) x }
        ensures same { most self.new ≡ most self.old }
    {
        if self.room() == 0 {
            return false;
        }
        let len = self.len;
        let last = self.place(len);
        self.slots[last] = x;
        self.len += 1;
        true
    }

    // The first waiting element.
    pub fn first(&self) -> Option<T>
        ensures { result ≡ first_of (waiting self.now) }
    {
        if self.len == 0 {
            None
        } else {
            Some(self.slots[self.head])
        }
    }

    // Removes the first waiting element and answers it.
    pub fn take(&mut self) -> Option<T>
        ensures answer { result ≡ first_of (waiting self.old) }
        ensures list { waiting self.new ≡ rest_of (waiting self.old) }
        ensures same { most self.new ≡ most self.old }
    {
        if self.len == 0 {
            return None;
        }
        let x = self.slots[self.head];
        let next = self.head + 1;
        self.head = if next == self.slots.len() { 0 } else { next };
        self.len -= 1;
        Some(x)
    }

    // Whether the first waiting element is an NMT command, which has the identifier 0.
    pub fn first_is_command(&self) -> bool
        ensures { result ≡ first_is (λ x. T.Identified.ident x) 0 (waiting self.now) }
    {
        self.first().is_some_and(|x| x.identifier() == 0)
    }
}
