ghost use Rattle.std.specs.Prelude.{◌≡◌, ◌-◌, [], length};
ghost use Rattle.std.proofs.Common.{arith};
ghost use Rattle.ports.specs.Mail.{mail_waiting};
ghost use Rattle.ports.specs.MailLaws.{mail_within};

use super::{Mailbox, Slot};
use crate::port::Port;
use frames::frame::Frame;

// A slot whose turn is one nearer.
fn nearer(slot: Slot) -> Slot
    ensures { (result.turn ≡ slot.turn - 1) × (result.frame ≡ slot.frame) }
{
    Slot {
        turn: slot.turn.saturating_sub(1),
        frame: slot.frame,
    }
}

impl Mailbox {
    // An empty mailbox. The blank frame fills the free slots and never leaves.
    pub fn new(blank: Frame) -> Mailbox
        ensures { mail_waiting result ≡ [] }
    {
        let free = Slot {
            turn: 0,
            frame: blank,
        };
        Mailbox {
            a: free,
            b: free,
            c: free,
        }
    }

    // How many frames wait: as many as the highest turn.
    fn waits(&self) -> u8
        ensures { result ≡ length (mail_waiting self.now) }
    {
        self.a.turn.max(self.b.turn).max(self.c.turn)
    }
}

impl Port for Mailbox {
    ghost waiting = { mail_waiting };

    ghost most = { λ _. 3 };

    ghost gap = { λ _. 0 };

    ghost pause = { λ _. 0 };

    ghost least = { λ _. omega arith };

    ghost within = { mail_within };

    fn room(&self) -> usize {
        3 - self.waits() as usize
    }

    fn put(&mut self, frame: Frame) -> bool {
        let n = self.waits();
        if n == 3 {
            return false;
        }
        let last = Slot { turn: n + 1, frame };
        if self.a.turn == 0 {
            self.a = last;
        } else if self.b.turn == 0 {
            self.b = last;
        } else {
            self.c = last;
        }
        true
    }

    fn first(&self) -> Option<Frame> {
        if self.a.turn == 1 {
            Some(self.a.frame)
        } else if self.b.turn == 1 {
            Some(self.b.frame)
        } else if self.c.turn == 1 {
            Some(self.c.frame)
        } else {
            None
        }
    }

    fn take(&mut self) -> Option<Frame> {
        let first = self.first();
        self.a = nearer(self.a);
        self.b = nearer(self.b);
        self.c = nearer(self.c);
        first
    }

    fn tick(&mut self) {}
}
