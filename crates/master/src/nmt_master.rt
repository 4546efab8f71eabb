// The NMT master: what it knows of its network, and the port that it speaks through.
ghost use Rattle.std.specs.Prelude.{◌≡◌, [], ◌∷◌};
ghost use Rattle.std.specs.Option.{option_map};
ghost use Rattle.frames.specs.Contents.{content_of, ContentDecides};
ghost use Rattle.ports.specs.Meaning.{given};
ghost use Rattle.sheet.specs.Sheets.{lines_of};
ghost use Rattle.master.specs.FromPort.{LeadsFrom, Carries, Tells};
ghost use Rattle.master.specs.Masters.{port_by, machine_by, begun, use_of, called, hearing, hearing_steps, worked_by, asked};
ghost use Rattle.master.specs.Network.{heard_by, going, is_halted};
ghost use Rattle.master.specs.Rows.{shown_by, shown_at};
ghost use Rattle.master.specs.Session.{pass, work, take, after, step_of, works_on, takes, leaves};
ghost use Rattle.master.specs.Views.{view};

use crate::calls::{Answer, Call, Refusal, Use, Worked};
use crate::network::Network;
use crate::types::{Letter, Plan};
use frames::frame::Frame;
use ports::port::Port;
use sheet::Sheet;

#[derive(Drop)]
pub struct Master<P> {
    net: Network,
    port: P,
}

impl<P: Port> Master<P> {
    // A fresh master: a sweep 82h is begun, and nobody has passed.
    pub fn new(sheet: Sheet, port: P) -> Master<P>
        ensures state { machine_by P.Port result ≡ begun P.Port sheet port }
        ensures law { LeadsFrom (lines_of sheet) (port_by P.Port port) [] (machine_by P.Port result) }
    {
        Master {
            net: Network::new(sheet),
            port,
        }
    }

    // Lets the network hear a frame, and says in the word of the calls what the frame was to it.
    fn hear(&mut self, frame: &Frame) -> Use
        ensures answer { result ≡ use_of (heard_by (content_of frame.now) (view self.old.net)).0 }
        ensures net { view self.new.net ≡ (heard_by (content_of frame.now) (view self.old.net)).1 }
        ensures port { self.new.port ≡ self.old.port }
    {
        if self.net.heard(frame) {
            Use::Used
        } else {
            Use::Unused
        }
    }

    // A frame came over the bus: its identifier and bytes, as the bus gives them. Refused: 11.
    pub fn heard(&mut self, id: u32, bytes: &[u8]) -> Result<Use, Refusal>
        ensures answer { result ≡ (hearing id bytes.now (machine_by P.Port self.old)).0 }
        ensures state { machine_by P.Port self.new ≡ (hearing id bytes.now (machine_by P.Port self.old)).1 }
        ensures law { Carries (machine_by P.Port self.old) (hearing_steps id bytes.now) (machine_by P.Port self.new) }
    {
        let Ok(frame) = Frame::new(id, bytes) else {
            return Err(Refusal::NoFrame);
        };
        Ok(self.hear(&frame))
    }

    // A millisecond went by, for the slaves and for the port.
    pub fn tick(&mut self)
        ensures state { machine_by P.Port self.new ≡ after pass (machine_by P.Port self.old) }
        ensures law { Carries (machine_by P.Port self.old) (step_of pass (machine_by P.Port self.old) ∷ []) (machine_by P.Port self.new) }
    {
        self.net.tick();
        self.port.tick();
    }

    // Puts the frame that is due in the port. Refused: 12 if the master is halted, else 13 if something is due and the
    // port has no room.
    pub fn work(&mut self) -> Result<Worked, Refusal>
        ensures answer { result ≡ worked_by (works_on (machine_by P.Port self.old)).0 }
        ensures state { machine_by P.Port self.new ≡ after work (machine_by P.Port self.old) }
        ensures law { Carries (machine_by P.Port self.old) (step_of work (machine_by P.Port self.old) ∷ []) (machine_by P.Port self.new) }
    {
        if self.net.is_halted() {
            return Err(Refusal::Halted);
        }
        let plan = self.net.plan();
        let Some(frame) = self.net.frame_of(plan) else {
            self.net.carry_out(Plan::Nothing);
            return Ok(Worked::NothingDue);
        };
        if !self.port.put(frame) {
            return Err(Refusal::NoRoom);
        }
        self.net.carry_out(plan);
        Ok(Worked::Put)
    }

    // The frame that goes to the bus next, unless the port holds it back.
    pub fn take(&mut self) -> Option<Frame>
        ensures answer { result ≡ given (P.waiting self.old.port) (P.pause self.old.port) }
        ensures content { option_map content_of result ≡ (leaves (machine_by P.Port self.old).port.waiting (machine_by P.Port self.old).port).0 }
        ensures whole { ContentDecides }
        ensures state { machine_by P.Port self.new ≡ after take (machine_by P.Port self.old) }
        ensures law { Carries (machine_by P.Port self.old) (takes (option_map content_of result) ∷ []) (machine_by P.Port self.new) }
    {
        self.port.take()
    }

    // Any of the calls that can change something.
    pub(crate) fn answer(&mut self, call: Call) -> Answer
        ensures seen { shown_by call result ≡ shown_at call (machine_by P.Port self.old) }
        ensures state { machine_by P.Port self.new ≡ after (called call) (machine_by P.Port self.old) }
    {
        match call {
            Call::Heard(frame) => Answer::Heard(self.hear(&frame)),
            Call::Tick => {
                self.tick();
                Answer::Ticked
            }
            Call::Work => Answer::Worked(self.work()),
            Call::Take => Answer::Took(self.take()),
        }
    }

    // Whether every listed slave is cleared: the lamp is green.
    pub fn go(&self) -> bool
        ensures answer { result ≡ going (machine_by P.Port self.now).net }
        ensures law { Tells (machine_by P.Port self.now) result }
    {
        self.net.go()
    }

    // Whether the master is halted. It stays so, and only a new one starts the network again.
    pub fn halted(&self) -> bool
        ensures { result ≡ is_halted (machine_by P.Port self.now).net.phase }
    {
        self.net.is_halted()
    }

    // The result of a node, if it has one yet. Refused: 10.
    pub fn result(&self, node: u8) -> Result<Option<Letter>, Refusal>
        ensures { result ≡ asked node (machine_by P.Port self.now).net }
    {
        if node == 0 || node > 127 {
            return Err(Refusal::NoNode);
        }
        Ok(self.net.result(node))
    }

    // The sheet that the master was made from.
    pub fn sheet(&self) -> &Sheet
        ensures { lines_of result.now ≡ (machine_by P.Port self.now).net.lines }
    {
        self.net.sheet()
    }
}
