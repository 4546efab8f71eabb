// One slave's entry: what it becomes by what is heard, by a tick, and by what is put to it.
ghost use Rattle.std.specs.Prelude.{◌≡◌, ◌-◌, not, nat_lt, None, Some, if◌then◌else◌};
ghost use Rattle.sheet.specs.Views.{slave_of};
ghost use Rattle.master.specs.Step.{is_boot_up, to, saying, quietly, missed_by, lost_by, passed_by, gone_on, booted_by, on_beat, on_sign, on_reply, on_tick, stepped, reset_put, request_put, start_put, is_passed, is_cleared, is_spared, duty_of};
ghost use Rattle.master.specs.Checks.{runs};
ghost use Rattle.master.specs.Table.{change_by};

use crate::checks::{following, unanswered, verdict};
use crate::types::{
    Change, Check, Duty, Entry, Input, Letter, Next, ResetKind, Setback, Stage, Stepped, Word,
};
use frames::error_control::Sign;
use frames::sdo::Reply;
use sheet::Slave;

// Ticks from a failed try to the next, and for a boot-up after a reset.
const PAUSE: u16 = 1000;

pub(crate) fn is_heartbeat(sign: Sign) -> bool
    ensures { result ≡ not (is_boot_up sign) }
{
    sign != Sign::BootUp
}

fn is_running(sign: Sign) -> bool
    ensures { result ≡ runs sign }
{
    sign == Sign::Operational
}

// A wait with one tick less, unless this is its last.
fn lowered(left: u16) -> Option<u16>
    ensures { result ≡ (if nat_lt 1 left then Some (left - 1) else None) }
{
    if left > 1 { Some(left - 1) } else { None }
}

impl Entry {
    fn to(self, stage: Stage) -> Entry
        ensures { result ≡ to stage self }
    {
        Entry { stage, ..self }
    }

    fn saying(self, word: Word) -> Entry
        ensures { result ≡ saying word self }
    {
        Entry { word, ..self }
    }

    // A step that ends here and brings no setback.
    fn quietly(self) -> Stepped
        ensures { result ≡ quietly self }
    {
        Stepped {
            entry: self,
            brought: None,
        }
    }

    fn missed(self, letter: Letter) -> Stepped
        ensures { result ≡ missed_by letter self }
    {
        Stepped {
            entry: Entry {
                stage: Stage::Retry { left: PAUSE },
                result: Some(letter),
                once: true,
                ..self
            },
            brought: Some(Setback::Missed(letter)),
        }
    }

    fn lost(self) -> Stepped
        ensures { result ≡ lost_by self }
    {
        Stepped {
            entry: Entry {
                stage: Stage::ResetDue {
                    reset: ResetKind::Node,
                },
                word: Word::Loss,
                result: Some(Letter::NoHeartbeat),
                ..self
            },
            brought: Some(Setback::Lost),
        }
    }

    fn passed(self, c: &Slave, running: bool) -> Entry
        ensures { result ≡ passed_by (slave_of c.now) running self }
    {
        let letter = if running {
            Letter::FoundRunning
        } else {
            Letter::Ready
        };
        Entry {
            stage: Stage::Passed {
                running,
                started: false,
                left: c.hb,
            },
            result: Some(letter),
            once: true,
            ..self
        }
    }

    fn gone_on(self, c: &Slave, next: Next) -> Entry
        ensures { result ≡ gone_on (slave_of c.now) next self }
    {
        match next {
            Next::Ask(check) => self.to(Stage::Ask { check }),
            Next::ListenState => self.to(Stage::ListenState { left: c.hb }),
            Next::ListenControl => self.to(Stage::ListenControl {
                left: c.hb,
                running: false,
            }),
            Next::Pass => self.passed(c, false),
        }
    }

    // A boot-up sends the slave to check 1 at any stage.
    fn booted_up(self) -> Entry
        ensures { result ≡ booted_by self }
    {
        Entry {
            stage: Stage::Ask { check: Check::Kind },
            word: Word::BootUp,
            booted: true,
            result: None,
            ..self
        }
    }

    // A heartbeat, once its state is the last word.
    fn on_beat(self, c: &Slave, sign: Sign) -> Entry
        ensures { result ≡ on_beat (slave_of c.now) sign self.stage self }
    {
        let running_now = is_running(sign);
        match self.stage {
            Stage::ListenState { .. } if running_now => self.to(Stage::ListenControl {
                left: c.hb,
                running: true,
            }),
            Stage::ListenControl { running, .. } if !running || running_now => {
                self.passed(c, running)
            }
            Stage::ListenState { .. } | Stage::ListenControl { .. } => self.to(Stage::ResetDue {
                reset: ResetKind::Communication,
            }),
            Stage::Passed {
                running,
                started,
                ..
            } => self.to(Stage::Passed {
                running,
                started,
                left: c.hb,
            }),
            Stage::ResetDue { .. } if c.keep && running_now => {
                self.to(Stage::Ask { check: Check::Kind })
            }
            _ => self,
        }
    }

    fn on_sign(self, c: &Slave, sign: Sign) -> Entry
        ensures { result ≡ on_sign (slave_of c.now) sign self }
    {
        if is_heartbeat(sign) {
            self.saying(Word::from(sign)).on_beat(c, sign)
        } else {
            self.booted_up()
        }
    }

    // An answer decides the check whose request is open.
    fn on_reply(self, c: &Slave, reply: Reply) -> Stepped
        ensures { result ≡ on_reply (slave_of c.now) reply self.stage self }
    {
        let Stage::Asked { check, .. } = self.stage else {
            return self.quietly();
        };
        match verdict(c, check, reply) {
            Ok(()) => {
                let next = following(c, self.booted, check);
                self.gone_on(c, next).quietly()
            }
            Err(letter) => self.missed(letter),
        }
    }

    // A tick lowers a wait, and one that is at its last tick runs out: an arm for each, since each ends in its own way.
    fn on_tick(self, c: &Slave) -> Stepped
        ensures { result ≡ on_tick (slave_of c.now) self.stage self }
    {
        match self.stage {
            Stage::AwaitBoot { left: Some(left) } => match lowered(left) {
                Some(n) => self.to(Stage::AwaitBoot { left: Some(n) }).quietly(),
                None => self.to(Stage::Ask { check: Check::Kind }).quietly(),
            },
            Stage::Asked { check, left } => match lowered(left) {
                Some(left) => self.to(Stage::Asked { check, left }).quietly(),
                None => self.missed(unanswered(check)),
            },
            Stage::ListenState { left } => match lowered(left) {
                Some(left) => self.to(Stage::ListenState { left }).quietly(),
                None => self.missed(Letter::NoHeartbeat),
            },
            Stage::ListenControl { left, running } => match lowered(left) {
                Some(left) => self.to(Stage::ListenControl { left, running }).quietly(),
                None => self.missed(Letter::NoControl),
            },
            Stage::Passed {
                running,
                started,
                left,
            } if c.hb > 0 => match lowered(left) {
                Some(left) => self
                    .to(Stage::Passed {
                        running,
                        started,
                        left,
                    })
                    .quietly(),
                None => self.lost(),
            },
            Stage::Retry { left } => match lowered(left) {
                Some(left) => self.to(Stage::Retry { left }).quietly(),
                None => self.to(Stage::Ask { check: Check::Kind }).quietly(),
            },
            _ => self.quietly(),
        }
    }

    pub(crate) fn step(self, c: &Slave, input: Input) -> Stepped
        ensures { result ≡ stepped (slave_of c.now) self input }
    {
        match input {
            Input::Heard(sign) => self.on_sign(c, sign).quietly(),
            Input::Replied(reply) => self.on_reply(c, reply),
            Input::Tick => self.on_tick(c),
        }
    }

    // A keep-alive slave begins at check 1.
    fn begun(self, c: &Slave) -> Entry
        ensures { result ≡ change_by Change.Begin (slave_of c.now) self }
    {
        if c.keep {
            self.to(Stage::Ask { check: Check::Kind })
        } else {
            self
        }
    }

    // A reset that names or covers the slave is put.
    fn reset_put(self) -> Entry
        ensures { result ≡ reset_put self }
    {
        Entry {
            stage: Stage::AwaitBoot { left: Some(PAUSE) },
            word: Word::Reset,
            booted: false,
            result: None,
            ..self
        }
    }

    // The request of its check is put.
    fn request_put(self, wait: u16) -> Entry
        ensures { result ≡ request_put wait self }
    {
        match self.stage {
            Stage::Ask { check } => self.to(Stage::Asked { check, left: wait }),
            _ => self,
        }
    }

    // A start that names or covers it is put.
    fn start_put(self) -> Entry
        ensures { result ≡ start_put self }
    {
        match self.stage {
            Stage::Passed { running, left, .. } => self.to(Stage::Passed {
                running,
                started: true,
                left,
            }),
            _ => self,
        }
    }

    pub(crate) fn changed(self, c: &Slave, change: Change) -> Entry
        ensures { result ≡ change_by change (slave_of c.now) self }
    {
        match change {
            Change::Begin => self.begun(c),
            Change::Reset => self.reset_put(),
            Change::Request(wait) => self.request_put(wait),
            Change::Start => self.start_put(),
        }
    }

    pub(crate) fn has_passed(&self) -> bool
        ensures { result ≡ is_passed self.now.stage }
    {
        matches!(self.stage, Stage::Passed { .. })
    }

    pub(crate) fn is_cleared(&self, c: &Slave) -> bool
        ensures { result ≡ is_cleared (slave_of c.now) self.now }
    {
        if c.mandatory {
            self.has_passed()
        } else {
            self.once
        }
    }

    pub(crate) fn is_spared(&self, c: &Slave) -> bool
        ensures { result ≡ is_spared (slave_of c.now) self.now }
    {
        c.keep && matches!(self.word, Word::Silence | Word::Operational)
    }

    pub(crate) fn duty(&self, go: bool) -> Option<Duty>
        ensures { result ≡ duty_of go self.now.stage }
    {
        match self.stage {
            Stage::ResetDue { reset } => Some(Duty::Reset(reset)),
            Stage::Ask { check } => Some(Duty::Request(check)),
            Stage::Passed {
                running: false,
                started: false,
                ..
            } if go => Some(Duty::Start),
            _ => None,
        }
    }
}
