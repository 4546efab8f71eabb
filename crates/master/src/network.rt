// Everything of the master but its port.
ghost use Rattle.std.specs.Prelude.{◌≡◌, ◌-◌, length, map, ◌==◌};
ghost use Rattle.std.specs.Option.{option_map};
ghost use Rattle.frames.specs.Contents.{content_of};
ghost use Rattle.sheet.specs.Sheets.{lines_of};
ghost use Rattle.sheet.specs.Views.{slave_of};
ghost use Rattle.master.specs.Network.{fresh_state, is_running, is_halted, slave_by, holds, count_in, counted, going, result_of, tries_anew, brought_by, step_in, ticked, input_of, heard_by, sweeps_to, single_after, first_due, next_due, starts_all, duty_plan, single_plan, sweep_plan, planned, nmt_to, duty_content, plan_content, with_entries, applied_to, change_for, served, carried_out};
ghost use Rattle.master.specs.Table.{entry_of, applied_all};
ghost use Rattle.master.specs.Views.{view, state_of, listed, slave_seen};

use crate::checks::request_of;
use crate::table::Table;
use crate::types::{
    Change, Duty, Input, Letter, Phase, Plan, Quality, ResetKind, Setback, Stage, Sweep,
};
use frames::error_control::Sign;
use frames::frame::Frame;
use frames::nmt::{Command, NmtMessage};
use sheet::{Sheet, Slave};

// It has no model: the proofs of the calls lean on the rules that its sheet keeps, which a model would hide.
#[derive(Drop)]
pub struct Network {
    roll: Roll,
    course: Course,
}

// The sheet, and by node where on it the node's slave may stand. A place is looked at before it is believed, so a wrong one
// costs time and nothing else. A search alone takes twice the time for a heartbeat in a sheet of 126 slaves.
#[derive(Drop)]
pub struct Roll {
    sheet: Sheet,
    hints: [u8; 256],
}

// What changes while the sheet stays.
#[derive(Drop)]
pub struct Course {
    table: Table,
    // none is under way
    sweep: Option<Sweep>,
    // the node that was served last; 0 at first, which is no node
    last: u8,
    // a start was put
    started: bool,
    // ticks since the session began
    clock: u32,
    phase: Phase,
}

fn nmt(command: Command, node: u8) -> Frame
    ensures { content_of result ≡ nmt_to command node }
{
    NmtMessage { command, node }.frame()
}

// What a duty does to its slave's entry.
fn change_for(wait: u16, duty: Duty) -> Change
    ensures { result ≡ change_for wait duty }
{
    match duty {
        Duty::Reset(_) => Change::Reset,
        Duty::Request(_) => Change::Request(wait),
        Duty::Start => Change::Start,
    }
}

// The slave of a node, if the sheet lists it. Its slaves ascend by node.
fn search(sheet: &Sheet, node: u8) -> Option<&Slave>
    ensures { slave_seen result ≡ slave_by node (lines_of sheet.now).slaves }
{
    match sheet.slaves.binary_search_by_key(&node, |c| c.node) {
        Ok(place) => Some(&sheet.slaves[place]),
        Err(_) => None,
    }
}

impl Roll {
    fn new(sheet: Sheet) -> Roll
        ensures { result.sheet ≡ sheet }
    {
        let mut hints = [0; 256];
        for (place, c) in sheet.slaves.iter().enumerate() {
            hints[usize::from(c.node)] = place as u8;
        }
        Roll { sheet, hints }
    }

    // The slave of a node, if it is listed.
    fn slave(&self, node: u8) -> Option<&Slave>
        ensures { slave_seen result ≡ slave_by node (lines_of self.now.sheet).slaves }
    {
        let hint = usize::from(self.hints[usize::from(node)]);
        match self.sheet.slaves.get(hint) {
            Some(c) if c.node == node => Some(c),
            _ => search(&self.sheet, node),
        }
    }
}

impl Course {
    fn is_running(&self) -> bool
        ensures { result ≡ is_running self.now.phase }
    {
        matches!(self.phase, Phase::Running)
    }

    fn has(&self, c: &Slave, quality: Quality) -> bool
        ensures { result ≡ holds quality self.now.table.entries self.now.last (slave_of c.now) }
    {
        match quality {
            Quality::Cleared => self.table.at(c).is_cleared(c),
            Quality::Passed => self.table.at(c).has_passed(),
            Quality::Spared => self.table.at(c).is_spared(c),
            Quality::Served => c.node <= self.last,
        }
    }

    // How many of these slaves have a quality.
    fn count(&self, slaves: &[Slave], quality: Quality) -> usize
        ensures { result ≡ count_in quality self.now.table.entries self.now.last (map slave_of slaves.now) }
    {
        slaves.iter().filter(|c| self.has(c, quality)).count()
    }

    fn tries_anew(&self, sheet: &Sheet, letter: Letter) -> bool
        ensures { result ≡ tries_anew letter (state_of sheet.now self.now) }
    {
        matches!(letter, Letter::NoAnswer) && (sheet.boottime == 0 || self.clock <= sheet.boottime)
    }

    // What a mandatory slave's step brings the whole.
    fn bring(&mut self, sheet: &Sheet, brought: Option<Setback>)
        ensures { state_of sheet.now self.new ≡ brought_by brought (state_of sheet.now self.old) }
    {
        match brought {
            None => {}
            Some(Setback::Missed(letter)) => {
                if !self.tries_anew(sheet, letter) {
                    self.phase = Phase::Halted;
                }
            }
            Some(Setback::Lost) => {
                if sheet.stopall {
                    self.phase = Phase::StopDue;
                } else if sheet.resetall {
                    self.sweep = Some(Sweep::Begun {
                        reset: ResetKind::Node,
                    });
                }
            }
        }
    }

    // A step of a slave, and what it brings.
    #[cold]
    fn step(&mut self, sheet: &Sheet, c: &Slave, input: Input)
        ensures { state_of sheet.now self.new ≡ step_in (slave_of c.now) input (state_of sheet.now self.old) }
    {
        let brought = self.table.step(c, input);
        if c.mandatory {
            self.bring(sheet, brought);
        }
    }

    // The same, by the short way where it serves.
    #[inline]
    fn advance(&mut self, sheet: &Sheet, c: &Slave, input: Input)
        ensures { state_of sheet.now self.new ≡ step_in (slave_of c.now) input (state_of sheet.now self.old) }
    {
        if !self.table.shortens(c, input) {
            self.step(sheet, c, input);
        }
    }

    // A tick for each slave upward, up to one that brings a stop or a halt.
    fn tick(&mut self, sheet: &Sheet)
        ensures { state_of sheet.now self.new ≡ ticked (state_of sheet.now self.old) }
    {
        if !self.is_running() {
            return;
        }
        self.clock = self.clock.saturating_add(1);
        for c in &sheet.slaves {
            self.advance(sheet, c, Input::Tick);
            if !self.is_running() {
                return;
            }
        }
    }

    // What a frame is to a slave, if anything.
    fn input(&self, c: &Slave, frame: &Frame) -> Option<Input>
        ensures { result ≡ input_of (slave_of c.now) (entry_of self.now.table.entries (slave_of c.now)).stage (content_of frame.now) }
    {
        if let Some(sign) = Sign::read(frame, c.node) {
            return Some(Input::Heard(sign));
        }
        let Stage::Asked { check, .. } = self.table.at(c).stage else {
            return None;
        };
        request_of(c, check).reply(frame).map(Input::Replied)
    }

    // The first of these slaves that is owed something, by its node, and what. A loop: as `find_map` the proof did not close.
    fn first_due(&self, slaves: &[Slave], go: bool) -> Option<(u8, Duty)>
        ensures { result ≡ first_due go self.now.table.entries (map slave_of slaves.now) }
    {
        for c in slaves {
            if let Some(duty) = self.table.at(c).duty(go) {
                return Some((c.node, duty));
            }
        }
        None
    }

    // A change of the entries of all listed slaves.
    fn apply_all(&mut self, sheet: &Sheet, change: Change)
        ensures { state_of sheet.now self.new ≡ with_entries (applied_all change (lines_of sheet.now).slaves self.old.table.entries) (state_of sheet.now self.old) }
    {
        for c in &sheet.slaves {
            self.table.apply(c, change);
        }
    }
}

impl Network {
    fn is_running(&self) -> bool
        ensures { result ≡ is_running (view self.now).phase }
    {
        self.course.is_running()
    }

    pub(crate) fn is_halted(&self) -> bool
        ensures { result ≡ is_halted (view self.now).phase }
    {
        matches!(self.course.phase, Phase::Halted)
    }

    // The sheet that the master was made from.
    pub(crate) fn sheet(&self) -> &Sheet
        ensures { result.now ≡ self.now.roll.sheet }
    {
        &self.roll.sheet
    }

    // How many of the listed slaves have a quality.
    fn count(&self, quality: Quality) -> usize
        ensures { result ≡ counted quality (view self.now) }
    {
        self.course
            .count(self.roll.sheet.slaves.as_slice(), quality)
    }

    // Whether all listed slaves have a quality.
    fn all(&self, quality: Quality) -> bool
        ensures { result ≡ (counted quality (view self.now) == length (listed self.now)) }
    {
        self.count(quality) == self.roll.sheet.slaves.len()
    }

    // Go: as many slaves are cleared as are listed.
    pub(crate) fn go(&self) -> bool
        ensures { result ≡ going (view self.now) }
    {
        self.all(Quality::Cleared)
    }

    pub(crate) fn tick(&mut self)
        ensures { view self.new ≡ ticked (view self.old) }
    {
        self.course.tick(&self.roll.sheet);
    }

    pub(crate) fn result(&self, node: u8) -> Option<Letter>
        ensures { result ≡ result_of node (view self.now) }
    {
        match self.roll.slave(node) {
            Some(c) => self.course.table.at(c).result,
            None => Some(Letter::NotListed),
        }
    }

    // A frame heard; answers whether it was used.
    pub(crate) fn heard(&mut self, frame: &Frame) -> bool
        ensures used { result ≡ (heard_by (content_of frame.now) (view self.old)).0 }
        ensures state { view self.new ≡ (heard_by (content_of frame.now) (view self.old)).1 }
    {
        if !self.is_running() {
            return false;
        }
        let roll = &self.roll;
        let Some(c) = roll.slave(frame.node()) else {
            return false;
        };
        let Some(input) = self.course.input(c, frame) else {
            return false;
        };
        self.course.advance(&roll.sheet, c, input);
        true
    }

    // Whether a single reset goes to this node.
    fn sweeps_to(&self, node: u8) -> bool
        ensures { result ≡ sweeps_to (view self.now) node }
    {
        if node == self.roll.sheet.own {
            return false;
        }
        match self.roll.slave(node) {
            Some(c) => !self.course.has(c, Quality::Spared),
            None => true,
        }
    }

    // The next node after this one that a single reset goes to. A loop: as `map` and `find` the proof did not close.
    fn single_after(&self, passed: u8) -> Option<u8>
        ensures { result ≡ single_after (view self.now) (127 - passed) passed }
    {
        for node in passed..127 {
            if self.sweeps_to(node + 1) {
                return Some(node + 1);
            }
        }
        None
    }

    // The next slave upward after the one last served that is owed something.
    fn next_due(&self) -> Option<(u8, Duty)>
        ensures { result ≡ next_due (view self.now) }
    {
        let slaves = self.roll.sheet.slaves.as_slice();
        // Who is owed nothing even while Go is owed nothing.
        self.course.first_due(slaves, true)?;
        let go = self.go();
        // How many are served is counted, as the definition counts them.
        let (before, behind) = slaves.split_at(self.count(Quality::Served));
        self.course
            .first_due(behind, go)
            .or_else(|| self.course.first_due(before, go))
    }

    // Whether one start serves all.
    fn starts_all(&self) -> bool
        ensures { result ≡ starts_all (view self.now) }
    {
        self.roll.sheet.startall && !self.course.started && self.all(Quality::Passed)
    }

    fn duty_plan(&self) -> Plan
        ensures { result ≡ duty_plan (view self.now) }
    {
        match self.next_due() {
            None => Plan::Nothing,
            Some((node, Duty::Start)) if self.starts_all() => Plan::StartAll { node },
            Some((node, duty)) => Plan::Serve { node, duty },
        }
    }

    fn single_plan(&self, reset: ResetKind, passed: u8) -> Plan
        ensures { result ≡ single_plan (view self.now) reset passed }
    {
        match self.single_after(passed) {
            Some(node) => Plan::ResetOne { reset, node },
            None => self.duty_plan(),
        }
    }

    // What the sweep that is under way puts next; with none, the next duty.
    fn sweep_plan(&self) -> Plan
        ensures { result ≡ sweep_plan (view self.now) (view self.now).sweep }
    {
        match self.course.sweep {
            None => self.duty_plan(),
            Some(Sweep::Begun { reset }) => {
                if self.count(Quality::Spared) > 0 {
                    self.single_plan(reset, 0)
                } else {
                    Plan::ResetAll { reset }
                }
            }
            Some(Sweep::Singles { reset, passed }) => self.single_plan(reset, passed),
        }
    }

    // What a work puts: a due stop, else what the sweep puts, else the next duty.
    pub(crate) fn plan(&self) -> Plan
        ensures { result ≡ planned (view self.now) }
    {
        match self.course.phase {
            Phase::StopDue => Plan::Stop,
            Phase::Running | Phase::Halted => self.sweep_plan(),
        }
    }

    fn duty_frame(&self, node: u8, duty: Duty) -> Option<Frame>
        ensures { option_map content_of result ≡ duty_content (listed self.now) node duty }
    {
        match duty {
            Duty::Reset(reset) => Some(nmt(Command::from(reset), node)),
            Duty::Request(check) => {
                let c = self.roll.slave(node)?;
                Some(request_of(c, check).frame())
            }
            Duty::Start => Some(nmt(Command::Start, node)),
        }
    }

    // The frame that a plan puts.
    pub(crate) fn frame_of(&self, plan: Plan) -> Option<Frame>
        ensures { option_map content_of result ≡ plan_content (listed self.now) plan }
    {
        match plan {
            Plan::Nothing => None,
            Plan::Stop => Some(nmt(Command::Stop, 0)),
            Plan::ResetAll { reset } => Some(nmt(Command::from(reset), 0)),
            Plan::ResetOne { reset, node } => Some(nmt(Command::from(reset), node)),
            Plan::Serve { node, duty } => self.duty_frame(node, duty),
            Plan::StartAll { .. } => Some(nmt(Command::Start, 0)),
        }
    }

    // A change of the entry of a node's slave, if it is listed.
    fn apply_to(&mut self, node: u8, change: Change)
        ensures { view self.new ≡ with_entries (applied_to change (slave_by node (listed self.old)) (view self.old).entries) (view self.old) }
    {
        if let Some(c) = self.roll.slave(node) {
            self.course.table.apply(c, change);
        }
    }

    // A change of the entries of all listed slaves.
    fn apply_all(&mut self, change: Change)
        ensures { view self.new ≡ with_entries (applied_all change (listed self.old) (view self.old).entries) (view self.old) }
    {
        self.course.apply_all(&self.roll.sheet, change);
    }

    // What the master becomes when the plan's frame is put.
    pub(crate) fn carry_out(&mut self, plan: Plan)
        ensures { view self.new ≡ carried_out plan (view self.old) }
    {
        match plan {
            Plan::Nothing => self.course.sweep = None,
            Plan::Stop => self.course.phase = Phase::Halted,
            Plan::ResetAll { .. } => {
                self.apply_all(Change::Reset);
                self.course.sweep = None;
            }
            Plan::ResetOne { reset, node } => {
                self.apply_to(node, Change::Reset);
                self.course.sweep = Some(Sweep::Singles {
                    reset,
                    passed: node,
                });
            }
            Plan::Serve { node, duty } => {
                self.apply_to(node, change_for(self.roll.sheet.wait, duty));
                self.served(node, matches!(duty, Duty::Start));
            }
            Plan::StartAll { node } => {
                self.apply_all(Change::Start);
                self.served(node, true);
            }
        }
    }

    // A slave is served, perhaps by a start, and no sweep is under way.
    fn served(&mut self, node: u8, start: bool)
        ensures { view self.new ≡ served node start (view self.old) }
    {
        self.course.started |= start;
        self.course.last = node;
        self.course.sweep = None;
    }

    // A fresh master's: a sweep 82h is begun, and the keep-alive slaves begin at check 1.
    pub(crate) fn new(sheet: Sheet) -> Network
        ensures { view result ≡ fresh_state (lines_of sheet) }
    {
        let mut network = Network {
            roll: Roll::new(sheet),
            course: Course {
                table: Table::new(),
                sweep: Some(Sweep::Begun {
                    reset: ResetKind::Communication,
                }),
                last: 0,
                started: false,
                clock: 0,
                phase: Phase::Running,
            },
        };
        network.apply_all(Change::Begin);
        network
    }
}
