// A sheet read from its text, line by line.
ghost use Rattle.std.specs.Prelude.{◌≡◌, ℕ, ◌+◌, ◌-◌, ◌^◌, ◌≤◌, Bool, false, ◌&&◌, length, IfOk, vec_len, vec_capacity, OnOk, ◌==◌};
ghost use Rattle.sheet.specs.Codec.{many};
ghost use Rattle.sheet.specs.Cursors.{ReadAs};
ghost use Rattle.sheet.specs.Few.{few_items};
ghost use Rattle.sheet.specs.Format.{ranged, flag, word, header_c, set_c, node_c, hb_c, sets_c, slave_c, after, to_sheet};
ghost use Rattle.sheet.specs.Rules.{Exact};
ghost use Rattle.sheet.specs.Sheets.{header_of, lines_of, empty_lines, Filled, Parsed};
ghost use Rattle.sheet.specs.Views.{set_of, sets_of, slave_of, slaves_of, before_of};

use crate::before::Before;
use crate::cursor::Cursor;
use crate::faults::Fault;
use crate::keys::Key;
use crate::model::set::Set;
use crate::model::sets::Sets;
use crate::model::sheet::Sheet;
use crate::model::slave::Slave;
use std::alloc::{AllocError, Global};

// The lines before the slaves. A sheet's fields are its callers' to read, so it holds no header: it takes these when all of its
// lines are read.
#[derive(Clone, Copy)]
struct Header {
    own: u8,
    wait: u16,
    boottime: u32,
    inhibit: u16,
    startall: bool,
    resetall: bool,
    stopall: bool,
}

const EMPTY: Header = Header {
    own: 1,
    wait: 1000,
    boottime: 0,
    inhibit: 0,
    startall: false,
    resetall: false,
    stopall: false,
};

// The largest value of `size` bytes.
fn largest(size: u8) -> u32
    requires { (1 ≤ size) × (size ≤ 4) }
    ensures { result ≡ 256 ^ size - 1 }
{
    match size {
        1 => 0xff,
        2 => 0xffff,
        3 => 0xff_ffff,
        _ => 0xffff_ffff,
    }
}

impl Cursor<'_> {
    // The number of the line that is due, within low to high.
    fn field(&mut self, key: Key, low: u32, high: u32) -> Result<u32, Fault>
        ensures reads { ReadAs (λ (n : ℕ). n) (ranged key low high) self.old result self.new }
        ensures bound { IfOk result (λ n. (low ≤ n) × (n ≤ high)) }
    {
        let line = self.line();
        let n = self.number(key)?;
        if !(low..=high).contains(&n) {
            return Err(Fault::Range {
                line,
                key,
                low,
                high,
            });
        }
        Ok(n)
    }

    fn flag(&mut self, key: Key) -> Result<bool, Fault>
        ensures { ReadAs (λ (b : Bool). b) (flag key) self.old result self.new }
    {
        let n = self.field(key, 0, 1)?;
        Ok(n == 1)
    }

    // Any number of four bytes.
    fn word(&mut self, key: Key) -> Result<u32, Fault>
        ensures { ReadAs (λ (n : ℕ). n) (word key) self.old result self.new }
    {
        self.field(key, 0, u32::MAX)
    }

    fn header(&mut self) -> Result<Header, Fault>
        ensures { ReadAs header_of header_c self.old result self.new }
    {
        Ok(Header {
            own: self.field(Key::Own, 1, 127)? as u8,
            wait: self.field(Key::Wait, 1, 60000)? as u16,
            boottime: self.word(Key::Boottime)?,
            inhibit: self.field(Key::Inhibit, 0, 65535)? as u16,
            startall: self.flag(Key::Startall)?,
            resetall: self.flag(Key::Resetall)?,
            stopall: self.flag(Key::Stopall)?,
        })
    }

    fn set(&mut self) -> Result<Set, Fault>
        ensures { ReadAs set_of set_c self.old result self.new }
    {
        let index = self.field(Key::Index, 0, 65535)? as u16;
        let sub = self.field(Key::Sub, 0, 255)? as u8;
        let size = self.field(Key::Size, 1, 4)? as u8;
        let value = self.field(Key::Value, 0, largest(size))?;
        Ok(Set {
            index,
            sub,
            size,
            value,
        })
    }

    fn sets(&mut self, n: usize) -> Result<Sets, Fault>
        requires { n ≤ 32 }
        ensures len { IfOk result (λ s. length (few_items s) ≡ n) }
        ensures reads { ReadAs sets_of (many (λ (_ : Unit {0}). set_c) (λ u _. u) tt n) self.old result self.new }
    {
        let mut sets = Sets::new(Set {
            index: 0,
            sub: 0,
            size: 1,
            value: 0,
        });
        for _ in 0..n {
            sets.push(self.set()?);
        }
        Ok(sets)
    }

    // The node is other than own, and above that of the slave before.
    fn node(&mut self, before: Before) -> Result<u8, Fault>
        ensures reads { ReadAs (λ (n : ℕ). n) (node_c before.own before.last) self.old result self.new }
        ensures bound { IfOk result (λ n. (1 ≤ n) × (n ≤ 127)) }
    {
        let line = self.line();
        let node = self.field(Key::Node, 1, 127)? as u8;
        if node == before.own || node <= before.last {
            return Err(Fault::Order { line });
        }
        Ok(node)
    }

    // A keep-alive slave has a heartbeat.
    fn hb(&mut self, keep: bool) -> Result<u16, Fault>
        ensures reads { ReadAs (λ (n : ℕ). n) (hb_c keep) self.old result self.new }
        ensures bound { IfOk result (λ n. (keep && n == 0) ≡ false) }
    {
        let line = self.line();
        let hb = self.field(Key::Hb, 0, 65535)? as u16;
        if keep && hb == 0 {
            return Err(Fault::Silent { line });
        }
        Ok(hb)
    }

    // How many sets the slave has.
    fn count(&mut self, before: Before) -> Result<usize, Fault>
        ensures reads { ReadAs (λ (n : ℕ). n) (sets_c before.sofar) self.old result self.new }
        ensures bound { IfOk result (λ n. (n ≤ 32) × (before.sofar + n ≤ 256)) }
    {
        let line = self.line();
        let n = self.field(Key::Sets, 0, 32)? as usize;
        if before.sofar + n > 256 {
            return Err(Fault::TooManySets { line });
        }
        Ok(n)
    }

    fn slave(&mut self, before: Before) -> Result<Slave, Fault>
        ensures bound { IfOk result (λ s. before.sofar + length (few_items s.sets) ≤ 256) }
        ensures reads { ReadAs slave_of (slave_c (before_of before)) self.old result self.new }
    {
        let node = self.node(before)?;
        let mandatory = self.flag(Key::Mandatory)?;
        let keep = self.flag(Key::Keep)?;
        let kind = self.word(Key::Kind)?;
        let vendor = self.word(Key::Vendor)?;
        let product = self.word(Key::Product)?;
        let revision = self.word(Key::Revision)?;
        let serial = self.word(Key::Serial)?;
        let hb = self.hb(keep)?;
        let count = self.count(before)?;
        let sets = self.sets(count)?;
        Ok(Slave {
            node,
            mandatory,
            keep,
            kind,
            vendor,
            product,
            revision,
            serial,
            hb,
            sets,
        })
    }

    // The slaves, into memory that has room for them. The room is a clause here and no type of its own, since a sheet's slaves
    // are a `Vec` for its callers.
    fn slaves(&mut self, own: u8, n: u32, slaves: &mut Vec<Slave>) -> Result<(), Fault>
        requires { n ≤ vec_capacity slaves.old }
        ensures room { vec_capacity slaves.new ≡ vec_capacity slaves.old }
        ensures len { OnOk result (vec_len slaves.new ≡ n) }
        ensures reads { ReadAs (λ (_ : Unit {0}). slaves_of slaves.new) (many slave_c after (own, (0, 0)) n) self.old result self.new }
    {
        slaves.clear();
        let mut before = Before::first(own);
        for _ in 0..n {
            let slave = self.slave(before)?;
            before = before.after(&slave);
            slaves.push_reserved(slave);
        }
        Ok(())
    }
}

// All lines of the text: the slaves into their memory, the others as the answer.
fn read_lines(text: &[u8], slaves: &mut Vec<Slave>) -> Result<Header, Fault>
    requires { 126 ≤ vec_capacity slaves.old }
    ensures room { vec_capacity slaves.new ≡ vec_capacity slaves.old }
    ensures len { OnOk result (vec_len slaves.new ≤ 126) }
    ensures reads { Parsed text.now (slaves_of slaves.new) result }
{
    let mut cur = Cursor::new(text);
    let header = cur.header()?;
    let n = cur.field(Key::Slaves, 0, 126)?;
    cur.slaves(header.own, n, slaves)?;
    if !cur.at_end() {
        return Err(Fault::After { line: cur.line() });
    }
    Ok(header)
}

// The same; where the text is refused, the lines of the empty sheet, and the first fault.
fn read_or_empty(text: &[u8], slaves: &mut Vec<Slave>) -> (Header, Result<(), Fault>)
    requires { 126 ≤ vec_capacity slaves.old }
    ensures room { vec_capacity slaves.new ≡ vec_capacity slaves.old }
    ensures len { vec_len slaves.new ≤ 126 }
    ensures filled { Filled text.now (to_sheet (header_of result.0, slaves_of slaves.new)) result.1 }
{
    match read_lines(text, slaves) {
        Ok(header) => (header, Ok(())),
        Err(fault) => {
            slaves.clear();
            (EMPTY, Err(fault))
        }
    }
}

impl Sheet {
    // The empty sheet, with memory for the largest: own 1, wait 1000, and zeros.
    pub fn empty(heap: Global) -> Result<Sheet, AllocError>
        ensures { IfOk result (λ s. lines_of s ≡ empty_lines) }
    {
        let slaves = Vec::with_capacity(heap, 126)?;
        Ok(Sheet {
            own: EMPTY.own,
            wait: EMPTY.wait,
            boottime: EMPTY.boottime,
            inhibit: EMPTY.inhibit,
            startall: EMPTY.startall,
            resetall: EMPTY.resetall,
            stopall: EMPTY.stopall,
            slaves,
        })
    }

    // Becomes the sheet that the text says; else the empty sheet, and the first fault is the answer.
    pub fn read(&mut self, text: &[u8]) -> Result<(), Fault>
        ensures filled { Filled text.now (lines_of self.new) result }
        ensures exact { Exact text.now (lines_of self.new) result }
    {
        let (header, answer) = read_or_empty(text, &mut self.slaves);
        self.own = header.own;
        self.wait = header.wait;
        self.boottime = header.boottime;
        self.inhibit = header.inhibit;
        self.startall = header.startall;
        self.resetall = header.resetall;
        self.stopall = header.stopall;
        answer
    }
}
