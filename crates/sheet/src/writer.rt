// A sheet's text, written into a slice. Bytes past the slice's end are counted and not written, so that the same
// code on an empty slice gives the length.
ghost use Rattle.std.specs.Prelude.{◌≡◌, ◌+◌, ◌^◌, ◌<◌, ◌≤◌, length, if◌then◌else◌, decimal};
ghost use Rattle.sheet.specs.Format.{set_c, slave_text, text};
ghost use Rattle.sheet.specs.Lines.{line_text};
ghost use Rattle.sheet.specs.Rules.{Lasting};
ghost use Rattle.sheet.specs.Sheets.{lines_of};
ghost use Rattle.sheet.specs.Views.{set_of, slave_of};
ghost use Rattle.sheet.specs.Writes.{Adds, Wrote, Written};

use crate::faults::TooShort;
use crate::keys::Key;
use crate::model::set::Set;
use crate::model::sheet::Sheet;
use crate::model::slave::Slave;

// How much longer a call can make the text differs from call to call, so the bounds are clauses and no invariant.
#[derive(Drop)]
struct Writer<'a> {
    out: &'a mut [u8],
    // how long the text is so far
    len: usize,
}

impl Writer<'_> {
    fn put(&mut self, bytes: &[u8])
        requires { self.old.len + length bytes.now < 2 ^ 40 }
        ensures { Adds self.old bytes.now self.new }
    {
        // By index: a copy into a range would first have to be cut to what fits, and of what is written through `iter_mut` or
        // `get_mut` a proof knows the length alone.
        for b in bytes {
            if self.len < self.out.len() {
                self.out[self.len] = *b;
            }
            self.len += 1;
        }
    }

    fn number(&mut self, n: u32)
        requires { self.old.len < 2 ^ 39 }
        ensures adds { Adds self.old (decimal n) self.new }
        ensures bound { self.new.len ≤ self.old.len + 10 }
    {
        if n >= 10 {
            self.number(n / 10);
        }
        self.put(&[b'0' + (n % 10) as u8]);
    }

    fn line(&mut self, key: Key, n: u32)
        requires { self.old.len < 2 ^ 38 }
        ensures adds { Adds self.old (line_text key n) self.new }
        ensures bound { self.new.len ≤ self.old.len + 21 }
    {
        self.put(key.name().as_bytes());
        self.put(b"=");
        self.number(n);
        self.put(b"\n");
    }

    fn flag(&mut self, key: Key, b: bool)
        requires { self.old.len < 2 ^ 38 }
        ensures adds { Adds self.old (line_text key (if b then 1 else 0)) self.new }
        ensures bound { self.new.len ≤ self.old.len + 21 }
    {
        self.line(key, u32::from(b));
    }

    fn set(&mut self, set: &Set)
        requires { self.old.len < 2 ^ 37 }
        ensures adds { Adds self.old (set_c.write (set_of set.now)) self.new }
        ensures bound { self.new.len ≤ self.old.len + 84 }
    {
        self.line(Key::Index, u32::from(set.index));
        self.line(Key::Sub, u32::from(set.sub));
        self.line(Key::Size, u32::from(set.size));
        self.line(Key::Value, set.value);
    }

    fn slave(&mut self, slave: &Slave)
        requires { self.old.len < 2 ^ 35 }
        ensures adds { Adds self.old (slave_text (slave_of slave.now)) self.new }
        ensures bound { self.new.len ≤ self.old.len + 3000 }
    {
        let sets = slave.sets.as_slice();
        self.line(Key::Node, u32::from(slave.node));
        self.flag(Key::Mandatory, slave.mandatory);
        self.flag(Key::Keep, slave.keep);
        self.line(Key::Kind, slave.kind);
        self.line(Key::Vendor, slave.vendor);
        self.line(Key::Product, slave.product);
        self.line(Key::Revision, slave.revision);
        self.line(Key::Serial, slave.serial);
        self.line(Key::Hb, u32::from(slave.hb));
        self.line(Key::Sets, sets.len() as u32);
        for set in sets {
            self.set(set);
        }
    }

    fn sheet(&mut self, sheet: &Sheet)
        requires { self.old.len < 2 ^ 30 }
        ensures { Adds self.old (text (lines_of sheet.now)) self.new }
    {
        self.line(Key::Own, u32::from(sheet.own));
        self.line(Key::Wait, u32::from(sheet.wait));
        self.line(Key::Boottime, sheet.boottime);
        self.line(Key::Inhibit, u32::from(sheet.inhibit));
        self.flag(Key::Startall, sheet.startall);
        self.flag(Key::Resetall, sheet.resetall);
        self.flag(Key::Stopall, sheet.stopall);
        self.line(Key::Slaves, sheet.slaves.len() as u32);
        for slave in &sheet.slaves {
            self.slave(slave);
        }
    }
}

// Writes the sheet's text as far as `out` goes, and answers the text's length.
fn written(sheet: &Sheet, out: &mut [u8]) -> usize
    ensures { Wrote out.old 0 (text (lines_of sheet.now)) out.new result }
{
    let mut writer = Writer { out, len: 0 };
    writer.sheet(sheet);
    writer.len
}

impl Sheet {
    // Writes the text into `out` and answers its length; where `out` is shorter, it is left as found.
    pub fn write(&self, out: &mut [u8]) -> Result<usize, TooShort>
        ensures written { Written (text (lines_of self.now)) out.old out.new result }
        ensures lasting { Lasting (lines_of self.now) }
    {
        let needed = written(self, &mut []);
        if out.len() < needed {
            return Err(TooShort { needed });
        }
        Ok(written(self, out))
    }
}
