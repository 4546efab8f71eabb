// The keys of a sheet's lines.
ghost use Rattle.std.specs.Prelude.{◌≡◌, Some};
ghost use Rattle.sheet.specs.Keys.{name_of};

use std::fmt;

#[derive(Clone, Copy, Debug, PartialEq, Eq)]
pub enum Key {
    Own,
    Wait,
    Boottime,
    Inhibit,
    Startall,
    Resetall,
    Stopall,
    Slaves,
    Node,
    Mandatory,
    Keep,
    Kind,
    Vendor,
    Product,
    Revision,
    Serial,
    Hb,
    Sets,
    Index,
    Sub,
    Size,
    Value,
}

impl Key {
    // What stands before the '=' of its line.
    pub fn name(self) -> &'static str
        ensures { result.now ≡ name_of self }
    {
        match self {
            Key::Own => "own",
            Key::Wait => "wait",
            Key::Boottime => "boottime",
            Key::Inhibit => "inhibit",
            Key::Startall => "startall",
            Key::Resetall => "resetall",
            Key::Stopall => "stopall",
            Key::Slaves => "slaves",
            Key::Node => "node",
            Key::Mandatory => "mandatory",
            Key::Keep => "keep",
            Key::Kind => "type",
            Key::Vendor => "vendor",
            Key::Product => "product",
            Key::Revision => "revision",
            Key::Serial => "serial",
            Key::Hb => "hb",
            Key::Sets => "sets",
            Key::Index => "index",
            Key::Sub => "sub",
            Key::Size => "size",
            Key::Value => "value",
        }
    }
}

impl fmt::Display for Key {
    ghost output = { λ k. Some (name_of k) };

    fn fmt<W: fmt::Write>(&self, f: &mut fmt::Formatter<W>) -> fmt::Result {
        f.write_str(self.name())
    }
}
