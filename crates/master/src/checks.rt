// The checks of a slave's try: what each asks, what an answer means, and what follows.
ghost use Rattle.std.specs.Prelude.{◌≡◌, if◌then◌else◌, ◌==◌};
ghost use Rattle.sheet.specs.Views.{set_of, slave_of};
ghost use Rattle.master.specs.Checks.{size_by, read_of, write_of, request_of, unanswered as unansweredBy, same as sameBy, valued as valuedBy, verdict_of, from_control, from_set, from_state, following as followingOf};

use crate::types::{Check, Letter, Next};
use frames::sdo::{Access, Reply, Request, Size};
use sheet::{Set, Slave};

// A function and no `From`: neither type is this crate's.
fn size_of_set(set: &Set) -> Size
    ensures { result ≡ size_by set.now.size }
{
    match set.size {
        1 => Size::One,
        2 => Size::Two,
        3 => Size::Three,
        _ => Size::Four,
    }
}

fn write_of(node: u8, set: &Set) -> Request
    ensures { result ≡ write_of node (set_of set.now) }
{
    let size = size_of_set(set);
    Request {
        node,
        index: set.index,
        sub: set.sub,
        access: Access::Write(size, set.value),
    }
}

fn read_of(node: u8, index: u16, sub: u8) -> Request
    ensures { result ≡ read_of node index sub }
{
    Request {
        node,
        index,
        sub,
        access: Access::Read,
    }
}

// The request of the set at a place; past the last, one that nothing puts, since the definition has a request for every place.
fn set_request(c: &Slave, place: usize) -> Request
    ensures { result ≡ request_of (slave_of c.now) (Check.Set place) }
{
    let none = Set {
        index: 0,
        sub: 0,
        size: 1,
        value: 0,
    };
    write_of(c.node, c.sets.as_slice().get(place).unwrap_or(&none))
}

pub(crate) fn request_of(c: &Slave, check: Check) -> Request
    ensures { result ≡ request_of (slave_of c.now) check }
{
    match check {
        Check::Kind => read_of(c.node, 0x1000, 0),
        Check::Vendor => read_of(c.node, 0x1018, 1),
        Check::Product => read_of(c.node, 0x1018, 2),
        Check::Revision => read_of(c.node, 0x1018, 3),
        Check::Serial => read_of(c.node, 0x1018, 4),
        Check::Set(place) => set_request(c, place),
    }
}

// The letter of a check that nothing or an abort answers.
pub(crate) fn unanswered(check: Check) -> Letter
    ensures { result ≡ unansweredBy check }
{
    match check {
        Check::Kind => Letter::NoAnswer,
        Check::Vendor => Letter::OtherVendor,
        Check::Product => Letter::OtherProduct,
        Check::Revision => Letter::OtherRevision,
        Check::Serial => Letter::OtherSerial,
        Check::Set(_) => Letter::NotSet,
    }
}

fn same(value: u32, wanted: u32, letter: Letter) -> Result<(), Letter>
    ensures { result ≡ sameBy value wanted letter }
{
    if value == wanted { Ok(()) } else { Err(letter) }
}

fn valued(c: &Slave, check: Check, value: u32) -> Result<(), Letter>
    ensures { result ≡ valuedBy (slave_of c.now) check value }
{
    match check {
        Check::Kind if c.kind == 0 => Ok(()),
        Check::Kind => same(value, c.kind, Letter::OtherType),
        Check::Vendor => same(value, c.vendor, Letter::OtherVendor),
        Check::Product => same(value, c.product, Letter::OtherProduct),
        Check::Revision => same(value, c.revision, Letter::OtherRevision),
        Check::Serial => same(value, c.serial, Letter::OtherSerial),
        Check::Set(_) => Ok(()),
    }
}

// What an answer that fits the check's request means: the check is met, or missed with a letter.
pub(crate) fn verdict(c: &Slave, check: Check, reply: Reply) -> Result<(), Letter>
    ensures { result ≡ verdict_of (slave_of c.now) check reply }
{
    match reply {
        Reply::Abort => Err(unanswered(check)),
        Reply::Written => Ok(()),
        Reply::Value(value) => valued(c, check, value),
    }
}

fn from_control(c: &Slave) -> Next
    ensures { result ≡ from_control (slave_of c.now) }
{
    if c.hb == 0 {
        Next::Pass
    } else {
        Next::ListenControl
    }
}

fn from_set(c: &Slave, place: usize) -> Next
    ensures { result ≡ from_set (slave_of c.now) place }
{
    if place < c.sets.as_slice().len() {
        Next::Ask(Check::Set(place))
    } else {
        from_control(c)
    }
}

fn from_state(c: &Slave, booted: bool) -> Next
    ensures { result ≡ from_state (slave_of c.now) booted }
{
    if c.keep && !booted {
        Next::ListenState
    } else {
        from_set(c, 0)
    }
}

// A check of the identity applies where the sheet has another value than 0; else the rest follows.
fn ask_or(wanted: u32, check: Check, rest: Next) -> Next
    ensures { result ≡ (if wanted == 0 then rest else Next.Ask check) }
{
    if wanted == 0 { rest } else { Next::Ask(check) }
}

// What follows a check that is met: the next one that applies to the slave.
pub(crate) fn following(c: &Slave, booted: bool, check: Check) -> Next
    ensures { result ≡ followingOf (slave_of c.now) booted check }
{
    let state = from_state(c, booted);
    let serial = ask_or(c.serial, Check::Serial, state);
    let revision = ask_or(c.revision, Check::Revision, serial);
    let product = ask_or(c.product, Check::Product, revision);
    match check {
        Check::Kind => ask_or(c.vendor, Check::Vendor, product),
        Check::Vendor => product,
        Check::Product => revision,
        Check::Revision => serial,
        Check::Serial => state,
        Check::Set(place) => from_set(c, place.saturating_add(1)),
    }
}
