// What a line of a log says.
ghost use Rattle.std.specs.Prelude.{◌≡◌, ◌≤◌};
ghost use Rattle.std.specs.Option.{option_map};
ghost use Rattle.frames.specs.Contents.{content_of};
ghost use Rattle.candump.specs.Logs.{without, words_in, stamp_in, identifier_in, framed, content_in, line_in, interface_in};
ghost use Rattle.candump.specs.Trials.{LineTrials};
ghost use Rattle.candump.specs.Views.{held, words_of, entry_of};

use crate::entry::{Entry, Words};
use crate::number::number;
use frames::frame::Frame;
use script::cut;
use sheet::Few;

// A line may end in a carriage return.
fn trimmed(line: &[u8]) -> &[u8]
    ensures { result.now ≡ without 13 line.now }
{
    line.strip_suffix(b"\r").unwrap_or(line)
}

fn words(line: &[u8]) -> Option<Words<'_>>
    ensures { option_map words_of result ≡ words_in line.now }
{
    let (stamp, rest) = cut(line.strip_prefix(b"(")?, b')')?;
    let (interface, message) = cut(rest.strip_prefix(b" ")?, b' ')?;
    if interface.is_empty() {
        return None;
    }
    Some(Words {
        stamp,
        interface,
        message,
    })
}

// Seconds, a point and six digits of microseconds.
fn stamp(text: &[u8]) -> Option<u64>
    ensures { result ≡ stamp_in text.now }
{
    let (seconds, micros) = cut(text, b'.')?;
    if micros.len() != 6 {
        return None;
    }
    Some(number(10, seconds)? * 1_000_000 + number(10, micros)?)
}

// A base identifier has three digits; one of eight digits is an extended one.
fn identifier(text: &[u8]) -> Option<u32>
    ensures { result ≡ identifier_in text.now }
{
    if text.len() != 3 {
        return None;
    }
    let id = u32::try_from(number(16, text)?).ok()?;
    (id <= 2047).then_some(id)
}

// A frame with an identifier and bytes of two digits each, at most eight of them.
fn frame_with(id: u32, text: &[u8]) -> Option<Frame>
    requires { id ≤ 2047 }
    ensures { option_map content_of result ≡ framed id text.now }
{
    if text.len() > 16 {
        return None;
    }
    let mut bytes = Few::<u8, 8>::new(0);
    // A pattern and no `chunks_exact`: what is left at the end, an odd digit, ends the same walk.
    let mut rest = text;
    while let [high, low, more @ ..] = rest {
        bytes.push(number(16, &[*high, *low])? as u8);
        rest = more;
    }
    if !rest.is_empty() {
        return None;
    }
    Frame::new(id, bytes.as_slice()).ok()
}

fn frame(message: &[u8]) -> Option<Frame>
    ensures { option_map content_of result ≡ content_in message.now }
{
    let (id, text) = cut(message, b'#')?;
    frame_with(identifier(id)?, text)
}

// The frame that a line says; a line that says none of this network is skipped.
pub fn read_line(line: &[u8]) -> Option<Entry>
    ensures value { option_map entry_of result ≡ line_in line.now }
    ensures trials { LineTrials }
{
    let words = words(trimmed(line))?;
    let micros = stamp(words.stamp)?;
    let frame = frame(words.message)?;
    Some(Entry { micros, frame })
}

// The interface that a line names, if it has the words of a frame.
pub fn interface(line: &[u8]) -> Option<&[u8]>
    ensures { option_map held result ≡ interface_in line.now }
{
    Some(words(trimmed(line))?.interface)
}
