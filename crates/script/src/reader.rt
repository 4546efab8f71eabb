// The lines of a session's text, and what each asks for.
ghost use Rattle.std.specs.Prelude.{◌≡◌, ◌<◌, length};
ghost use Rattle.std.specs.Option.{option_map};
ghost use Rattle.sheet.specs.Pairs.{pair_of};
ghost use Rattle.script.specs.Sessions.{number_in, byte_in, parts, frame_in, key_in, under_key, line_in, first_line};
ghost use Rattle.script.specs.Views.{line_of};

use crate::lines::{Data, Key, Line};
use sheet::{cut, number};

// The text's first line without its end, and the text after it. The last line may lack its end.
pub fn next_line(text: &[u8]) -> (&[u8], &[u8])
    ensures value { pair_of result ≡ first_line text.now }
    ensures shorter { 0 < length text.now → length result.1.now < length text.now }
{
    cut(text, b'\n').unwrap_or((text, &[]))
}

fn decimal(digits: &[u8]) -> Option<u32>
    ensures { result ≡ number_in digits.now }
{
    number(digits, 1).ok()
}

fn byte(digits: &[u8]) -> Option<u8>
    ensures { result ≡ byte_in digits.now }
{
    u8::try_from(decimal(digits)?).ok()
}

// An identifier, and behind it bytes, with a comma between each two.
fn heard(value: &[u8]) -> Option<Line>
    ensures { option_map line_of result ≡ frame_in (parts value.now) }
{
    let mut parts = value.split(|b| *b == b',');
    let id = decimal(parts.next()?)?;
    let mut data = Data::new(0);
    for part in parts {
        data.push(byte(part)?);
    }
    Some(Line::Heard { id, data })
}

fn key(name: &[u8]) -> Option<Key>
    ensures { result ≡ key_in name.now }
{
    match name {
        b"heard" => Some(Key::Heard),
        b"work" => Some(Key::Work),
        b"take" => Some(Key::Take),
        b"tick" => Some(Key::Tick),
        _ => None,
    }
}

// What a key asks for with its value.
fn under_key(key: Key, value: &[u8]) -> Option<Line>
    ensures { option_map line_of result ≡ under_key key value.now }
{
    match key {
        Key::Heard => heard(value),
        Key::Work => Some(Line::Work(decimal(value)?)),
        Key::Take => Some(Line::Take(decimal(value)?)),
        Key::Tick => Some(Line::Tick(decimal(value)?)),
    }
}

// What a line asks for; a line that asks for nothing is skipped.
pub fn read_line(line: &[u8]) -> Option<Line>
    ensures { option_map line_of result ≡ line_in line.now }
{
    let (name, value) = cut(line, b'=')?;
    under_key(key(name)?, value)
}
