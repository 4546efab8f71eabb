// How a run prints its lines.
ghost use Rattle.std.specs.Prelude.{◌≡◌, Some, codes};

use std::error::Error;
use std::fmt;
use std::str::FromStr;

#[derive(Clone, Copy, Debug, PartialEq, Eq)]
pub enum Style {
    Plain,
    // each line with a note for the fitter behind it
    Explained,
}

// A word that names no style.
#[derive(Clone, Copy, Debug, PartialEq, Eq)]
pub struct UnknownStyle;

impl FromStr for Style {
    type Err = UnknownStyle;

    ghost use Rattle.script.specs.Styles.{style_in};

    ghost from_str_gives = { λ word r. r ≡ style_in word };

    fn from_str(word: &str) -> Result<Style, UnknownStyle> {
        match word {
            "plain" => Ok(Style::Plain),
            "explained" => Ok(Style::Explained),
            _ => Err(UnknownStyle),
        }
    }
}

impl fmt::Display for UnknownStyle {
    ghost output = { λ _. Some (codes "a style is plain or explained") };

    fn fmt<W: fmt::Write>(&self, f: &mut fmt::Formatter<W>) -> fmt::Result {
        f.write_str("a style is plain or explained")
    }
}

impl Error for UnknownStyle {}
