// A slice, cut in two.
ghost use Rattle.std.specs.Prelude.{◌≡◌};
ghost use Rattle.std.specs.Option.{option_map};
ghost use Rattle.sheet.specs.Lines.{cut_at};
ghost use Rattle.sheet.specs.Pairs.{pair_of};

// What stands before the first `b`, and what after it; none if there is no `b`.
pub fn cut(s: &[u8], b: u8) -> Option<(&[u8], &[u8])>
    ensures { option_map pair_of result ≡ cut_at b s.now }
{
    let i = s.iter().position(|x| *x == b)?;
    Some((&s[..i], &s[i + 1..]))
}
