//! How a word of the command line is printed.

ghost use Rattle.std.specs.Fmt.{DisplaysOnOk};
ghost use Rattle.std.specs.Prelude.{Some};
ghost use Rattle.front_end.specs.ShownText.{escaped, shown_text};

use std::fmt;

/// A file's name, or another word, as it is printed for people. Each byte of a control character, which a terminal
/// would obey, becomes `\x` and two hexadecimal digits; all else stays as it is.
#[derive(Clone, Copy, Debug, PartialEq, Eq)]
pub struct Shown<'a>(pub &'a str);

impl fmt::Display for Shown<'_> {
    ghost output = { λ shown. Some (shown_text shown.0.now) };

    fn fmt<W: fmt::Write>(&self, f: &mut fmt::Formatter<W>) -> fmt::Result {
        write_shown(f, self.0)
    }
}

/// Writes `text` as it is printed for people.
fn write_shown<W: fmt::Write>(f: &mut fmt::Formatter<W>, text: &str) -> fmt::Result
    ensures { DisplaysOnOk W.write_str_gives f.old result (Some (shown_text text.now)) f.new }
{
    for c in text.chars() {
        if c.is_control() {
            escape(f, c)?;
        } else {
            f.write_char(c)?;
        }
    }
    Ok(())
}

/// Writes each byte of `c` as `\x` and two hexadecimal digits.
fn escape<W: fmt::Write>(f: &mut fmt::Formatter<W>, c: char) -> fmt::Result
    ensures { DisplaysOnOk W.write_str_gives f.old result (Some (escaped c)) f.new }
{
    for byte in c.encode_utf8(&mut [0; 4]).as_bytes() {
        write!(f, "\\x{byte:02x}")?;
    }
    Ok(())
}
