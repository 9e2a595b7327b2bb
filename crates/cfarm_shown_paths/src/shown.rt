ghost use Rattle.std.specs.Prelude.{◌≡◌, ◌%◌};
ghost use Rattle.std.specs.Char.{digit_char};
ghost use Rattle.std.specs.Fmt.{WritesOnOk};
ghost use Rattle.cfarm_shown_paths.specs.Shown.{shown_char};

use std::fmt;

/// A path, whose text is what a user is shown of it.
#[derive(Clone, Copy, Debug)]
pub struct ShownPath<'a>(pub &'a str);

/// A control character, whose text is its code.
#[derive(Clone, Copy, Debug)]
struct Code(char);

/// The last hexadecimal digit of a number.
fn digit(number: u32) -> char
    ensures { result ≡ digit_char (number % 16) }
{
    match char::from_digit(number % 16, 16) {
        Some(digit) => digit,
        None => unreachable!(),
    }
}

impl fmt::Display for Code {
    ghost use Rattle.std.specs.Prelude.{Some};
    ghost use Rattle.cfarm_shown_paths.specs.Shown.{escaped};

    ghost output = { λ code. Some (escaped code.0) };

    fn fmt<W: fmt::Write>(&self, f: &mut fmt::Formatter<W>) -> fmt::Result {
        let code = self.0 as u32;
        let (high, low) = (digit(code / 16), digit(code));
        write!(f, "\\x{high}{low}")
    }
}

/// Writes a character, or its code where it is a control character.
fn write_shown<W: fmt::Write>(c: char, f: &mut fmt::Formatter<W>) -> fmt::Result
    ensures { WritesOnOk W.write_str_gives f.old result (shown_char c) f.new }
{
    if c.is_control() {
        let code = Code(c);
        return write!(f, "{code}");
    }
    f.write_char(c)
}

impl fmt::Display for ShownPath<'_> {
    ghost use Rattle.std.specs.Prelude.{Some};
    ghost use Rattle.cfarm_shown_paths.specs.Shown.{shown_path};

    ghost output = { λ path. Some (shown_path path.0.now) };

    fn fmt<W: fmt::Write>(&self, f: &mut fmt::Formatter<W>) -> fmt::Result {
        for c in self.0.chars() {
            write_shown(c, f)?;
        }
        Ok(())
    }
}
