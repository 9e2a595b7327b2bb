//! How a fault of bytes is told.

ghost use Rattle.std.specs.Prelude.{◌≡◌};
ghost use Rattle.cfarm_output.specs.Lines.{form_name, form_status_of};

use cfarm_shown_paths::ShownPath;
use lang_base::FormError;
use std::fmt;

fn form_name(fault: FormError) -> &'static str
    ensures { result.now ≡ form_name fault }
{
    match fault {
        FormError::NoMemory => "NoMemory",
        FormError::Short => "Short",
        FormError::BadTag => "BadTag",
        FormError::NotCanonical => "NotCanonical",
        FormError::TooLarge => "TooLarge",
    }
}

/// The line of a fault: its number and its name.
#[derive(Clone, Copy, Debug)]
pub struct FormLine(pub FormError);

impl fmt::Display for FormLine {
    ghost use Rattle.std.specs.Prelude.{Some};
    ghost use Rattle.cfarm_output.specs.Lines.{form_line};

    ghost output = { λ line. Some (form_line line.0) };

    fn fmt<W: fmt::Write>(&self, f: &mut fmt::Formatter<W>) -> fmt::Result {
        let number = self.0.number();
        let name = form_name(self.0);
        write!(f, "refused {number} {name}")
    }
}

/// The line of a fault of bytes, with the path of their file.
#[derive(Drop)]
pub struct FormLineIn<'a>(pub FormError, pub &'a str);

impl<'a> fmt::Display for FormLineIn<'a> {
    ghost use Rattle.std.specs.Prelude.{Some};
    ghost use Rattle.cfarm_output.specs.Lines.{form_line_in};

    ghost output = { λ l. Some (form_line_in l.0 l.1.now) };

    fn fmt<W: fmt::Write>(&self, f: &mut fmt::Formatter<W>) -> fmt::Result {
        let path = ShownPath(self.1);
        match self.0 {
            FormError::NoMemory => write!(f, "memory"),
            fault => {
                let line = FormLine(fault);
                write!(f, "{line} in {path}")
            }
        }
    }
}

/// The exit status where bytes are refused.
pub fn form_status(fault: FormError) -> u8
    ensures { result ≡ form_status_of fault }
{
    match fault {
        FormError::NoMemory => 7,
        FormError::Short | FormError::BadTag | FormError::NotCanonical | FormError::TooLarge => 1,
    }
}
