use crate::command_error::CommandError;
use crate::placed_line::PlacedLine;
use crate::sentences::sentence_of;
use c_places::place_of;
use std::fmt;

/// Why a command over a text was not done, as compilers tell editors: a fault of the text by the path of its file, its line, its column, a
/// sentence, the hint that is given, and its number; what has no place as it is ever told.
#[derive(Clone, Copy, Debug)]
pub struct PlacedError<'a> {
    pub path: &'a str,
    pub text: &'a [u8],
    pub fault: CommandError,
    pub hint: &'a str,
}

impl fmt::Display for PlacedError<'_> {
    ghost use Rattle.std.specs.Prelude.{Some};
    ghost use Rattle.cfarm_run.specs.TextLines.{gcc_line};

    ghost output = { λ told. Some (gcc_line told.path.now told.text.now told.fault told.hint.now) };

    fn fmt<W: fmt::Write>(&self, f: &mut fmt::Formatter<W>) -> fmt::Result {
        match self.fault {
            CommandError::Text(fault) => match fault.offset() {
                Some(at) => {
                    let line = PlacedLine {
                        path: self.path,
                        place: place_of(self.text, at),
                        sentence: sentence_of(fault),
                        hint: self.hint,
                        number: fault.number(),
                    };
                    write!(f, "{line}")
                }
                None => write!(f, "memory"),
            },
            CommandError::Run(fault) => {
                let plain = CommandError::Run(fault);
                write!(f, "{plain}")
            }
        }
    }
}
