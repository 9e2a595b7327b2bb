ghost use Rattle.std.specs.Prelude.{◌≡◌};
ghost use Rattle.cfarm_run.specs.TextStatuses.{status_of_end, status_of_shown, status_where};

use lang_base::Shown;
use std::fmt;

/// The exit status of the program after a run.
pub fn status_of(shown: Shown) -> u8
    ensures { result ≡ status_of_shown shown }
{
    match shown {
        Shown::Ended(_) => 0,
        Shown::Wrong => 5,
        Shown::Running => 6,
    }
}

/// The exit status of the program after a run that is to end with this word.
fn status_of_end(shown: Shown, wanted: u32) -> u8
    ensures { result ≡ status_of_end shown wanted }
{
    match shown {
        Shown::Ended(result) => { if result == wanted { 0 } else { 5 } }
        Shown::Wrong | Shown::Running => 5,
    }
}

/// The exit status of the program after a run, which is to end with a result where one is given.
pub fn status_where(shown: Shown, expected: Option<i32>) -> u8
    ensures { result ≡ status_where shown expected }
{
    match expected {
        Some(wanted) => status_of_end(shown, wanted.cast_unsigned()),
        None => status_of(shown),
    }
}

/// The line that closes a run: `ended` and the result in signed decimal, `wrong` or `running`.
#[derive(Clone, Copy, Debug, PartialEq, Eq)]
pub struct Closing(pub Shown);

impl fmt::Display for Closing {
    ghost use Rattle.std.specs.Prelude.{Some};
    ghost use Rattle.cfarm_run.specs.Closings.{closing_line};

    ghost output = { λ c. Some (closing_line c.0) };

    fn fmt<W: fmt::Write>(&self, f: &mut fmt::Formatter<W>) -> fmt::Result {
        match self.0 {
            Shown::Ended(result) => {
                let signed = result.cast_signed();
                write!(f, "ended {signed}")
            }
            Shown::Wrong => write!(f, "wrong"),
            Shown::Running => write!(f, "running"),
        }
    }
}
