//! A file that cannot be read, or a path that may not be used.

ghost use Rattle.std.specs.Prelude.{◌≡◌, ◌≤◌, [], false};
ghost use Rattle.cfarm_files.specs.declared.fault.FileFault.TheVariants.{Refused};
ghost use Rattle.cfarm_files.specs.declared.reason.Reason.TheVariants.{Unsaid};
ghost use Rattle.cfarm_program_status.specs.Telling.{IsExplained, IsToldAs};
ghost use Rattle.cfarm_program_status.specs.Reading.{unread};

use crate::telling::{tell, tell_among, tell_no_memory};
use cfarm_files::{FileFault, Reason};
use cfarm_output::ErrorLines;
use cfarm_shown_paths::ShownPath;
use std::fmt;

/// The status for a file that cannot be read.
const UNREADABLE: u8 = 2;

/// What is shown where a build may not use a path.
const BARRED: &str =
    "a build may not use that path: it is a file of the build's, no plain file can be put there, or no folder of offers is there\n";

/// The line for a file that cannot be read, for this reason.
#[derive(Drop)]
struct Unread<'a>(&'a str, Reason);

impl fmt::Display for Unread<'_> {
    ghost use Rattle.std.specs.Prelude.{Some};
    ghost use Rattle.cfarm_files.specs.Reasons.{file_line};

    ghost output = { λ file. Some (file_line file.0.now file.1) };

    fn fmt<W: fmt::Write>(&self, f: &mut fmt::Formatter<W>) -> fmt::Result {
        let (path, tail) = (ShownPath(self.0), self.1.tail());
        write!(f, "file {path}{tail}")
    }
}

/// Tells why the file of this path is not read, and gives the status.
pub fn tell_unread<E: ErrorLines>(err: &mut E, path: &str, fault: FileFault) -> u8
    ensures told { IsToldAs (unread path.now fault) result (E.contents err.old) (E.contents err.new) }
    ensures table { result ≤ 7 }
{
    match fault {
        FileFault::NoMemory => tell_no_memory(err),
        FileFault::Refused(reason) => tell(err, Unread(path, reason), UNREADABLE),
    }
}

/// What is shown of a path that may not be used.
fn of_barred(is_seen: bool) -> &'static str
    ensures { is_seen ≡ false → result.now ≡ [] }
{
    if is_seen { BARRED } else { "" }
}

/// Tells that a build may not use this path, and gives the status. Where a user sees the line it is explained.
pub fn tell_barred<E: ErrorLines>(err: &mut E, is_seen: bool, path: &str) -> u8
    ensures told { IsExplained is_seen (unread path.now (Refused Unsaid)) result (E.contents err.old) (E.contents err.new) }
    ensures table { result ≤ 7 }
{
    let behind = of_barred(is_seen);
    tell_among(err, false, Unread(path, Reason::Unsaid), UNREADABLE, behind)
}
