ghost use Rattle.std.specs.Prelude.{IfSome, IsNone, option_copied};
ghost use Rattle.cfarm_program.specs.Met.{IsUnwritten};
ghost use Rattle.cfarm_program_native.specs.Chosen.{MayWrite};

use cfarm_command_line_tasks::Written;
use cfarm_options::AskedSizes;
use cfarm_program_native::{lacks_prefix, wrong_prefix};
use std::fmt;

/// What is wrong with a task, which is told before its file is read. Its text is the line that a user is shown.
#[derive(Clone, Copy)]
pub(crate) enum Mistake<'a> {
    /// Quorums of these sizes need not meet.
    Quorums(AskedSizes),
    /// This prefix is no C name.
    Prefix(&'a str),
    /// A header is asked for, and no prefix is said.
    Unexported,
}

impl fmt::Display for Mistake<'_> {
    ghost use Rattle.std.specs.Prelude.{Some};
    ghost use Rattle.cfarm_program.specs.Met.{mistake_line};

    ghost output = { λ mistake. Some (mistake_line mistake) };

    fn fmt<W: fmt::Write>(&self, f: &mut fmt::Formatter<W>) -> fmt::Result {
        match self {
            Mistake::Quorums(sizes) => write!(f, "{sizes}"),
            Mistake::Prefix(prefix) => write!(f, "prefix {prefix}"),
            Mistake::Unexported => write!(f, "header without --export"),
        }
    }
}

/// What is wrong with how native code is to be written, under this prefix where there is one.
pub(crate) fn unwritten<'a>(written: Written, prefix: Option<&'a str>) -> Option<Mistake<'a>>
    ensures some { IfSome result (IsUnwritten written (option_copied prefix.entry)) }
    ensures none { IsNone result → MayWrite written (option_copied prefix.entry) }
{
    if lacks_prefix(written, prefix) {
        return Some(Mistake::Unexported);
    }
    match wrong_prefix(prefix) {
        Some(prefix) => Some(Mistake::Prefix(prefix)),
        None => None,
    }
}
