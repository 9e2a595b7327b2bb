//! A file that a build did not use.

use cfarm_shown_paths::ShownPath;
use std::fmt;

/// A file of an offer that a build did not use, with the number and the name of what is wrong with it. Its text is the line that a user is
/// shown.
#[derive(Clone, Copy, Debug)]
pub struct Ignored<'a> {
    pub path: &'a str,
    pub number: u16,
    pub name: &'a str,
}

impl fmt::Display for Ignored<'_> {
    ghost use Rattle.std.specs.Prelude.{Some};
    ghost use Rattle.cfarm_options.specs.Lines.{ignored_line};

    ghost output = { λ told. Some (ignored_line told) };

    fn fmt<W: fmt::Write>(&self, f: &mut fmt::Formatter<W>) -> fmt::Result {
        let (path, number, name) = (ShownPath(self.path), self.number, self.name);
        write!(f, "ignored {path} {number} {name}")
    }
}
