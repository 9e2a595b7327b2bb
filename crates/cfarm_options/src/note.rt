//! What a user is told of a build's folder.

use std::fmt;

/// What a user is told of a build's folder, beside what the build comes to. Its text is the line.
#[derive(Clone, Copy, Debug, PartialEq, Eq)]
pub enum Note {
    /// The node of this number has no journal, and others have records.
    Lost(usize),
    /// So many journals of the first version, of all nodes', were migrated, and nothing is built.
    Migrated(usize, usize),
}

impl fmt::Display for Note {
    ghost use Rattle.std.specs.Prelude.{Some};
    ghost use Rattle.cfarm_options.specs.Lines.{note_line};

    ghost output = { λ note. Some (note_line note) };

    fn fmt<W: fmt::Write>(&self, f: &mut fmt::Formatter<W>) -> fmt::Result {
        match *self {
            Note::Lost(node) => write!(
                f,
                "node {node} has no journal, others have: what it had voted is not known"
            ),
            Note::Migrated(old, nodes) => write!(
                f,
                "migrated {old} of {nodes} journals, though nothing is built"
            ),
        }
    }
}
