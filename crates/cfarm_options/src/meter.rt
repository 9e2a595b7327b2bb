//! Where a user sees how far a build is.

use crate::ignored::Ignored;
use crate::note::Note;

/// Where a user sees how far a build is, while it runs. Nothing that is built depends on it.
pub trait Meter {
    /// So many of the nodes, of all of them, have a journal of the first version. The farm opens next.
    fn found(&mut self, old: usize, nodes: usize);

    /// The farm has opened: the journals that were found are migrated.
    fn opened(&mut self);

    /// In so many of all rooms node 0 has learned what the nodes agree on, and so many of the functions it links.
    fn tell(&mut self, agreed: usize, rooms: usize, linked: usize, functions: usize);

    /// Takes away what was shown, before anything else is written.
    fn clear(&mut self);

    /// This file of an offer was not used. It is told at the end of a build, behind `clear`, for each such file. Nothing is shown where
    /// that is not said.
    fn ignored(&mut self, _told: Ignored<'_>) {}

    /// This is to be told of the folder, once the build has ended.
    fn note(&mut self, _told: Note) {}

    /// The build has ended, and its line, if it has one, is told: what was noted is told behind that.
    fn ended(&mut self) {}
}
