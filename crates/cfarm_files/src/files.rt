//! What the program does with files.

ghost use Rattle.std.specs.Prelude.{◌≡◌, ℕ, Bool, List, Option, None, Result, IfOk};
ghost use Rattle.cfarm_files.specs.declared.fault.FileFault.{FileFault};
ghost use Rattle.cfarm_files.specs.Reading.{IsFileRead, IsFileReadIfThere, IsKnownSo};
ghost use Rattle.cfarm_files.specs.Placing.{Placed, GivesNoMore, KeepsFolder, Makes, PlacesWhole};
ghost use Rattle.cfarm_files.specs.Using.{DiskUse, Closes, Opens, UsesNone};
ghost use Rattle.cfarm_files.specs.Locking.{CoversFolder, lock_path};

use crate::fault::{DiskFault, FileFault};
use durable_pair::Pair;

/// Where files are read and written.
pub trait Files {
    /// The pair of disks of a node, over its two files.
    type Disk: Pair + Drop + Send;

    /// The lock of a folder, which is held until it is dropped.
    type Lock: Drop;

    /// What the file of a path is read as, where that is known.
    ghost known: { Self → List ℕ → Option (Result (List ℕ) FileFault) } = { λ _ _. None };

    /// Whether something of a path is there, where that is known.
    ghost there: { Self → List ℕ → Option Bool } = { λ _ _. None };

    /// Whether two paths lead to one file, where that is known.
    ghost same: { Self → List ℕ → List ℕ → Option Bool } = { λ _ _ _. None };

    /// Whether a file may be put at a path, where that is known: nothing is there, or a plain file.
    ghost free: { Self → List ℕ → Option Bool } = { λ _ _. None };

    /// Whether a path leads to something, where that is known.
    ghost found: { Self → List ℕ → Option Bool } = { λ _ _. None };

    /// The leave to take a lock. No call gives it back: whoever has it once takes one lock.
    ghost may_lock: { Self → Type 0 } = { λ _. Unit {0} };

    /// The disks that may be given for the path of the new file and that of the old one.
    ghost may_give: { Self → List ℕ → List ℕ → Self.Disk → Type 0 } = { λ _ _ _ _. Unit {0} };

    /// The paths that a lock covers.
    ghost covers: { Self.Lock → List ℕ → Type 0 } = { λ _ _. Unit {0} };

    /// What the file of a path is read as by whoever has the lock, where that is known.
    ghost held: { Self.Lock → List ℕ → Option (Result (List ℕ) FileFault) } = { λ _ _. None };

    /// Whether something of a path is there, as long as the lock is had, where that is known.
    ghost held_there: { Self.Lock → List ℕ → Option Bool } = { λ _ _. None };

    /// What was made or put so far, in order, where that is known.
    ghost placed: { Self → Option (List Placed) } = { λ _. None };

    /// What was done with disks so far, in order, where that is known.
    ghost used: { Self → Option (List (DiskUse Self.Disk)) } = { λ _. None };

    /// The bytes of the file of this path.
    fn read(&self, path: &str) -> Result<Vec<u8>, FileFault>
        ensures { IsFileRead (known self.now path.now) result };

    /// The same, or none where nothing of this path is there. What is there and is not read is refused, as a link to nothing is, and so is what
    /// leads to no plain file: a pipe is not waited for, and a device not read.
    fn read_if_there(&self, path: &str) -> Result<Option<Vec<u8>>, FileFault>
        ensures { IsFileReadIfThere (known self.now path.now) (there self.now path.now) result };

    /// The same of a file of a folder whose lock is held.
    fn read_under(&self, lock: &Self::Lock, path: &str) -> Result<Option<Vec<u8>>, FileFault>
        requires { covers lock.now path.now }
        ensures { IsFileReadIfThere (held lock.now path.now) (held_there lock.now path.now) result };

    /// Whether both paths lead to one file, by its device and number, whatever its names are. A path that leads to nothing, or to what may not
    /// be looked at, leads to no file.
    fn is_same(&self, path: &str, other: &str) -> bool
        ensures { IsKnownSo (same self.now path.now other.now) result };

    /// Whether a file may be put at this path: nothing is there, or a plain file. A link is neither, wherever it leads.
    fn is_free(&self, path: &str) -> bool
        ensures { IsKnownSo (free self.now path.now) result };

    /// Whether this path leads to something, where a link is followed: a file, a folder, or what may not be looked at.
    fn is_found(&self, path: &str) -> bool
        ensures { IsKnownSo (found self.now path.now) result };

    /// The lock of this folder, which is that of the file of this path in it; the file is made, empty, where there is none, and
    /// stays. Refused, and not waited for, where somebody has the lock, and where the path leads to something else than a plain file.
    fn lock(&mut self, folder: &str, path: &str) -> Result<Self::Lock, FileFault>
        requires leave { may_lock self.now }
        requires path { path.now ≡ lock_path folder.now }
        ensures covers { IfOk result (λ lock. CoversFolder (covers lock) folder.now) }
        ensures made { Makes (placed self.old) (placed self.new) (λ made. made ≡ path.now) }
        ensures unused { UsesNone (used self.old) (used self.new) }
        ensures others { GivesNoMore (may_give self.old) (may_give self.new) };

    /// The disks over these two files, first the old one: where that is not there it is empty, and it is never made. The new
    /// one is made, empty, where there is none. No folder is made. The folder's lock is held. What is opened is to be closed.
    fn disk(
        &mut self,
        lock: &Self::Lock,
        path: &str,
        old_path: &str,
    ) -> Result<Self::Disk, DiskFault>
        requires locked { covers lock.now path.now }
        requires old_locked { covers lock.now old_path.now }
        ensures given { IfOk result (may_give self.old path.now old_path.now) }
        ensures made { Makes (placed self.old) (placed self.new) (λ made. made ≡ path.now) }
        ensures opens { Opens (used self.old) (used self.new) path.now old_path.now result }
        ensures others { GivesNoMore (may_give self.old) (may_give self.new) };

    /// Takes back the disks that were given for these two files. Nothing is written to them: what stands there stays. The folder's
    /// lock is held still.
    fn close(&mut self, lock: &Self::Lock, path: &str, old_path: &str, disk: Self::Disk)
        requires locked { covers lock.now path.now }
        requires old_locked { covers lock.now old_path.now }
        ensures closes { Closes (used self.old) (used self.new) path.now old_path.now disk }
        ensures kept { KeepsFolder (placed self.old) (placed self.new) }
        ensures others { GivesNoMore (may_give self.old) (may_give self.new) };

    /// Whether the old file of a pair that was given holds a journal that counts. Nothing that is built depends on it.
    fn counts_old(&self, disk: &Self::Disk) -> bool;

    /// Puts these bytes in the place of the file of this path, whole: a crash at any moment leaves the old file or the new one, and so
    /// does a refusal. It is refused where something else than a plain file is there. The folder's lock is held.
    fn put(&mut self, lock: &Self::Lock, path: &str, bytes: &[u8]) -> Result<(), FileFault>
        requires { covers lock.now path.now }
        ensures whole { PlacesWhole (placed self.old) (placed self.new) path.now bytes.now result }
        ensures unused { UsesNone (used self.old) (used self.new) };

    /// The same for a path that no lock has to cover: a file of the caller's own choice. Who puts there last is seen.
    fn put_at(&mut self, path: &str, bytes: &[u8]) -> Result<(), FileFault>
        ensures whole { PlacesWhole (placed self.old) (placed self.new) path.now bytes.now result }
        ensures unused { UsesNone (used self.old) (used self.new) };
}
