//! What a farm is over.

use cfarm_files::Files;
use rooms_hall::Naming;

/// What a farm is over, for clauses to name at once, as `⟦<F as Farm<H>>⟧`: the files of `F` with the disks that they give, and the
/// rooms of the hall that `H` names.
pub trait Farm<H> {
    /// The pair of disks of a node.
    type Disk;

    /// The lock of a folder.
    type Lock;

    ghost use Rattle.durable_model.specs.declared.disk.Disk as disks_of;
    ghost use Rattle.durable_pair.specs.declared.pair.Pair as pairs_of;
    ghost use Rattle.rooms_hall.specs.declared.hall.Naming as naming;
    ghost use Rattle.cfarm_files.specs.declared.files.Files as filing;

    /// What the files say of themselves.
    ghost files: { filing.Ghosts Self Self.Disk Self.Lock };

    /// What the disks say of themselves, each pair as one disk.
    ghost disks: { disks_of.Ghosts Self.Disk };

    /// And as a pair.
    ghost pairs: { pairs_of.Ghosts Self.Disk };

    /// Which hall gives the rooms their numbers.
    ghost rooms: { naming.Ghosts H };
}

impl<F: Files, H: Naming> Farm<H> for F {
    type Disk = F::Disk;

    type Lock = F::Lock;

    ghost files = { F.Files };

    ghost disks = { F.Disk.Disk };

    ghost pairs = { F.Disk.Pair.own };

    ghost rooms = { H.Naming };
}
