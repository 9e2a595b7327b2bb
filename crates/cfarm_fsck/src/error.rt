use farm_nodes_open_seats::OpenFault;

/// Why a folder is not told.
#[derive(Clone, Copy, Debug, PartialEq, Eq)]
pub enum FsckError {
    /// The fault with which a farm over these journals is refused.
    Disks(OpenFault),
    /// The chosen offers of the function of this number do not go on one from the other: it is never linked. The lines in front of the last were
    /// printed.
    Unchained(usize),
    NoMemory,
    /// The writer failed; it may hold a beginning of the lines.
    Write,
}
