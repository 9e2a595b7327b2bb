use crate::reason::Reason;

/// Why a file is not read, opened or written.
#[derive(Clone, Copy, Debug, PartialEq, Eq)]
pub enum FileFault {
    /// There was no memory for its bytes.
    NoMemory,
    /// The system refuses it: there is no such file or folder, it may not be used so, or its device failed.
    Refused(Reason),
}

/// Why the disks of a node are not opened: which of its two files is refused.
#[derive(Clone, Copy, Debug, PartialEq, Eq)]
pub enum DiskFault {
    /// There was no memory for the bytes of a file.
    NoMemory,
    /// The system refuses the old file, which is there. The new one was not touched.
    Old(Reason),
    /// The system refuses the new file.
    New(Reason),
}
