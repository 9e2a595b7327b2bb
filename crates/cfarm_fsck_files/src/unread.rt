use cfarm_files::Reason;

/// Why the files of a folder's journals are not read.
#[derive(Debug, Drop)]
pub(crate) enum Unread {
    NoMemory,
    /// The system refuses the file of this path, which is there, for this reason.
    File(String, Reason),
}
