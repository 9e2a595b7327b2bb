//! Why the system refuses a file, as a user is told.

ghost use Rattle.std.specs.Prelude.{◌≡◌};
ghost use Rattle.cfarm_files.specs.Reasons.{reason_tail};

use std::io;
use std::io::ErrorKind;

/// Why the system refuses a file.
#[derive(Clone, Copy, Debug, PartialEq, Eq)]
pub enum Reason {
    /// That is not said.
    Unsaid,
    /// Nothing is there, or in a folder that is not there.
    Missing,
    Denied,
    /// A folder is there.
    Folder,
    /// Something else than a folder stands for one in the path.
    NoFolder,
    ReadOnly,
    NoSpace,
    TooLarge,
    TooManyOpen,
    TooLong,
    /// A link leads back to itself.
    Loop,
    /// Another process has the lock.
    Held,
    /// Something else than a plain file is there.
    NotPlain,
    /// Another one of the system's.
    Other,
}

/// The numbers of the system for too many open files: of this process, and of all.
const TOO_MANY: i32 = 24;

const TOO_MANY_IN_ALL: i32 = 23;

impl Reason {
    /// That of this fault of the system.
    pub(crate) fn of(fault: &io::Error) -> Reason {
        let number = fault.raw_os_error().unwrap_or(0);
        if number == TOO_MANY || number == TOO_MANY_IN_ALL {
            return Reason::TooManyOpen;
        }
        Reason::of_kind(fault.kind())
    }

    fn of_kind(kind: ErrorKind) -> Reason {
        match kind {
            ErrorKind::NotFound => Reason::Missing,
            ErrorKind::PermissionDenied => Reason::Denied,
            ErrorKind::IsADirectory => Reason::Folder,
            ErrorKind::NotADirectory => Reason::NoFolder,
            ErrorKind::ReadOnlyFilesystem => Reason::ReadOnly,
            ErrorKind::StorageFull | ErrorKind::QuotaExceeded => Reason::NoSpace,
            ErrorKind::FileTooLarge => Reason::TooLarge,
            ErrorKind::InvalidFilename => Reason::TooLong,
            ErrorKind::FilesystemLoop => Reason::Loop,
            ErrorKind::WouldBlock => Reason::Held,
            ErrorKind::AlreadyExists => Reason::NotPlain,
            _ => Reason::Other,
        }
    }

    /// What stands behind the path in the line for a file: nothing where the reason is not said, else the end of that line and one of its own.
    pub fn tail(self) -> &'static str
        ensures { result.now ≡ reason_tail self }
    {
        match self {
            Reason::Unsaid => "",
            Reason::Missing => "\nno such file or folder",
            Reason::Denied => "\npermission denied",
            Reason::Folder => "\nit is a folder",
            Reason::NoFolder => "\na part of the path is no folder",
            Reason::ReadOnly => "\nthe file system is read-only",
            Reason::NoSpace => "\nno space is left",
            Reason::TooLarge => "\nthe file would be too large",
            Reason::TooManyOpen => "\ntoo many files are open",
            Reason::TooLong => "\na name is too long",
            Reason::Loop => "\ntoo many links",
            Reason::Held => "\nanother process holds it",
            Reason::NotPlain => "\nsomething else than a plain file is there",
            Reason::Other => "\nthe system refuses it",
        }
    }
}
