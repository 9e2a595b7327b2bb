//! Lines for a user, as on standard error.

ghost use Rattle.std.specs.Prelude.{◌≡◌, false, IfSome, OnOk, OnErr};
ghost use Rattle.std.specs.Fmt.{with_newline};
ghost use Rattle.cfarm_output.specs.Errors.{ErrorsHeld, HasFailed, Tells};

use std::fmt;
use std::io::Write;

/// A write or a flush failed.
#[derive(Clone, Copy, Debug, PartialEq, Eq)]
pub struct Unwritten;

/// Where a user is told lines, each of which is flushed.
pub trait ErrorLines {
    /// What it holds, and whether it has failed.
    ghost contents: { Self → ErrorsHeld };

    /// Writes the text.
    fn text<D: fmt::Display + Drop>(&mut self, text: D) -> Result<(), Unwritten>
        ensures written { OnOk result (IfSome (D.output text) (Tells (contents self.old) (contents self.new))) }
        ensures failed { OnErr result (HasFailed (contents self.new)) };

    /// Writes the text and an end of line.
    fn line<D: fmt::Display + Drop>(&mut self, text: D) -> Result<(), Unwritten>
        ensures written { OnOk result (IfSome (with_newline (D.output text))
            (Tells (contents self.old) (contents self.new))) }
        ensures failed { OnErr result (HasFailed (contents self.new)) };
}

/// The lines of a writer.
#[derive(Drop)]
pub struct ErrorWriter<W> {
    writer: W,
    has_failed: bool,
}

impl<W: Write> ErrorWriter<W> {
    /// Lines of this writer, which has not failed.
    pub fn over(writer: W) -> ErrorWriter<W>
        ensures writer { result.writer ≡ writer }
        ensures fresh { result.has_failed ≡ false }
    {
        ErrorWriter {
            writer,
            has_failed: false,
        }
    }

    /// The writer.
    pub fn into_writer(self) -> W
        ensures { result ≡ self.writer }
    {
        self.writer
    }
}

impl<W: Write> ErrorLines for ErrorWriter<W> {
    ghost use Rattle.std.specs.Prelude.{◌≡◌, IfSome, OnOk, OnErr};
    ghost use Rattle.std.specs.Fmt.{with_newline};
    ghost use Rattle.cfarm_output.specs.Errors.{ErrorsHeld, HasFailed, Tells};

    ghost contents = { λ lines. record { bytes = W.contents lines.writer; has_failed = lines.has_failed } };

    fn text<D: fmt::Display + Drop>(&mut self, text: D) -> Result<(), Unwritten> {
        let Ok(()) = self.writer.write_fmt(text) else {
            self.has_failed = true;
            return Err(Unwritten);
        };
        let Ok(()) = self.writer.flush() else {
            self.has_failed = true;
            return Err(Unwritten);
        };
        Ok(())
    }

    fn line<D: fmt::Display + Drop>(&mut self, text: D) -> Result<(), Unwritten> {
        let Ok(()) = self.writer.writeln(text) else {
            self.has_failed = true;
            return Err(Unwritten);
        };
        let Ok(()) = self.writer.flush() else {
            self.has_failed = true;
            return Err(Unwritten);
        };
        Ok(())
    }
}
