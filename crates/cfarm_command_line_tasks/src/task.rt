//! What a command line can ask for.

use cfarm_options::{AskedSizes, BuildOptions, Emitted};

/// How a refused text is told.
#[derive(Clone, Copy)]
pub enum Format {
    /// By number, name and byte offset.
    Plain,
    /// By file, line, column, sentence and hint, as compilers tell editors.
    Gcc,
    /// As one object of JSON.
    Json,
}

/// How a schedule that was played is shown.
#[derive(Clone, Copy)]
pub enum Showing {
    /// A line for each command.
    Lines,
    /// A drawing in SVG.
    Drawing,
}

/// To whom the end of a run is explained.
#[derive(Clone, Copy)]
pub enum Explaining {
    /// To a user who sees standard error.
    Seen,
    /// Wherever standard error goes.
    Always,
}

/// The files beside a text that is verified.
#[derive(Clone, Copy)]
pub struct VerifyPaths<'a> {
    /// The linked program.
    pub program: &'a str,
    /// The offers that were linked.
    pub bundle: &'a str,
    /// The text of its native code, where one is given.
    pub native: Option<&'a str>,
}

/// A written offer that is judged.
#[derive(Clone, Copy)]
pub struct OfferAt<'a> {
    /// The name of the function that it is for.
    pub function: &'a str,
    /// Its file.
    pub path: &'a str,
}

/// The journals that are looked through.
#[derive(Clone, Copy)]
pub struct FsckOptions<'a> {
    /// Of a farm of so many nodes, with such quorums.
    pub sizes: AskedSizes,
    /// The folder that they are in.
    pub folder: &'a str,
}

/// What is written of native code.
#[derive(Clone, Copy)]
pub enum Written {
    /// Its assembly text.
    Assembly,
    /// A header of C for the functions that it exports.
    Header,
}

/// How the native code of a linked program is written.
#[derive(Clone, Copy)]
pub struct NativeOptions<'a> {
    pub written: Written,
    /// The file that it is put in, where one is said; `-` is the output.
    pub output: Option<&'a str>,
    /// The prefix under which C calls its functions, where they are exported.
    pub prefix: Option<&'a str>,
}

/// What is to be done with a file.
#[derive(Clone, Copy)]
pub enum Task<'a> {
    Check(Format),
    /// With so many turns of loops and calls in one another.
    Interpret(u64, Explaining),
    Build(BuildOptions<'a>),
    /// For so many instructions, and with what it is expected to end, where that is said.
    Exec(u64, Option<i32>, Explaining),
    Settle,
    Simulate(Showing),
    Show,
    List,
    Verify(VerifyPaths<'a>),
    /// In this form, by the optimisers with a seed, where one is said.
    Emit(Emitted, Option<u64>),
    Judge(OfferAt<'a>),
    Native(NativeOptions<'a>),
    Fsck(FsckOptions<'a>),
}

/// What a command line asks for.
#[derive(Clone, Copy)]
pub struct Asked<'a> {
    pub task: Task<'a>,
    /// The file that it is about.
    pub path: &'a str,
}
