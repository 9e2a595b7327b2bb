//! Command lines, and what the program does of each: its status, what it writes and its line on standard error. Tells how
//! many rows are answered as they say.
//!
//! | Question | Answer |
//! |---|---|
//! | `run WORDS < TEXT` | the status, the output and standard error, each in quotes; where a file was put its path, and the same of `exec --limit 1000` on it |
//! | `seen WORDS < TEXT` | the same, where the output and standard error are terminals |
//! | `interrupted WORDS < TEXT` | the same, where a signal interrupts every other write |
//! | `failing WORDS < TEXT` | the bytes of the output and of standard error, where the program answers 4 with a writer that fails at any of them |
//! | `unflushed WORDS < TEXT`, `untold WORDS < TEXT` | the same as `run`, where the output, or standard error, cannot be flushed |
//! | `linked WORDS < TEXT` | the same as `run`, without what the program does that was put |
//! | `coded WORDS < TEXT` | the same as `run`, with the output in hex, `-` where it is empty |
//! | `ends WORDS < TEXT` | the same without the output |
//! | `bundled WORDS < TEXT` | the same as `linked`, with the paths of all files that were put; and where these are a bundle and a program, what `verify` says of them |
//! | `here WORDS`, `shown WORDS` | the same as `run`, and as `seen`, with the files of the machine |
//! | `bytes PATH` | the bytes of a file of the machine, in hex; `none` where none is there |
//! | `twice FOLDER WORDS` | the same, of a build in the folder, and the same of `exec --limit 1000` on its `linked.cfp`; and `same` where a second build answers the same and leaves the same file |
//! | `proved FOLDER WORDS` | the same as `linked`, of a build in the folder, and what `verify` says of its `linked.cfp` and `linked.cfb` |
//! | `settled OUTPUT .. < INPUT` | `agreed`, where `settle` prints one of the outputs |
//! | `near settle < INPUT` | `well`, where on each strict front of the input, and each change of one byte of it, `settle` prints what is settled or refuses the form and prints nothing |
//! | `noise COUNT` | `well` likewise, of so many random inputs |
//!
//! The words have blanks between; `''` is an empty one. The file `f` has the text, for `big` there is no memory, and of the
//! others those can be read that were put. A text that begins with `%` is in hex; in another a number and a text between
//! backquotes stand for so many copies of it. An end of line is shown as `\n`; of a text that goes on behind an
//! empty line only what stands before that is shown, with `..` behind it. In a report `v` is shown for a number of a node, and `H` for the
//! SHA-256 of the file that was put; of a program that was put and is still running, one byte that it writes again and again is shown once.
//!
//! Journals are disks in memory, which are empty in most folders, and files for `fsck`. The folder `missing` has none, `behind` not the new one of node 1, and `barred`
//! not its old one; there is no memory for those in `scarce`. They fail at the first call in `broken`, and after the fourteenth in `worn`. In a folder
//! whose name is `%` and hex digits each old one holds these bytes; behind `&` stand those of each new one; a number and `=` in front mean the disks of
//! that node alone. No file can be put in `full`, and for one in `tight` there is no memory. In `pipe` no path is a plain file's. `twin` is another
//! name of `d/node1.cf2` and holds the text, `other` and `c.new` are other names of `f`.

mod bundled;
mod failing;
mod machine_files;
mod rows;
mod runs;
mod settling;

pub use rows::tell;
