//! The command `build`: from the words of the command line and a C text to the files of a folder. The text is made ready, the journals in
//! the folder are opened as disks, the farm opens, its nodes take their turns, round after round, neighbours meet, and node 0 links what it
//! has learned; the disks are closed, the program's bytes are put, and a report is written.
#![tactic(auto)]

mod building;
mod compiling;
mod farm;
mod host;
mod text_building;

pub use building::build;
pub use cfarm_build_folder::of_build;
pub use cfarm_build_turns::Built;
pub use farm::Farm;
pub use host::Host;
pub use text_building::build_text;
