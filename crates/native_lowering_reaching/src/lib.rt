//! The blocks that read and write cells of globals, and that print.
#![tactic(auto)]
