//! The blocks of constants, moves, labels, jumps and branches: each leads to a native state that stands for Linear's next.
#![tactic(auto)]
