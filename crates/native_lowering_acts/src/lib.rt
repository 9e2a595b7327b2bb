//! Each instruction of Linear that goes on to the next leads to a native state that stands for that.
#![tactic(auto)]
