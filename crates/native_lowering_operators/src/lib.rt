//! The blocks of operators on words: each leaves what the machine's table gives.
#![tactic(auto)]
