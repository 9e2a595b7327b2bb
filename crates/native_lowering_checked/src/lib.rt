//! The blocks of shifts and divisions, which are tested where their second word is not known: each leaves what the machine's table gives.
#![tactic(auto)]
