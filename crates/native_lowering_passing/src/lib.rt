//! How arguments pass: from a caller's locations to registers and to the first cells of its frame, and from there to the callee's.
#![tactic(auto)]
