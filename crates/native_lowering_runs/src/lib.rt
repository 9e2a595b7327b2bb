//! What the proof of each block needs: its block is so many steps of native code, the place behind it is the next block's, what is known
//! there is so, and what it writes its frame has saved.
#![tactic(auto)]
