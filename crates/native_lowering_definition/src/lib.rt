//! What the lowering of Linear to native code gives: the frame of a function, what is known before each instruction, and the block of
//! native instructions that each becomes. Definitions alone; the code that makes them, and the proof that they keep the meaning, stand
//! above.
#![tactic(auto)]
