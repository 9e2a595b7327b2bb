//! Where the blocks of the lowering stand: each instruction of a block at the block's place and on, and each label where its block is.
#![tactic(auto)]
