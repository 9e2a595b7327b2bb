//! The written form of Cminor's statements: which bytes spell a tree, how bytes are read, and the readers and
//! writers. What is read is spelled so, and each spelling is read again.
#![tactic(auto)]
