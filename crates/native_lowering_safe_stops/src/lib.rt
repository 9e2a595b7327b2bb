//! Where Linear goes wrong and native code stops: a test before a shift, a division or an index tells; a label, a global or a function is missing; or the code ends.
#![tactic(auto)]
