//! Words in native code: what its operators and conditions make of them is what the machine's table gives, and the tests before a shift
//! and a division tell exactly where that has no answer.
#![tactic(auto)]
