//! Calls and returns of Linear and what native code does for them: arguments pass, a function begins, its caller goes on with the result.
#![tactic(auto)]
