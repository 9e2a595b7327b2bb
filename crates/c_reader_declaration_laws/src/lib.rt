//! How declarations are read, as functions on lists of tokens, and what ties them to the grammar (C99 6.7
//! and 6.9). Definitions and laws alone.
#![tactic(auto)]
