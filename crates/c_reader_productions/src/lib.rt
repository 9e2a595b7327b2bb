//! How readings are put together in the order of the grammar's productions, the readings of the parts of
//! statements, and what ties them to the grammar. Definitions and laws alone.
#![tactic(auto)]
