//! What a step of Linear may be, case by case; and that words keep to 32 bits and globals to the cells that are declared.
#![tactic(auto)]
