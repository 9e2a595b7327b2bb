//! Native code keeps the meaning of Linear: each step is matched by one step or more, from the first instruction of main on.
#![tactic(auto)]
