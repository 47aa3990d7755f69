//! What every lowering cites: copied nodes, and what stands for the others.
#![tactic(auto)]
