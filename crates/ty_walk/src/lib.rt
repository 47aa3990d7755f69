//! What holds of each node of a tree, of a class, of a program; sums over the nodes of a tree; and whether two trees,
//! classes or programs are equal.
#![tactic(auto)]

mod equal_classes;
mod equal_trees;
mod measure;
mod rule;
mod totals;
mod walking;

pub use equal_classes::{same_class, same_classes, same_program, same_tree};
pub use measure::Measure;
pub use rule::Rule;
pub use totals::{nodes, summing, total};
pub use walking::{holds_everywhere, holds_in_class, holds_in_program};
