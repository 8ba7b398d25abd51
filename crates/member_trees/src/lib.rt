//! The members of a hierarchy, each kept once, in hierarchical order.
//!
//! Contracts see a tree as the paths of the hierarchy's leaves.
#![tactic(auto)]

mod builder;
mod level;
mod node;
mod queries;
mod rows;
mod tree;

pub use builder::TreeBuilder;
pub use node::Node;
pub use tree::MemberTree;
