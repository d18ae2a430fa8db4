//! The nodes of an R-tree over boxes of the plane and of time, in one `Vec`: insertion, search and
//! removal of entries (Guttman 1984).
//!
//! Contracts describe a tree by the contents of its nodes; none depends on how nodes are chosen.
//! `mob_rtree` has the tree itself.
//!
//! It is apart from `mob_rtree` so that three wrong bodies are tried on a small crate.
#![tactic(auto)]

mod build;
mod insert;
mod lengths;
pub mod node;
mod places;
pub mod remove;
mod search;
mod sift;
pub mod whole;
