//! Boxes meet because of their contents: near points, or a point in a polygon.
//!
//! No code runs here: laws over definitions of several crates are proved in seconds and lengthen no
//! chain of crates.
#![tactic(auto)]

pub mod laws;
