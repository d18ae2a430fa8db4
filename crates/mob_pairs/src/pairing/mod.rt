//! Pairs that are tested tile by tile and returned in the order of their rows.
pub mod index;
pub mod near;
mod shares;
mod sorting;
mod walk;
