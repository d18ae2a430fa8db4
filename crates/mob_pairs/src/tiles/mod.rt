//! The list of tiles that rows reach, each with its rows, made column by column.
mod columns;
mod grouping;
pub mod places;
pub mod tiling;
mod visits;
