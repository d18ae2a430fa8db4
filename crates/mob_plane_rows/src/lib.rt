//! Tests of moving points in the plane: boxes, the parts of a point inside and outside of boxes and
//! polygons, how near two points come, which pairs do according to their tiles, and where columns
//! of tiles are cut.
#![tactic(auto)]

#[cfg(test)]
mod boxes;
#[cfg(test)]
mod clipped;
#[cfg(test)]
mod pairs;
#[cfg(test)]
mod places;
#[cfg(test)]
mod polygons;
#[cfg(test)]
mod printed;
#[cfg(test)]
mod tiles;
