//! Laws of walks over temporal values. No code runs here.

use crate::walks::{Common, Ones, Pieces};
use mob_list::laws::crosses_threads;
use mob_slice::Course;
use std::marker::{Send, Sync};

/// Walks may cross threads if the courses of their values may.
pub fn walks_cross_threads<'a, C: Course + Send + Sync + 'a>()
where
    C::Base: Send + Sync + 'a,
{
    crosses_threads::<Common<'a, C, C>>();
    crosses_threads::<Ones<'a, C>>();
    crosses_threads::<Pieces<'a, C, C>>();
}
