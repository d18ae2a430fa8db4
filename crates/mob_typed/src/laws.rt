//! A law of typed scripts: they cross threads. No code runs here.

use crate::typed::{Agg, ConstText, TExpr, Typed, TypedSelect, TypedStatement};
use mob_list::laws::crosses_threads;

/// Typed scripts and their parts cross threads.
pub fn typed_scripts_cross_threads() {
    crosses_threads::<Typed>();
    crosses_threads::<TypedStatement>();
    crosses_threads::<TypedSelect>();
    crosses_threads::<TExpr>();
    crosses_threads::<ConstText>();
    crosses_threads::<Agg>();
}
