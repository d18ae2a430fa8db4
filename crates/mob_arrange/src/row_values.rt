//! The values of a row.
ghost use Rattle.std.specs.Prelude.{◌≡◌, IfOk};
ghost use Rattle.mob_arrange.specs.RowValues.{row_value};

use mob_value::{Boxed, Value};
use std::alloc::{AllocError, Global};

/// A value of a row: a stored one, or a made one on the heap, so that a row of stored values is
/// small.
#[derive(Drop)]
pub enum RowValue<'a> {
    /// A stored value.
    Stored(&'a Value),
    /// A made value.
    Made(Boxed<Value>),
}

impl<'a> RowValue<'a> {
    /// A made value on the heap. The only error is a failed allocation.
    pub fn made(alloc: Global, value: Value) -> Result<RowValue<'a>, AllocError>
        ensures value { IfOk result (λ v. row_value v ≡ value) }
    {
        Ok(RowValue::Made(Boxed::new(alloc, value)?))
    }

    /// The value.
    pub fn get(&self) -> &Value
        ensures value { result.now ≡ row_value self.now }
    {
        match self {
            RowValue::Stored(value) => value,
            RowValue::Made(value) => value.get(),
        }
    }
}
