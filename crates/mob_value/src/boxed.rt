//! A value behind a pointer.
ghost use Rattle.std.specs.Prelude.{◌≡◌, IfOk};

use std::alloc::{AllocError, Global};
use std::marker::Model;

/// A value in an allocation of its own, so that its holder has the size of a pointer. Contracts see
/// the value itself.
///
/// Large variants of `Value` are boxed, since they would make each cell of a table larger.
#[derive(Drop)]
pub struct Boxed<T> {
    held: Box<T>,
}

impl<T> Model for Boxed<T> {
    ghost Value = { T };

    ghost view = { λ b. b.held.value };
}

impl<T> Boxed<T> {
    /// Moves a value into an allocation of its own. On an error the allocation failed, and the
    /// value is dropped.
    pub fn new(alloc: Global, value: T) -> Result<Boxed<T>, AllocError>
    where
        T: Drop,
        ensures same { IfOk result (λ b. b ≡ value) }
    {
        Ok(Boxed {
            held: Box::new(alloc, value)?,
        })
    }

    /// Borrows the value.
    pub fn get(&self) -> &T
        ensures same { result.now ≡ self.now }
    {
        &*self.held
    }
}
