//! The trait by which callers print the fields of a row.
ghost use Rattle.std.specs.Prelude.{◌≡◌, ◌<◌, ◌++◌, ℕ, List, [], OnOk, get_or, length, string_bytes};

use std::alloc::AllocError;

/// A way to print rows, field by field.
pub trait FieldPrinter<R> {
    ghost fields: { Self → R → List (List ℕ) };

    /// The number of fields of a row.
    fn count(&self, row: &R) -> usize
        ensures count { result ≡ length (fields self.now row.now) };

    /// Appends the field at this position, counted from 0. After an error `into` may hold part of
    /// the field.
    fn append(&self, row: &R, number: usize, into: &mut String) -> Result<(), AllocError>
        requires there { number < length (fields self.now row.now) }
        ensures appended { OnOk result (string_bytes into.new ≡ string_bytes into.old ++ get_or (fields self.now row.now) number []) };
}
