//! The result of loading: a program, or why there is none.
ghost use Rattle.std.specs.Prelude.{◌≡◌};

use mob_ast::{Kind, Refusal};
use mob_list::items::Items;
use mob_list::text::Text;
use mob_value::{Rows, Value};
use std::alloc::{AllocError, AllocFailed};

/// What a script reads before it runs.
#[derive(Drop)]
pub struct Program {
    /// The values of its literals, in written order.
    pub values: Items<Value>,
    /// The rows of the files of its COPY statements, in written order.
    pub files: Items<Rows<Value>>,
}

/// Why a script is not loaded.
#[derive(Drop)]
pub enum LoadEnd {
    /// A literal has no value, or a row of an INSERT exceeds the limit of its table.
    Refused(Refusal),
    /// A file is refused.
    TableRefused {
        /// The name of the file.
        file: Text,
        /// Why.
        kind: Kind,
        /// The number of the record, from 1; 0 for the file as a whole.
        rec: u32,
        /// The number of the field, from 1; 0 for the record as a whole.
        field: u32,
    },
    /// A file does not exist, or reading it failed. The files' count of faults rose.
    ReadFault {
        /// The name of the file.
        file: Text,
    },
    /// An allocation failed.
    NoMemory,
}

impl From<AllocError> for LoadEnd {
    ghost use Rattle.std.specs.Prelude.{◌≡◌};
    ghost use Rattle.mob_load.specs.declared.program.LoadEnd.TheVariants.{NoMemory};

    ghost from_gives = { λ _ e. e ≡ NoMemory };

    fn from(_: AllocError) -> LoadEnd {
        LoadEnd::NoMemory
    }
}

impl<T: Drop> From<AllocFailed<T>> for LoadEnd {
    ghost use Rattle.std.specs.Prelude.{◌≡◌};
    ghost use Rattle.mob_load.specs.declared.program.LoadEnd.TheVariants.{NoMemory};

    ghost from_gives = { λ _ e. e ≡ NoMemory };

    fn from(_: AllocFailed<T>) -> LoadEnd {
        LoadEnd::NoMemory
    }
}
