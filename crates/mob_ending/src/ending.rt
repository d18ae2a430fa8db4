//! The endings of a run.
ghost use Rattle.std.specs.Prelude.{◌≡◌};

use mob_ast::{Kind, Refusal};
use mob_list::text::Text;
use mob_slice::Formula;
use mob_tuples::Tuple;

/// How a run ended. Each ending has a status, and each but `Done` a line for the notes.
#[derive(Drop)]
pub enum Ending {
    /// Status 0: the script was read and accepted, and all its answers were written.
    Done,
    /// Status 2: the arguments are not accepted.
    Usage,
    /// Status 3: the script could not be read, or a table file of this name.
    ReadFault {
        /// The name of the file; none for the script.
        file: Option<Text>,
    },
    /// Status 4: the answers could not be written.
    WriteFault,
    /// Status 5: an allocation failed.
    NoMemory,
    /// Status 6: a table file is refused.
    TableRefused {
        /// The name of the file.
        file: Text,
        /// The kind of refusal.
        kind: Kind,
        /// The number of the record, from 1; 0 for the file as a whole.
        rec: u32,
        /// The number of the field, from 1; 0 for the record as a whole.
        field: u32,
    },
    /// Status 7: the script is refused, at this place.
    ScriptRefused {
        /// The kind and the place of the refusal.
        refusal: Refusal,
    },
    /// Status 8: a part of a formula does not fit.
    Overflow {
        /// The number of the statement, from 1.
        statement: u32,
        /// The number of the row of each table of FROM, from 0.
        rows: Tuple,
        /// The place of the operator in the script, in bytes from 0.
        place: u32,
        /// The formula.
        formula: Formula,
    },
}

impl Ending {
    ghost use Rattle.mob_ending.specs.Lines.{status_of};

    /// The exit status of the program.
    pub fn status(&self) -> u8
        ensures number { result ≡ status_of self.now }
    {
        match self {
            Ending::Done => 0,
            Ending::Usage => 2,
            Ending::ReadFault { .. } => 3,
            Ending::WriteFault => 4,
            Ending::NoMemory => 5,
            Ending::TableRefused { .. } => 6,
            Ending::ScriptRefused { .. } => 7,
            Ending::Overflow { .. } => 8,
        }
    }
}
