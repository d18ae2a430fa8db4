//! The endings of a run.
ghost use Rattle.std.specs.Prelude.{◌≡◌};
ghost use Rattle.mob_trips.specs.Endings.{EndsAt};

use mob_ast::Kind;
use mob_list::fault::Fault;
use mob_slice::Formula;
use mob_tuples::Tuple;

/// How a run over a table of trips ended. Each ending has a status, and each but `Done` a line for
/// the notes.
#[derive(Drop)]
pub enum TripsEnding {
    /// Status 0: the table was read and accepted, and the text for it was written whole.
    Done,
    /// Status 2: the arguments are not accepted.
    Usage,
    /// Status 3: the table could not be read.
    ReadFault,
    /// Status 4: the text could not be written.
    WriteFault,
    /// Status 5: out of memory.
    NoMemory,
    /// Status 6: the table is refused.
    TableRefused {
        /// The kind of refusal.
        kind: Kind,
        /// The number of the record, from 1; 0 for the file as a whole.
        rec: u32,
        /// The number of the field, from 1; 0 for the record as a whole.
        field: u32,
    },
    /// Status 6: rows exceed a limit of the program.
    RowsRefused {
        /// The numbers of the rows, from 0.
        rows: Tuple,
    },
    /// Status 8: a part of a formula does not fit.
    Overflow {
        /// The numbers of the rows, from 0.
        rows: Tuple,
        /// The formula.
        formula: Formula,
    },
}

impl TripsEnding {
    ghost use Rattle.mob_trips.specs.Lines.{trips_status};

    /// The exit status of the program.
    pub fn status(&self) -> u8
        ensures number { result ≡ trips_status self.now }
    {
        match self {
            TripsEnding::Done => 0,
            TripsEnding::Usage => 2,
            TripsEnding::ReadFault => 3,
            TripsEnding::WriteFault => 4,
            TripsEnding::NoMemory => 5,
            TripsEnding::TableRefused { .. } => 6,
            TripsEnding::RowsRefused { .. } => 6,
            TripsEnding::Overflow { .. } => 8,
        }
    }
}

/// The ending for a fault of a row: `Overflow` of the row with its formula, or `NoMemory`.
pub fn ending_of(fault: Fault<(u32, Formula)>) -> TripsEnding
    ensures ending { EndsAt fault result }
{
    match fault {
        Fault::Because((row, formula)) => TripsEnding::Overflow {
            rows: Tuple::new().with(row),
            formula,
        },
        Fault::NoMemory => TripsEnding::NoMemory,
    }
}
