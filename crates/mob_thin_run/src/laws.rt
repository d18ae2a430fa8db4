//! Laws of every file that is written. No code runs here.
ghost use Rattle.mob_thin_run.specs.TableAgain.{ReadsTableAgain};
ghost use Rattle.mob_thin_run.specs.WideThin.{HasOneThinText, WideStopsNowhere, WideWritesTheSameTable};

/// The file that is written for a table is read again as its rows with each trip simplified. The
/// premises: it is no longer than a table file may be, and each trip of the table prints at most
/// 100,000 instants.
pub fn table_read_again()
    ensures again { ReadsTableAgain }
{}

/// With `--wide` no row stops a run. A table that is written without the option is written with it,
/// with the same bytes.
pub fn wide_changes_no_table()
    ensures stops { WideStopsNowhere }
    ensures writes { WideWritesTheSameTable }
    ensures one { HasOneThinText }
{}
