//! A law of the text of records: it reads back as the same records. No code runs here.
ghost use Rattle.mob_records.specs.ReadAgain.{ReadsAgain};

/// If each record has at least one field, `csv` reads their text back as these records.
pub fn records_read_again()
    ensures again { ReadsAgain }
{}
