//! A query keeps the tuples for which WHERE is true. No code runs here.
ghost use Rattle.mob_laws.specs.KeptTuples.{DeletesTakeTuples, KeptTuplesAreLive, KeptTuplesMeet, SelectsAnswerOnTuples, TuplesThatMeetAreKept, TuplesThatMeetAreOneList};

/// A query keeps exactly the tuples of its tables for which WHERE is true, each once, in the order
/// of their row numbers. A tuple has a live row for each table of FROM, or no row if a LEFT JOIN
/// has none. There is one such list. This holds for each SELECT and each DELETE of a run.
pub fn kept_rows_are_rows()
    ensures kept { KeptTuplesMeet }
    ensures met { TuplesThatMeetAreKept }
    ensures one { TuplesThatMeetAreOneList }
    ensures live { KeptTuplesAreLive }
    ensures selects { SelectsAnswerOnTuples }
    ensures deletes { DeletesTakeTuples }
{}
