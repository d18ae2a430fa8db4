//! Indexes change no answer of a script. No code runs here.
ghost use Rattle.mob_laws.specs.BlankedScripts.{BlankedScriptsAreAccepted};
ghost use Rattle.mob_laws.specs.IndexScripts.{IndexesChangeNoAnswer, IndexesWriteTheSame, WrittenIsAnswered};

/// Take two scripts that differ only in CREATE INDEX statements, run on the same files. If all
/// statements of both run, their SELECTs give the same answers, one by one. Without EXPLAIN, whose
/// text names the indexes, they write the same text. Faults are not compared: an index may avoid
/// one that a query has without it.
pub fn indexes_change_no_answer()
    ensures answered { WrittenIsAnswered }
    ensures answers { IndexesChangeNoAnswer }
    ensures text { IndexesWriteTheSame }
{
    mob_accept::laws::one_script();
    mob_catalog::laws::one_meaning();
    mob_load::laws::loaded_is_read();
    mob_load::laws::literals_have_their_values();
    mob_load::laws::one_loading();
    mob_tail::laws::one_answer_to();
}

/// Take an accepted script, and a text with the same statements at the same places, but an empty
/// one for each CREATE INDEX. That text is accepted too, and the two scripts differ only in their
/// CREATE INDEX statements. So the law above applies to them.
pub fn blanked_scripts_are_accepted()
    ensures accepted { BlankedScriptsAreAccepted }
{}
