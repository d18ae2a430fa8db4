//! Laws of every query. No code runs here.
ghost use Rattle.mob_tail.specs.GroupLaws.{FieldsTellValues, GroupsAreOfValues, NoCountPasses};
ghost use Rattle.mob_tail.specs.Outcomes.{HasOneQueryAnswer};

/// A query has one answer or one fault on the tuples that it keeps. The order of the keys, with
/// ties in the order of the tuples, leaves one order of the rows.
pub fn one_answer_to()
    ensures outcome { HasOneQueryAnswer }
{
    mob_meaning::laws::one_outcome();
}

/// Two values of a type have the same printed field only if they are the same, and the field of
/// NULL differs from all others. So two tuples are in one group exactly if each column of GROUP BY
/// has the same value on both.
pub fn fields_tell_values()
    ensures tell { FieldsTellValues }
    ensures groups { GroupsAreOfValues }
{}

/// A count never overflows: adding to a count of fewer than 2^62 - 1 values, `count(*)` or over
/// time, always fits.
pub fn no_count_passes()
    ensures never { NoCountPasses }
{}
