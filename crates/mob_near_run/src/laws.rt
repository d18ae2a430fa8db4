//! Laws of every answer of mobnear. No code runs here.
ghost use Rattle.mob_near_run.specs.WideNear.{HasOneNearText, WideWritesTheSameRows};

/// Rows that have an answer without `--wide` have it with the option, with the same bytes.
pub fn wide_changes_no_rows()
    ensures writes { WideWritesTheSameRows }
    ensures one { HasOneNearText }
{}
