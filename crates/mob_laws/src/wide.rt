//! `--wide` changes no answer. No code runs here.
ghost use Rattle.mob_laws.specs.WideAnswers.{WideEndsTheSame, WideReadsTheSame, WideWritesTheSame};

/// Where a run ends with 0 without `--wide`, it ends with 0 or out of memory with it, and has
/// written the same: the option decides only which numbers have to fit.
pub fn wide_changes_no_answer()
    ensures reads { WideReadsTheSame }
    ensures writes { WideWritesTheSame }
    ensures ends { WideEndsTheSame }
{}
