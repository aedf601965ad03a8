//! Laws of lines, and of verdicts. Each function is one law.
ghost use Rattle.lz_judge.specs.MarkLines.{HistoriesReadBack, MarksReadBack};
ghost use Rattle.lz_judge.specs.Renewals.{OneVerdict};

/// The line that is written of a mark says the mark.
pub fn marks_read_back()
    ensures { MarksReadBack }
{}

/// The lines that are written of a run are its history.
pub fn histories_read_back()
    ensures { HistoriesReadBack }
{}

/// On two files one verdict of `renewed` alone is true.
pub fn one_verdict()
    ensures { OneVerdict }
{}
