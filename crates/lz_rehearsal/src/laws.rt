//! Laws of rehearsals. Each function is one law.
ghost use Rattle.lz_rehearsal.specs.Histories.{RehearsalsReadBack};

/// What a whole rehearsal writes on a new world is the history of what was seen.
pub fn rehearsals_read_back()
    ensures { RehearsalsReadBack }
{}
