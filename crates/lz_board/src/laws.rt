//! What holds between any two steps on the board. Each function is one law.

ghost use Rattle.lz_board.specs.Laws.{MembersKeepTheirSlot, PassesSeeBeginnings, SlotsAreLeftFirst, WordsFollowTheTrace};

/// The head, link, key and halt words are those after the trace of the pen's notes, which is lawful.
pub fn words_follow_the_trace()
    ensures { WordsFollowTheTrace }
{}

/// What a pass has seen is a beginning of that trace with all that was published for the pass, and its pin word is the one
/// that it has stored.
pub fn passes_see_beginnings()
    ensures { PassesSeeBeginnings }
{}

/// While a pass is inside, no slot is prepared again that was unlinked since the pass went inside.
pub fn slots_are_left_first()
    ensures { SlotsAreLeftFirst }
{}

/// A key that is settled as a member throughout is one in the same slot throughout: so a list that goes over the slots meets it.
pub fn members_keep_their_slot()
    ensures { MembersKeepTheirSlot }
{}
