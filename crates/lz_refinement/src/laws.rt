//! What follows from the answers that a pass was given. Each function is one law.

ghost use Rattle.lz_refinement.specs.KeyByKey.{OneKeyIsPlain, OwnKeysArePlain, PlainCallsAreReplies};
ghost use Rattle.lz_refinement.specs.LoneClient.{InTurnServesKey, LoneClientIsPlain, TurnsServeKey};
ghost use Rattle.lz_refinement.specs.Moments.{OwnRepliesStay};
ghost use Rattle.lz_refinement.specs.OneCaller.{OneCallerIsPlain};
ghost use Rattle.lz_refinement.specs.Sessions.{MomentsArePlain, SessionIsHeld, SessionIsPlain};

use lz_disk::Disk;

/// In a set of one pass each answer is the plain set's: of the members that the pass had seen before its call, and those that
/// it has seen after.
pub fn one_caller_is_plain()
    ensures { OneCallerIsPlain }
{}

/// In a set of any number of passes each answer is that of a plain set of its key, where no other pass changed the key meanwhile.
pub fn one_key_is_plain()
    ensures { OneKeyIsPlain }
{}

/// In a set of any number of passes the replies to calls about keys that nobody else changes are a plain set's, in the order of the
/// calls, where those about one key were made one after the other.
pub fn own_keys_are_plain()
    ensures { OwnKeysArePlain }
{}

/// Where none was cut off, those that are yes or no are the replies of that plain set to the list of their commands, and it is the set
/// after them.
pub fn plain_calls_are_replies()
    ensures { PlainCallsAreReplies }
{}

/// A key that was changed in some calls alone, which were made one after the other, by whatever passes, is served by them.
pub fn turns_serve_key()
    ensures { TurnsServeKey }
{}

/// Where all of a set's calls that name a key were made one after the other, by whatever passes, nobody else changed it.
pub fn in_turn_serves_key()
    ensures { InTurnServesKey }
{}

/// So the replies to all calls of a set are a plain set's in their order where, for each key, those that name it were made one after the
/// other: one client may have all others made side by side.
pub fn lone_client_is_plain()
    ensures { LoneClientIsPlain }
{}

/// In a set of one pass the replies to a session are the plain set's: of the set with which the life began, and the one that
/// the pass has seen after.
pub fn session_is_plain()
    ensures { SessionIsPlain }
{}

/// In a set of one pass each text that a crash may leave after a session holds the plain set after its calls. Where the last
/// one was cut off, it may be done or not.
pub fn session_is_held()
    ensures { SessionIsHeld }
{}

/// In a set of one pass each text that a crash might have left at any moment of a session holds the plain set after some first
/// ones of its calls, with the next one under way, done or not.
pub fn moments_are_plain()
    ensures { MomentsArePlain }
{}

/// A reply that a pass got stays: from the moment that its own steps tell of it, each text that a crash might have left explains its calls
/// up to that reply, with what was seen later or some of it.
pub fn own_replies_stay<D: Disk>()
    ensures { OwnRepliesStay D D.device }
{}
