//! Laws of what the commands show. Each function is one law.

ghost use Rattle.lazyset_file_commands.specs.ShownCounts.{CountsAreOfSet};
ghost use Rattle.lazyset_file_commands.specs.ShownLists.{ShownKeysAreListed};
ghost use Rattle.lazyset_file_commands.specs.Torn.{TornAreFree};

/// The keys that are shown of a file are a list of keys just where the file holds a set, and then of all its keys, in their order, for
/// each format that has the file's rooms. So a file of such a format that is made of the list has in its slots what a renewal into
/// that format would write there.
pub fn shown_keys_are_listed()
    ensures { ShownKeysAreListed }
{}

/// The counts that are shown of a file that holds a set are those of the set.
pub fn counts_are_of_set()
    ensures { CountsAreOfSet }
{}

/// The torn slots of a file are among those that are told as free.
pub fn torn_slots_are_free()
    ensures { TornAreFree }
{}
