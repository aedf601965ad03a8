//! What follows of sets that are opened one after the other, and of pages that are told one after the other.
ghost use Rattle.lz_set.specs.JoinedLives.{LivesJoin};
ghost use Rattle.lz_set.specs.Scans.{ScansTellMembers};

use lz_disk::Disk;

/// Lives of sets, each opened on a text that the one before it left, are a chain to the set that the newest leaves: what the calls of
/// all of them made, each answered one and some of those that were under way when their life ended.
pub fn lives_join<D: Disk>()
    ensures { LivesJoin D D.device }
{}

/// A scan, page by page from the first slot to the end, tells each key that was a member all the while, and none that never was,
/// whatever passes make its pages. (A settled key keeps its slot as long as it is a member.)
pub fn scans_tell_members()
    ensures { ScansTellMembers }
{}
