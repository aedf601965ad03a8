//! Laws of runs. Each function is one law.

ghost use Rattle.lz_machine.specs.Alone.{AloneIsPlain, FullIsRight, FullOfOnePass, RefusalsAreRight};
ghost use Rattle.lz_machine.specs.CallsStand.{CallsStand, MarkedIsClosed};
ghost use Rattle.lz_machine.specs.Entries.{LedgerFits};
ghost use Rattle.lz_machine.specs.FreedSlots.{FreedIsAllFree};
ghost use Rattle.lz_machine.specs.JoinedRuns.{LeftIsStart, RunsJoin};
ghost use Rattle.lz_machine.specs.Laws.{EveryHistory, WhatLasts, WalksMove};
ghost use Rattle.lz_machine.specs.Formats.{FormatsStay};
ghost use Rattle.lz_machine.specs.Halts.{FailsOnce, HaltsLast};
ghost use Rattle.lz_machine.specs.InTime.{NeverLate};
ghost use Rattle.lz_machine.specs.Marks.{MarksTell};
ghost use Rattle.lz_machine.specs.NextEvents.{NextIsKnown};
ghost use Rattle.lz_machine.specs.NoSlotCounts.{CountsAreRight};
ghost use Rattle.lz_machine.specs.OneAdd.{LeavesText, OneAddRuns};
ghost use Rattle.lz_machine.specs.OpenFailures.{HeldIsOpened};
ghost use Rattle.lz_machine.specs.WalkEnds.{WalkEnds};

/// The list of calls that a trace and a ledger give fits the history.
pub fn ledger_fits()
    ensures { LedgerFits }
{}

/// The main theorem. Whatever was called, whichever device calls failed, wherever the service was stopped or crashed, also
/// inside a device call: each text that a crash may leave now holds a set, and each life has a list of commands that fits
/// what was seen of it and leads to the set with which the next life began, the last one to the set of that text.
pub fn every_history()
    ensures { EveryHistory }
{}

/// What is settled after the trace of a reached state is in each text that a crash may leave, but for changes that are
/// under way.
pub fn what_lasts()
    ensures { WhatLasts }
{}

/// A load may be put into a run after its actor's last step; all other steps stay steps, with their outcomes, marks and
/// trace, and the actor's call is as the load left it.
pub fn walks_move()
    ensures { WalksMove }
{}

/// The marks of a reached state number each call once and in the order of the calls, an actor has one call open at most,
/// and a call ends once: an answered call stays answered.
pub fn marks_tell()
    ensures { MarksTell }
{}

/// A call that is made after another was cut off is told that its pass is worn, that the file is too old, or that the service has
/// halted, and nothing else: across all actors, until the next open. A call that was open by then may still be answered.
pub fn halts_last()
    ensures { HaltsLast }
{}

/// In each life one device call fails at most, since the vault is dead then; and no more calls are told, or are to be told, that the
/// device failed in them.
pub fn fails_once()
    ensures { FailsOnce }
{}

/// Where no other actor takes a step, each life is a plain set's: its calls end one after the other, each answer is that of
/// the set, and each text that a crash may leave holds the set after the answered commands, with the first one under way or
/// without it.
pub fn alone_is_plain()
    ensures { AloneIsPlain }
{}

/// Where no other actor takes a step, a call is told of an old file exactly where it adds a key that the file's format can't
/// hold; else an adding is full exactly where its key is no member and the set has as many members as there are slots: one
/// that is answered yes found fewer.
pub fn full_is_right()
    ensures { FullIsRight }
{}

/// Worn is answered only where the pin word is 2^62, halted and device only where the vault is dead; and a call is told of an
/// old file exactly where it adds a key that the file's format can't hold.
pub fn refusals_are_right()
    ensures { RefusalsAreRight }
{}

/// A caller's next event never comes where it may not: in each state that a run reaches the yard plays it, or refuses it for
/// another reason. That holds of a call too that was refused because its pass is worn: its pass has the last pin.
pub fn never_late()
    ensures { NeverLate }
{}

/// In each state that a run reaches the next event of a call is its actor's next one and one of the yard's, so that
/// `Yard::step` may be asked for it, and the call may take what it gives.
pub fn next_is_known()
    ensures { NextIsKnown }
{}

/// In a set of one pass an adding that has seen all pins and finds no slot finds as many members as there are slots.
pub fn full_of_one_pass()
    ensures { FullOfOnePass }
{}

/// A slot in limbo that becomes free was left by every pass: each was outside in some state since the slot was last
/// unlinked, so none that is inside stands on it or can come to it by an old link.
pub fn freed_is_all_free()
    ensures { FreedIsAllFree }
{}

/// One adding to a freshly made set of one slot, in each format, is a call and fifteen turns of a run, and it is answered
/// yes. Where a gate opens the slot the device makes two writes and two syncs for it, in format 4 one of each.
pub fn one_add_runs()
    ensures { OneAddRuns }
{}

/// In each state that a run reaches a crash may leave some text, so the laws on such texts speak of each run.
pub fn leaves_text()
    ensures { LeavesText }
{}

/// An open of a text that holds a set is refused only because of the device or when out of memory.
pub fn held_is_opened()
    ensures { HeldIsOpened }
{}

/// With each text that a run may leave another run may begin, whatever its buckets and passes, on a disk that suits its format.
pub fn left_is_start()
    ensures { LeftIsStart }
{}

/// The main theorem over any number of runs, each with buckets and passes of its own: where each but the first begins with a
/// text that the one before it may leave, their lives together are a chain.
pub fn runs_join()
    ensures { RunsJoin }
{}

/// A file keeps its format: in each state that a run reaches the service is over a file of the format with which the run
/// began, and so is each text that a crash may leave.
pub fn formats_stay()
    ensures { FormatsStay }
{}

/// Hindsight, for the machine: in each state that a run reaches, an open call may rely on what is said of how far it has come,
/// with the trace at which its pass went in, and the change that was published for the pass since. So an answer rests on a set
/// that was there, and settled, since then.
pub fn calls_stand()
    ensures { CallsStand }
{}

/// Hindsight at the end of a walk, in each state that a run reaches: a walk that ends past its key's place, or on a marked node
/// with the flag of removing, had a trace since its pass went in at which the key was no member, and its last change covered.
/// One that ends on an unmarked node with the flag of adding finds the key a member, surely; without its flag the node is the
/// key's last one, and its change isn't covered yet.
pub fn walk_ends()
    ensures { WalkEnds }
{}

/// A marked slot on which a pass that is inside may stand is closed once its last write is durable.
pub fn marked_is_closed()
    ensures { MarkedIsClosed }
{}

/// Where a slot is asked for and none is found, none is free, and the counts that are told sum to the number of slots. A call
/// that is answered full tells those of its own last asking.
pub fn counts_are_right()
    ensures { CountsAreRight }
{}
