//! The command that serves a session, by the one pass of a set.
ghost use Rattle.std.specs.Prelude.{◌≡◌, ◌⊎◌, ◌≤◌, ℕ, List, IsTrue};
ghost use Rattle.lz_slot.specs.Bytes.{Holds, format_of};
ghost use Rattle.lz_slot.specs.Limits.{most_buckets};
ghost use Rattle.lz_slot.specs.Sets.{Keys};
ghost use Rattle.lz_vault.specs.Opens.{MayOpen};
ghost use Rattle.lz_board.specs.Seats.{IsNew};
ghost use Rattle.lz_set.specs.Blanks.{MayBeNamed};
ghost use Rattle.lz_set.specs.Names.{MayCall};
ghost use Rattle.lazyset_file_commands.specs.Ends.{session_status};
ghost use Rattle.lazyset_set_commands.specs.PlainReplies.{PassMayAnswer};
ghost use Rattle.lazyset_file_commands.specs.Refusals.{FailedOpen, RefusedOpen};
ghost use Rattle.lazyset_set_commands.specs.Runs.{RanSeat, RepliesOfPass, ServedSeat, SessionOfSet};

use crate::looking::{Heed, has_mark};
use lazyset_file_commands::{Status, refuse};
use lz_disk::Disk;
use lz_proto::{End, SessionFault, session};
use lz_serve::Seated;
use lz_set::{Blank, Named, NoGate, Pass, Set};
use lz_vault::Refused;
use std::io::{Read, Write};
use std::marker::Brand;
use std::slice;
use std::sync::Wait;
use std::time::Clock;

/// Opens the set that the disk holds, over so many buckets, and answers each line of the input with one line, until the input
/// ends. A refused open says `refused N` with the fault's number, and its slots where it has any. Before the first line it is heeded
/// how many keys there are, and whether they are texts. The disk is handed back.
pub fn run_on<Rt, R, W, H, D>(
    rt: &Rt,
    reader: &mut R,
    writer: &mut W,
    heed: &H,
    disk: D,
    buckets: usize,
) -> (Status, D)
where
    Rt: Wait + Clock + AllocGlobal,
    R: Read + Drop,
    W: Write + Drop,
    H: Heed,
    D: Disk,
    requires buckets { (1 ≤ buckets) × (buckets ≤ most_buckets) }
    requires medium { MayOpen (D.device disk) }
    // Either a session was served by the one pass of the set that was opened, or the open was refused; the status is that of how it ended.
    ensures ran { RanSeat D.device buckets result.0 (R.remaining reader.old) (R.remaining reader.new) (W.contents writer.old) (W.contents writer.new) disk result.1
        ⊎ RefusedOpen D.device result.0 (R.remaining reader.old) (R.remaining reader.new) (W.contents writer.old) (W.contents writer.new) disk result.1 }
    ensures honest { (D.device result.1).honest ≡ (D.device disk).honest }
    ensures faults { (D.device disk).faults ≤ (D.device result.1).faults }

    // Where what is read holds S, the session is the plain set's, however it ends. A crash after it leaves the set after its replies,
    // and a crash at any moment leaves what it might have left before, or the set after some first ones of these replies, with the
    // next command, under way then, done or not.
    ensures set { (N : ℕ) (S : Keys) → IsTrue (D.device disk).honest → Holds (D.device disk).medium.seen N S
        → SessionOfSet (PassMayAnswer (format_of (D.device disk).medium.seen) N) N S result.0 (R.remaining reader.old) (R.remaining reader.new) (W.contents writer.old) (W.contents writer.new) (D.device disk) (D.device result.1)
        ⊎ FailedOpen result.0 (W.contents writer.old) (W.contents writer.new) (D.device disk) (D.device result.1) }

    // A run that is done leaves the one set after all the replies.
    ensures plain { (N : ℕ) (S : Keys) → IsTrue (D.device disk).honest → Holds (D.device disk).medium.seen N S → result.0 ≡ Status.Done
        → RepliesOfPass (format_of (D.device disk).medium.seen) N S (R.remaining reader.old) (W.contents writer.old) (W.contents writer.new) (D.device result.1).medium }
{
    match Set::open(rt.alloc(), disk, NoGate, buckets, 1) {
        Ok(blank) => run_blank::<Rt, R, W, H, D, Brand>(rt, reader, writer, heed, blank),
        Err(refused) => {
            let Refused { disk, fault } = refused;
            (refuse(writer, fault), disk)
        }
    }
}

// Serves a session by the one pass of the set.
fn run_blank<Rt, R, W, H, D, N>(
    rt: &Rt,
    reader: &mut R,
    writer: &mut W,
    heed: &H,
    blank: Blank<D, NoGate>,
) -> (Status, D)
where
    Rt: Wait + Clock + AllocGlobal,
    R: Read + Drop,
    W: Write + Drop,
    H: Heed,
    D: Disk,
    N: Named,
    requires named { MayBeNamed D.device N.board N.first N.format blank }
    requires one { N.board.sizes.passes ≡ 1 }
    ensures { ServedSeat N.board N.first N.format result.0 (R.remaining reader.old) (R.remaining reader.new) (W.contents writer.old) (W.contents writer.new) (D.device result.1) }
{
    let members = blank.members();
    let (set, passes) = blank.start::<N>();
    let mut passes = passes;
    let pass = passes.remove(0);
    run_pass(rt, reader, writer, heed, members, set, pass)
}

// Serves a session by a new pass, which has looked for the mark of texts before, and ends the set's life after it.
fn run_pass<Rt, R, W, H, D, N>(
    rt: &Rt,
    reader: &mut R,
    writer: &mut W,
    heed: &H,
    members: usize,
    set: Set<D, NoGate, N>,
    pass: Pass,
) -> (Status, D)
where
    Rt: Wait + Clock + AllocGlobal,
    R: Read + Drop,
    W: Write + Drop,
    H: Heed,
    D: Disk,
    N: Named,
    requires new { IsNew N.board pass }
    requires may_call { MayCall N.board pass }
    ensures { ServedSeat N.board N.first N.format result.0 (R.remaining reader.old) (R.remaining reader.new) (W.contents writer.old) (W.contents writer.new) (D.device result.1) }
{
    let mut pass = pass;
    let mark = has_mark(&set, &mut pass);
    heed.found(members, mark);
    let mut seated = Seated::new(rt, &set, pass);
    let ended = session(rt.alloc(), reader, writer, &mut seated);
    let mut pass = seated.into_pass();
    let disk = set.close_with(slice::from_mut(&mut pass));
    (status_after(ended), disk)
}

// The status after a session.
fn status_after(ended: Result<End, SessionFault>) -> Status
    ensures { result ≡ session_status ended }
{
    match ended {
        Ok(End::Done | End::Quit) => Status::Done,
        Ok(End::Halted) | Err(_) => Status::Failed,
    }
}
