//! The command that judges a history.
ghost use Rattle.std.specs.Prelude.{◌≡◌, ◌⊎◌};
ghost use Rattle.lazyset_file_commands.specs.Judgements.{FoundGood, FoundWrong, IsJudged, JudgedGood, JudgedUnread, JudgedWrong, flaw_text};
ghost use Rattle.lazyset_file_commands.specs.Tellings.{LacksMemory, Tells};

use crate::refusal::{refuse_line, send_two};
use crate::status::Status;
use crate::telling::{NO_MEMORY, status_sent, tell};
use lz_judge::{Flaw, History, MOST_BYTES, judge};
use std::alloc::{AllocError, Global};
use std::io::Write;

/// The most bytes of a history that a judge needs: one more than the longest has.
pub const MOST_JUDGED: usize = MOST_BYTES + 1;

const _: () = prove!(MOST_JUDGED > MOST_BYTES);

/// Judges the history that the bytes are the text of, and says `good`, `flaw N I` with the flaw's number and its call's or
/// open's, or `line L` with the first line that doesn't read. Failed where the line could not be written, and for want of
/// memory, which says `nomemory`.
pub fn judge_on<W: Write + Drop>(alloc: Global, bytes: &[u8], writer: &mut W) -> Status
    ensures told { IsJudged bytes.now result (W.contents writer.old) (W.contents writer.new) ⊎ LacksMemory (W.contents writer.old) (W.contents writer.new) result }
    ensures good { result ≡ Status.Done → JudgedGood bytes.now result (W.contents writer.old) (W.contents writer.new) }
    ensures line { result ≡ Status.Refused → JudgedUnread bytes.now result (W.contents writer.old) (W.contents writer.new) }
    ensures flaw { result ≡ Status.Damaged → JudgedWrong bytes.now result (W.contents writer.old) (W.contents writer.new) }
    ensures other { (result ≡ Status.Done) ⊎ (result ≡ Status.Refused) ⊎ (result ≡ Status.Damaged) ⊎ (result ≡ Status.Failed) }
{
    match History::read(alloc, bytes) {
        Ok(Ok(history)) => judge_history(alloc, &history, writer),
        Ok(Err(line)) => refuse_line(writer, line),
        Err(AllocError) => tell(writer, Status::Failed, NO_MEMORY),
    }
}

fn judge_history<W: Write + Drop>(alloc: Global, history: &History, writer: &mut W) -> Status
    ensures told { FoundGood history.now result (W.contents writer.old) (W.contents writer.new) ⊎ FoundWrong history.now result (W.contents writer.old) (W.contents writer.new) ⊎ LacksMemory (W.contents writer.old) (W.contents writer.new) result }
    ensures good { result ≡ Status.Done → FoundGood history.now result (W.contents writer.old) (W.contents writer.new) }
    ensures flaw { result ≡ Status.Damaged → FoundWrong history.now result (W.contents writer.old) (W.contents writer.new) }
    ensures other { (result ≡ Status.Done) ⊎ (result ≡ Status.Damaged) ⊎ (result ≡ Status.Failed) }
{
    match judge(alloc, history) {
        Ok(Ok(())) => tell(writer, Status::Done, b"good\n"),
        Ok(Err(flaw)) => tell_flaw(writer, flaw),
        Err(AllocError) => tell(writer, Status::Failed, NO_MEMORY),
    }
}

fn tell_flaw<W: Write>(writer: &mut W, flaw: Flaw) -> Status
    ensures { Tells (W.contents writer.old) (W.contents writer.new) (flaw_text flaw) Status.Damaged result }
{
    let told = flaw;
    let number = u64::from(told.number());
    let sent = send_two(writer, b"flaw ", number, flaw.subject());
    status_sent(sent, Status::Damaged)
}
