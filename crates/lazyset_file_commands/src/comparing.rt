//! The command that says what a file holds, and whether it is the set of another.
ghost use Rattle.std.specs.Prelude.{◌≡◌, ◌⊎◌, List, ℕ, Err};
ghost use Rattle.lz_proto.specs.Steps.{SendTells};
ghost use Rattle.lz_judge.specs.Renewals.{HoldOneSet};
ghost use Rattle.lz_judge.specs.Surveys.{IsSurveyed, OfText};
ghost use Rattle.lazyset_file_commands.specs.Checks.{LacksSurvey};
ghost use Rattle.lazyset_file_commands.specs.Comparisons.{ComparesTo, IsCheckedOf, IsCompared, verdict_status, verdict_text};
ghost use Rattle.lazyset_file_commands.specs.Judgements.{numbers_text};
ghost use Rattle.lazyset_file_commands.specs.Tellings.{LacksMemory, Tells};

use crate::checking::{tell_no_survey, tell_survey};
use crate::refusal::{send_line, send_two};
use crate::shown::Shown;
use crate::status::Status;
use crate::telling::{NO_MEMORY, status_sent, tell};
use lz_judge::{RenewFlaw, Survey, compare, survey_of};
use lz_proto::SessionFault;
use lz_slot::Slot;
use std::alloc::{AllocError, Global};
use std::io::{Read, Write};

/// Says what the file holds whose bytes the reader gives, as `survey_on` does of the findings, and after `good` whether the older file
/// held the same set: `same`, `flaw 8` where the older file holds no set, `flaw 9 I` where its slot I holds a key that the new one
/// lacks, and `flaw 10 I` where the new one's slot I holds a key that the older one lacks. Damaged at a flaw. The older file is read
/// only after `good`.
pub fn check_of_on<R: Read, W: Write + Drop>(
    alloc: Global,
    reader: &mut R,
    older: &mut R,
    writer: &mut W,
) -> Status
    ensures told { OfText (λ new. IsCheckedOf (R.remaining older.old) new result (W.contents writer.old) (W.contents writer.new)) (R.remaining reader.old)
        ⊎ LacksSurvey (W.contents writer.old) (W.contents writer.new) result }

    // It is done exactly where both files hold one set.
    ensures done { result ≡ Status.Done → OfText (λ new. OfText (λ old. HoldOneSet old new) (R.remaining older.old)) (R.remaining reader.old) }
    ensures apart { (result ≡ Status.Refused) ⊎ (result ≡ Status.Damaged) → OfText (λ new. OfText (λ old. ¬ HoldOneSet old new) (R.remaining older.old)) (R.remaining reader.old) }
{
    match survey_of(alloc, reader) {
        Ok(survey) => check_survey(alloc, &survey, older, writer),
        Err(fault) => tell_no_survey(writer, fault),
    }
}

// Tells the survey of the new file, and after `good` whether it holds the older one's set.
fn check_survey<R: Read, W: Write + Drop>(
    alloc: Global,
    new: &Survey,
    older: &mut R,
    writer: &mut W,
) -> Status
    ensures told { (t : List ℕ) → IsSurveyed t new.now → IsCheckedOf (R.remaining older.old) t result (W.contents writer.old) (W.contents writer.new) ⊎ LacksMemory (W.contents writer.old) (W.contents writer.new) result }
    ensures done { (t : List ℕ) → IsSurveyed t new.now → result ≡ Status.Done → OfText (λ old. HoldOneSet old t) (R.remaining older.old) }
    ensures apart { (t : List ℕ) → IsSurveyed t new.now → (result ≡ Status.Refused) ⊎ (result ≡ Status.Damaged) → OfText (λ old. ¬ HoldOneSet old t) (R.remaining older.old) }
{
    match tell_survey(alloc, new, writer, Shown::Findings) {
        Status::Done => compare_on(alloc, older, new, writer),
        status => status,
    }
}

// Says whether the new file holds the older one's set.
fn compare_on<R: Read, W: Write + Drop>(
    alloc: Global,
    older: &mut R,
    new: &Survey,
    writer: &mut W,
) -> Status
    ensures told { (t : List ℕ) → IsSurveyed t new.now → ComparesTo (R.remaining older.old) t result (W.contents writer.old) (W.contents writer.new) }
    ensures done { (t : List ℕ) → IsSurveyed t new.now → result ≡ Status.Done → OfText (λ old. HoldOneSet old t) (R.remaining older.old) }
    ensures apart { (t : List ℕ) → IsSurveyed t new.now → (result ≡ Status.Refused) ⊎ (result ≡ Status.Damaged) → OfText (λ old. ¬ HoldOneSet old t) (R.remaining older.old) }
{
    match survey_of(alloc, older) {
        Ok(old) => compare_surveys(alloc, &old, new, writer),
        Err(fault) => tell_no_survey(writer, fault),
    }
}

fn compare_surveys<W: Write + Drop>(
    alloc: Global,
    old: &Survey,
    new: &Survey,
    writer: &mut W,
) -> Status
    ensures told { (t u : List ℕ) → IsSurveyed t old.now → IsSurveyed u new.now → IsCompared t u result (W.contents writer.old) (W.contents writer.new) ⊎ LacksMemory (W.contents writer.old) (W.contents writer.new) result }
    ensures done { (t u : List ℕ) → IsSurveyed t old.now → IsSurveyed u new.now → result ≡ Status.Done → HoldOneSet t u }
    ensures apart { (t u : List ℕ) → IsSurveyed t old.now → IsSurveyed u new.now → (result ≡ Status.Refused) ⊎ (result ≡ Status.Damaged) → ¬ HoldOneSet t u }
{
    match compare(alloc, old, new) {
        Ok(verdict) => tell_verdict(writer, verdict),
        Err(AllocError) => tell(writer, Status::Failed, NO_MEMORY),
    }
}

fn tell_verdict<W: Write + Drop>(writer: &mut W, verdict: Result<(), RenewFlaw>) -> Status
    ensures told { Tells (W.contents writer.old) (W.contents writer.new) (verdict_text verdict) (verdict_status verdict) result }
    ensures status { (result ≡ Status.Failed) ⊎ (result ≡ verdict_status verdict) }
{
    match verdict {
        Ok(()) => tell(writer, Status::Done, b"same\n"),
        Err(flaw) => status_sent(send_flaw(writer, flaw), Status::Damaged),
    }
}

fn send_flaw<W: Write>(writer: &mut W, flaw: RenewFlaw) -> Result<(), SessionFault>
    ensures { SendTells (W.contents writer.old) (W.contents writer.new) (verdict_text (Err flaw)) result }
{
    match flaw {
        RenewFlaw::NotHeld => send_line(writer, b"flaw ", 8),
        RenewFlaw::Missing(slot) => send_numbers(writer, 9, slot),
        RenewFlaw::Extra(slot) => send_numbers(writer, 10, slot),
    }
}

fn send_numbers<W: Write>(writer: &mut W, number: u64, slot: Slot) -> Result<(), SessionFault>
    ensures { SendTells (W.contents writer.old) (W.contents writer.new) (numbers_text number slot) result }
{
    send_two(writer, b"flaw ", number, u64::from(slot.index()))
}
