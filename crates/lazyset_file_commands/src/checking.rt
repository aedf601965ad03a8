//! The commands that say what a file holds.
ghost use Rattle.std.specs.Prelude.{◌≡◌, ◌⊎◌};
ghost use Rattle.lz_judge.specs.Surveys.{HoldsASet, OfText};
ghost use Rattle.lazyset_file_commands.specs.Checks.{IsShown, LacksSurvey, found_status, no_survey_text, shown_text, survey_status};
ghost use Rattle.lazyset_file_commands.specs.Tellings.{LacksMemory, Tells};

use crate::refusal::send_line;
use crate::shown::{Shown, first_page, send_found};
use crate::status::Status;
use crate::telling::{NO_MEMORY, NO_READ, status_sent, tell};
use lz_judge::{Survey, SurveyFault, survey_of};
use std::alloc::{AllocError, Global};
use std::io::{Read, Write};

/// Surveys the file whose bytes the reader gives, and says what is to be shown of it, or `refused N` alone with the fault of its
/// head. Failed where a line could not be written, and, with `noread` or `nomemory`, where a read failed or there was no memory.
pub fn survey_on<R: Read, W: Write + Drop>(
    alloc: Global,
    reader: &mut R,
    writer: &mut W,
    shown: Shown,
) -> Status
    ensures told { OfText (λ t. IsShown shown t result (W.contents writer.old) (W.contents writer.new)) (R.remaining reader.old)
        ⊎ LacksSurvey (W.contents writer.old) (W.contents writer.new) result }

    // It is done exactly where the file holds a set.
    ensures done { result ≡ Status.Done → OfText HoldsASet (R.remaining reader.old) }
    ensures damaged { (result ≡ Status.Refused) ⊎ (result ≡ Status.Damaged) → OfText (λ t. ¬ HoldsASet t) (R.remaining reader.old) }
{
    match survey_of(alloc, reader) {
        Ok(survey) => tell_survey(alloc, &survey, writer, shown),
        Err(fault) => tell_no_survey(writer, fault),
    }
}

/// Writes what is to be shown of a survey, where there is memory for a page, and ends as the survey wants.
pub(crate) fn tell_survey<W: Write + Drop>(
    alloc: Global,
    survey: &Survey,
    writer: &mut W,
    shown: Shown,
) -> Status
    ensures told { Tells (W.contents writer.old) (W.contents writer.new) (shown_text shown survey.now) (survey_status survey.now) result
        ⊎ LacksMemory (W.contents writer.old) (W.contents writer.new) result }
    ensures status { (result ≡ Status.Failed) ⊎ (result ≡ survey_status survey.now) }
{
    match survey {
        Survey::Refused(fault) => {
            let sent = send_line(writer, b"refused ", u64::from(fault.number()));
            status_sent(sent, Status::Refused)
        }
        Survey::Found(header, findings) => {
            match first_page(alloc, shown, *header, findings.as_slice()) {
                Ok(page) => {
                    let good = survey.is_good();
                    let sent = send_found(page, writer, shown, findings.as_slice(), good);
                    status_sent(sent, status_of(good))
                }
                Err(AllocError) => tell(writer, Status::Failed, NO_MEMORY),
            }
        }
    }
}

/// Says why there is no survey.
pub(crate) fn tell_no_survey<W: Write + Drop>(writer: &mut W, fault: SurveyFault) -> Status
    ensures told { Tells (W.contents writer.old) (W.contents writer.new) (no_survey_text fault) Status.Failed result }
    ensures failed { result ≡ Status.Failed }
{
    match fault {
        SurveyFault::Read => tell(writer, Status::Failed, NO_READ),
        SurveyFault::Memory => tell(writer, Status::Failed, NO_MEMORY),
    }
}

// How a command ends that told what was found.
fn status_of(is_good: bool) -> Status
    ensures { result ≡ found_status is_good }
{
    if is_good {
        Status::Done
    } else {
        Status::Damaged
    }
}
