//! The survey of a file, slot by slot.
ghost use Rattle.std.specs.Prelude.{◌≡◌, ◌↔◌, ℕ, ◌+◌, ◌*◌, ◌/◌, ◌%◌, ◌<◌, ◌≤◌, List, length, take, IfOk, IsTrue, Option};
ghost use Rattle.std.specs.Io.KnownBytes.{Consumes, IsAtEnd};
ghost use Rattle.lz_slot.specs.Sets.{Keys};
ghost use Rattle.lz_slot.specs.Bytes.{Holds, format_of, slot_at};
ghost use Rattle.lz_slot.specs.Limits.{most_slots};
ghost use Rattle.lz_judge.specs.Surveys.{AreFindings, IsSurveyOf, IsSurveyed, OfText, is_good};
ghost use Rattle.lz_judge.specs.Scans.{BeginsWith, HadMore, TakesPiece};

use crate::finding::{Finding, Survey};
use crate::scan::Scan;
use lz_slot::{Format, Header, HeaderFault, read_head, read_header};
use std::alloc::{AllocError, Global};
use std::io::{ErrorKind, Read};

// The slots that are read at once.
const SLOTS_AT_ONCE: u64 = 1_024;

/// Why there is no survey.
#[derive(Clone, Copy, Debug, PartialEq, Eq)]
pub enum SurveyFault {
    /// A read failed.
    Read,
    Memory,
}

/// What the bytes of a file hold.
pub fn survey(alloc: Global, bytes: &[u8]) -> Result<Survey, AllocError>
    ensures told { IfOk result (IsSurveyOf bytes.now) }

    // It is good exactly where the file holds a set.
    ensures good { IfOk result (λ survey. IsTrue (is_good survey) ↔ ((N : ℕ) × (S : Keys) × Holds bytes.now N S)) }
{
    match read_header(bytes, bytes.len() as u64) {
        Ok(header) => Ok(Survey::Found(header, find_all(alloc, bytes, header)?)),
        Err(fault) => Ok(Survey::Refused(fault)),
    }
}

// What is found in the slots of a file with this head.
fn find_all(alloc: Global, bytes: &[u8], header: Header) -> Result<Vec<Finding>, AllocError>
    requires format { header.format ≡ format_of bytes.now }
    requires range { header.slots ≤ most_slots }
    requires file { length bytes.now ≡ 16 + 16 * header.slots }
    ensures { IfOk result (λ findings. AreFindings (slot_at bytes.now) header.slots findings.items) }
{
    let mut scan = Scan::new(alloc);
    scan.note_piece(header.format, 0, &bytes[16..])?;
    scan.findings(alloc)
}

/// What the file holds whose bytes the reader gives. It needs memory for what is found and for the keys alone. Of a file that is refused
/// no more is read than its head, or one byte more than its slots.
pub fn survey_of<R: Read>(alloc: Global, reader: &mut R) -> Result<Survey, SurveyFault>
    ensures { IfOk result (λ survey. OfText (λ t. IsSurveyed t survey) (R.remaining reader.old)) }
{
    let mut head = [0; 16];
    if fill(reader, &mut head)? < head.len() {
        return Ok(Survey::Refused(HeaderFault::NotMade));
    }
    match read_head(&head) {
        Ok(header) => survey_slots(alloc, reader, header),
        Err(fault) => Ok(Survey::Refused(fault)),
    }
}

// What the file holds of which the reader has given this head.
fn survey_slots<R: Read>(
    alloc: Global,
    reader: &mut R,
    header: Header,
) -> Result<Survey, SurveyFault>
    requires { header.slots ≤ most_slots }
    ensures { (input : Option (List ℕ)) (head : List ℕ) → BeginsWith header head → length head ≡ 16 → Consumes input (R.remaining reader.old) head
        → IfOk result (λ survey. OfText (λ t. IsSurveyed t survey) input) }
{
    let mut scan = Scan::new(alloc);
    let mut piece = [0; 16 * SLOTS_AT_ONCE as usize];
    let mut done = 0;
    while done < header.slots {
        let slots = SLOTS_AT_ONCE.min(header.slots - done);
        let bytes = &mut piece[..16 * slots as usize];
        if !take_piece(&mut scan, reader, header.format, done, bytes)? {
            return Ok(Survey::Refused(HeaderFault::WrongLength));
        }
        done += slots;
    }
    if has_more(reader)? {
        return Ok(Survey::Refused(HeaderFault::WrongLength));
    }
    match scan.findings(alloc) {
        Ok(findings) => Ok(Survey::Found(header, findings)),
        Err(AllocError) => Err(SurveyFault::Memory),
    }
}

// Takes what the next slots of the reader say, as many as the piece has room for, and tells whether it gave them all.
fn take_piece<R: Read>(
    scan: &mut Scan,
    reader: &mut R,
    format: Format,
    first: u64,
    piece: &mut [u8],
) -> Result<bool, SurveyFault>
    requires whole { length piece.old % 16 ≡ 0 }
    requires room { first + length piece.old / 16 ≤ most_slots }
    ensures { IfOk result (λ is_whole. TakesPiece is_whole format first piece.new scan.old scan.new (R.remaining reader.old) (R.remaining reader.new)) }
{
    if fill(reader, piece)? < piece.len() {
        return Ok(false);
    }
    match scan.note_piece(format, first, piece) {
        Ok(()) => Ok(true),
        Err(AllocError) => Err(SurveyFault::Memory),
    }
}

// Whether the reader has another byte.
fn has_more<R: Read>(reader: &mut R) -> Result<bool, SurveyFault>
    ensures { IfOk result (λ more. HadMore more (R.remaining reader.old) (R.remaining reader.new)) }
{
    Ok(fill(reader, &mut [0])? > 0)
}

// Reads up to the buffer's end, or to the reader's, and tells how many bytes it read. It reads again where a signal interrupted it.
fn fill<R: Read>(reader: &mut R, buffer: &mut [u8]) -> Result<usize, SurveyFault>
    ensures bound { IfOk result (λ n. n ≤ length buffer.new) }
    ensures bytes { IfOk result (λ n. Consumes (R.remaining reader.old) (R.remaining reader.new) (take n buffer.new)) }
    ensures end { IfOk result (λ n. n < length buffer.new → IsAtEnd (R.remaining reader.new)) }
{
    let mut count = 0;
    'tries: for _ in 0..u64::MAX {
        if count >= buffer.len() {
            return Ok(count);
        }
        match reader.read(&mut buffer[count..]) {
            Ok(0) => return Ok(count),
            Ok(more) => count += more,
            Err(error) => {
                if error.kind() != ErrorKind::Interrupted {
                    return Err(SurveyFault::Read);
                }
            }
        }
    }
    Err(SurveyFault::Read)
}
