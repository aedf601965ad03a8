//! What the loops of a service share that forgets, by the marks of its file.
use lazyset_arguments::Period;
use lazyset_file_commands::{
    FIRST_SECRET_MARK, LAST_SECRET_MARK, Status, TEXTS_MARK, refuse, secret_mark, tell,
};
use lz_disk::FileDisk;
use lz_forget::{epoch_of, is_period_mark, period_mark};
use lz_resp::{Naming, Secret};
use lz_serve::Forgetting;
use lz_slot::{Format, Header, Key};
use lz_vault::{OpenFault, read_members};
use std::alloc::{AllocError, Global};
use std::io::Write;

const OTHER_TEXT: &[u8] = b"othertext\n";

const OTHER_NUMBERS: &[u8] = b"othernumbers\n";

const OTHER_SECRET: &[u8] = b"othersecret\n";

const OLD_FILE: &[u8] = b"oldfile\n";

const FULL: &[u8] = b"full\n";

const OTHER_PERIOD: &[u8] = b"otherperiod\n";

/// What the loops share of a service that forgets over this file; or how it ends, which was told, where the file's keys are of another kind. It is in
/// memory that is never given back.
pub fn forgetting_of<W: Write + Drop>(
    alloc: Global,
    writer: &mut W,
    disk: &mut FileDisk,
    header: Option<Header>,
    period: Period,
    secret: Option<&'static Secret>,
) -> Result<&'static Forgetting, Status> {
    let (format, slots) = match header {
        Some(header) => (header.format, header.slots),
        None => (Format::Two, u64::MAX),
    };
    if format == Format::One {
        return Err(tell(writer, Status::Refused, OLD_FILE));
    }
    let keys = match read_members(alloc, disk) {
        Ok(keys) => keys,
        Err(fault) => return Err(refuse(writer, fault)),
    };
    let Ok(marks) = marks_for(alloc, period, secret) else {
        return Err(refuse(writer, OpenFault::Memory));
    };
    if let Some(line) = unfit(keys.as_slice(), marks.as_slice()) {
        return Err(tell(writer, Status::Refused, line));
    }
    if !has_room(keys.as_slice(), marks.as_slice(), slots) {
        return Err(tell(writer, Status::Refused, FULL));
    }
    match kept(alloc, period, Naming::Texts(secret), keys.as_slice(), marks) {
        Ok(forgetting) => Ok(forgetting),
        Err(AllocError) => Err(refuse(writer, OpenFault::Memory)),
    }
}

// What the loops share, with those of these keys that are marks.
fn kept(
    alloc: Global,
    period: Period,
    naming: Naming,
    keys: &[Key],
    marks: Vec<Key>,
) -> Result<&'static Forgetting, AllocError> {
    let found = keys
        .iter()
        .filter(|key| key.rank() >= FIRST_MARK)
        .copied()
        .collect(alloc)?;
    let shared = Forgetting::new(alloc, period.seconds, period.epochs, naming, found, marks)?;
    Ok(Box::leak(Box::new(alloc, shared)?))
}

/// The rank of the first key of the last room.
const FIRST_MARK: u64 = 15_000_000_000_000_000_000;

// The marks that the file of a service is to have that forgets so.
fn marks_for(
    alloc: Global,
    period: Period,
    secret: Option<&'static Secret>,
) -> Result<Vec<Key>, AllocError> {
    let mut marks = Vec::new(alloc);
    if let Some(mark) = Key::of_rank(TEXTS_MARK) {
        marks.push(mark)?;
    }
    if let Some(secret) = secret
        && let Some(mark) = secret_mark(secret)
    {
        marks.push(mark)?;
    }
    if let Some(mark) = period_mark(period.seconds, period.epochs) {
        marks.push(mark)?;
    }
    Ok(marks)
}

// What is said of a file whose keys aren't such as these marks tell. One that has none but these marks is taken.
fn unfit(keys: &[Key], marks: &[Key]) -> Option<&'static [u8]> {
    if keys.iter().all(|key| is_among(marks, *key)) {
        return None;
    }
    for key in keys {
        if is_period_mark(*key) && !is_among(marks, *key) {
            return Some(OTHER_PERIOD);
        }
        if is_secret_mark(*key) && !is_among(marks, *key) {
            return Some(OTHER_SECRET);
        }
    }
    match marks.iter().find(|mark| !is_among(keys, **mark)) {
        None => None,
        Some(mark) if mark.rank() == TEXTS_MARK => Some(OTHER_NUMBERS),
        Some(mark) if is_secret_mark(*mark) => Some(OTHER_SECRET),
        Some(_) => Some(OTHER_TEXT),
    }
}

// Whether a file of so many slots has room for these marks and for one of an epoch, or epochs of a life before that are to be swept.
fn has_room(keys: &[Key], marks: &[Key], slots: u64) -> bool {
    let lacking = marks.iter().filter(|mark| !is_among(keys, **mark)).count();
    let used = keys.len().saturating_add(lacking) as u64;
    used < slots || keys.iter().any(|key| epoch_of(*key).is_some())
}

fn is_among(keys: &[Key], key: Key) -> bool {
    keys.iter().any(|other| other.rank() == key.rank())
}

fn is_secret_mark(key: Key) -> bool {
    let rank = key.rank();
    FIRST_SECRET_MARK <= rank && rank <= LAST_SECRET_MARK
}
