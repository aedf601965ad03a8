//! The commands that make a file of nothing, of a list and of another file.
ghost use Rattle.std.specs.Prelude.{◌≡◌, IfNone, IfSome, option_map};
ghost use Rattle.lz_slot.specs.Limits.{last_room};
ghost use Rattle.lz_slot.specs.Rooms.{last_room_of};
ghost use Rattle.lazyset_file_commands.specs.Lists.{HasPlaceFor, keys, named_by, texts};

use crate::counted::Counted;
use crate::fault::Fault;
use crate::files::{StandIns, open, say_cause};
use crate::making::Making;
use crate::over_disk::{make_keys_over, make_over, renew_over};
use crate::secrets::secret_of;
use lazyset_arguments::{New, Request, SetOfTexts};
use lazyset_set_commands::{Lines, Status};
use lz_disk::Lock;
use lz_resp::Secret;
use lz_slot::Format;
use std::fs::File;
use std::io::Write;
use std::rt::Files;
use std::time::Clock;

/// Makes a file of the empty set.
pub fn make<R, W>(rt: &R, writer: &mut W, new: New<'_>) -> Result<Status, Fault>
where
    R: Files<File = File> + Eprint + Clock + AllocGlobal,
    W: Write + Drop,
{
    let (making, disk) = Making::begin(rt, new.file, None)?;
    let (status, disk) = make_over(rt, writer, new, disk);
    Ok(making.end(rt, &disk, status))
}

/// Makes a file of the keys that the lines of standard input name: keys, or members of a set of texts. A secret is had before there is a file.
pub fn make_keys<R, W>(
    rt: &R,
    writer: &mut W,
    stands: &StandIns,
    new: New<'_>,
    texts_of: Option<SetOfTexts<'_>>,
) -> Result<Status, Fault>
where
    R: Files<File = File> + Input + Eprint + Clock + AllocGlobal,
    W: Write + Drop,
    requires { IfSome texts_of (λ wanted. last_room_of new.format ≡ last_room) }
{
    if stands.has_no_input() {
        return Err(Fault::NoRead);
    }
    let path = match texts_of {
        Some(texts) => texts.secret,
        None => None,
    };
    let secret = secret_of(rt, Request::MakeKeys(new, texts_of), path)?;
    let (making, disk) = Making::begin(rt, new.file, None)?;
    let mut reader = Counted::new(rt.reader());
    let lines = lines_of(texts_of, secret, new.format);
    let (status, disk) = make_keys_over(rt, &mut reader, writer, new, disk, lines);
    if status == Status::Done {
        say_count(rt, new.file, reader.lines(), lines);
    }
    Ok(making.end(rt, &disk, status))
}

// What the lines of a list name, in a file of this format: members of a set of texts, under this secret where there is one, or keys.
fn lines_of<'a>(
    texts_of: Option<SetOfTexts<'a>>,
    secret: Option<&'a Secret>,
    format: Format,
) -> Lines<'a>
    requires { IfSome texts_of (λ wanted. last_room_of format ≡ last_room) }
    ensures place { HasPlaceFor format result }
    ensures texts { IfSome texts_of.entry (λ wanted. named_by format result ≡ texts (option_map (λ block. block.now) secret.entry) wanted.name.now) }
    ensures keys { IfNone texts_of.entry (named_by format result ≡ keys format) }
{
    match texts_of {
        Some(texts) => Lines::Texts(secret, texts.name.as_bytes()),
        None => Lines::Keys,
    }
}

// Says how many lines a list had. A text may stand there twice.
fn say_count<R: Eprint>(rt: &R, file: &str, count: u64, lines: Lines<'_>) {
    let _ = match (lines, count) {
        (Lines::Keys, 1) => eprintln!(rt; "lazyset: make {file}: 1 key"),
        (Lines::Keys, _) => eprintln!(rt; "lazyset: make {file}: {count} keys"),
        (Lines::Texts(..), 1) => eprintln!(rt; "lazyset: make {file}: 1 line of texts"),
        (Lines::Texts(..), _) => eprintln!(rt; "lazyset: make {file}: {count} lines of texts"),
    };
}

/// Makes a file of the keys of another one.
pub fn renew<R, W>(rt: &R, writer: &mut W, old: &str, new: New<'_>) -> Result<Status, Fault>
where
    R: Files<File = File> + Eprint + Clock + AllocGlobal,
    W: Write + Drop,
    requires { last_room_of new.format ≡ last_room }
{
    let old_disk = open(rt, old, Lock::Shared)?;
    let (making, disk) = Making::begin(rt, new.file, Some(&old_disk))?;
    let (status, old_disk, disk) = renew_over(rt, writer, old, old_disk, new, disk);
    say_cause(rt, old, old_disk.cause());
    Ok(making.end(rt, &disk, status))
}
