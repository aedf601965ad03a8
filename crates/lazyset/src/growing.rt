//! The command that grows a file: a new one is made beside it, and takes its name.
ghost use Rattle.std.specs.Prelude.{◌≡◌, IfSome, IsTrue};
ghost use Rattle.lz_slot.specs.Limits.{last_room};
ghost use Rattle.lz_slot.specs.Rooms.{last_room_of};
ghost use Rattle.lz_vault.specs.Makes.{WritesNothing};

use crate::beside::{Name, Replaced, create_beside};
use crate::fault::Fault;
use crate::files::{header_on, say_cause};
use crate::formats::{format_for, kept_format};
use crate::over_disk::{Opened, grow_over};
use lazyset_arguments::New;
use lazyset_set_commands::{Status, format_number};
use lz_disk::{Disk, FileDisk};
use lz_slot::Format;
use std::fs::File;
use std::io::Write;
use std::rt::Files;
use std::time::Clock;

/// Moves the keys of a file into a new one beside it, under locks of both, and gives that its name. Where a link was named, the file
/// itself is replaced. What another growth that was cut off left beside it is taken away first.
pub fn grow<R, W>(
    rt: &R,
    writer: &mut W,
    file: &str,
    slots: u64,
    format: Option<Format>,
) -> Result<Status, Fault>
where
    R: Files<File = File> + Eprint + Clock + AllocGlobal,
    W: Write + Drop,
    requires { IfSome format (λ f. last_room_of f ≡ last_room) }
{
    let mut replaced = Replaced::open(rt, file)?;
    let format = match format {
        Some(format) => format,
        None => roomy_format(rt, file, &mut replaced.disk, slots),
    };
    Ok(put_anew(rt, writer, file, replaced, slots, format)?.status)
}

/// How a file was put in the place of another one.
#[derive(Drop)]
pub struct Put {
    pub status: Status,
    /// Both with their locks. The new one is nobody's where it wasn't put.
    pub old: FileDisk,
    pub new: FileDisk,
}

/// Moves the keys of this file into a new one of this format beside it, which is locked and then takes its name, and says so as `grow_on`
/// does.
pub fn put_anew<R, W>(
    rt: &R,
    writer: &mut W,
    file: &str,
    replaced: Replaced,
    slots: u64,
    format: Format,
) -> Result<Put, Fault>
where
    R: Files<File = File> + Eprint + Clock + AllocGlobal,
    W: Write + Drop,
    requires { last_room_of format ≡ last_room }
{
    let Replaced { path, facts, disk } = replaced;
    let path = path.as_str();
    let beside = format!(in rt.alloc(); "{path}.grow")?;
    let mut new = create_beside(rt, beside.as_str(), &facts)?;
    new.gather(rt.alloc());
    let mut name = Name::new(rt, path, beside.as_str());
    let made = New {
        file: beside.as_str(),
        slots,
        format,
    };
    let old = Opened { path: file, disk };
    let (status, old, new) = grow_over(rt, writer, old, made, new, &mut name);
    say_cause(rt, file, old.cause());
    say_cause(rt, beside.as_str(), new.cause());
    name.end();
    Ok(Put { status, old, new })
}

/// The format of a file, where it has all rooms and so many slots; else one that has, of which it is said that it is another.
pub fn roomy_format<R: Eprint, D: Disk>(rt: &R, path: &str, disk: &mut D, slots: u64) -> Format
    ensures rooms { last_room_of result ≡ last_room }
    ensures nothing { IsTrue (D.device disk.old).honest → WritesNothing (D.device disk.old) (D.device disk.new) }
{
    let Some(header) = header_on(disk) else {
        return format_for(slots);
    };
    let format = kept_format(header.format, slots);
    if format != header.format {
        let (old, new) = (format_number(header.format), format_number(format));
        let _ = eprintln!(rt;
            "lazyset: {path}: the new file is of format {new}, in place of {old}"
        );
    }
    format
}
