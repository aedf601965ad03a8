//! The command that rehearses a script.
ghost use Rattle.std.specs.Prelude.{◌≡◌, ◌⊎◌, ◌≤◌};
ghost use Rattle.lz_slot.specs.Limits.{most_actors, most_buckets, most_rehearsed};
ghost use Rattle.lz_slot.specs.declared.format.Format.{Format as AFormat};
ghost use Rattle.lz_machine.specs.Yards.{Shape};
ghost use Rattle.lz_core.specs.Worlds.{IsNew};
ghost use Rattle.lazyset_file_commands.specs.Ends.{rehearsal_status};
ghost use Rattle.lazyset_file_commands.specs.Rehearsals.{IsRehearsal, IsRehearsed, IsUnread, OfScript, RehearsedAll, RehearsedTo, fault_text};
ghost use Rattle.lazyset_file_commands.specs.Tellings.{LacksMemory, Tells};

use crate::refusal::refuse_line;
use crate::status::Status;
use crate::telling::{NO_MEMORY, NO_READ, tell};
use lz_core::World;
use lz_rehearsal::{Line, RehearsalFault, Script, ScriptFault, rehearse};
use lz_slot::Format;
use std::alloc::{AllocError, Global};
use std::io::{Read, Write};

/// Reads a script, rehearses it on a new set of so many slots and buckets in a file of this format, and writes what is seen as it comes. Refused, with
/// `line L`, where the script doesn't read, and then nothing was rehearsed, or where a line isn't lawful where it stands.
/// Failed, with `noread` or `nomemory`, where a read failed or there was no memory, and where a write failed: then a beginning was
/// written of what is seen and of the line with which it would have ended.
pub fn rehearse_on<R: Read, W: Write + Drop>(
    alloc: Global,
    reader: &mut R,
    writer: &mut W,
    slots: usize,
    buckets: usize,
    format: Format,
) -> Status
    requires slots { (1 ≤ slots) × (slots ≤ most_rehearsed) }
    requires buckets { (1 ≤ buckets) × (buckets ≤ most_buckets) }
    ensures told { IsRehearsed (record { slots = slots; buckets = buckets; passes = most_actors }) format (R.remaining reader.old) result (W.contents writer.old) (W.contents writer.new) }
    ensures done { result ≡ Status.Done → OfScript (λ lines.
        RehearsedAll (record { slots = slots; buckets = buckets; passes = most_actors }) format lines result (W.contents writer.old) (W.contents writer.new)) (R.remaining reader.old) }
    ensures refused { result ≡ Status.Refused → IsUnread (R.remaining reader.old) result (W.contents writer.old) (W.contents writer.new) ⊎ OfScript (λ lines.
        RehearsedTo (record { slots = slots; buckets = buckets; passes = most_actors }) format lines result (W.contents writer.old) (W.contents writer.new)) (R.remaining reader.old) }
    ensures other { (result ≡ Status.Done) ⊎ (result ≡ Status.Refused) ⊎ (result ≡ Status.Failed) }
{
    match Script::read(alloc, reader) {
        Ok(script) => rehearse_lines(alloc, script.lines(), writer, slots, buckets, format),
        Err(ScriptFault::Line(number)) => refuse_line(writer, number),
        Err(ScriptFault::Read) => tell(writer, Status::Failed, NO_READ),
        Err(ScriptFault::Memory) => tell(writer, Status::Failed, NO_MEMORY),
    }
}

// Rehearses the lines of a script on a new set.
fn rehearse_lines<W: Write + Drop>(
    alloc: Global,
    lines: &[Line],
    writer: &mut W,
    slots: usize,
    buckets: usize,
    format: Format,
) -> Status
    requires slots { (1 ≤ slots) × (slots ≤ most_rehearsed) }
    requires buckets { (1 ≤ buckets) × (buckets ≤ most_buckets) }
    ensures { IsRehearsal (record { slots = slots; buckets = buckets; passes = most_actors }) format lines.now result (W.contents writer.old) (W.contents writer.new)
        ⊎ LacksMemory (W.contents writer.old) (W.contents writer.new) result }
{
    match World::new(alloc, slots, buckets, format) {
        Ok(mut world) => rehearse_world(alloc, &mut world, lines, writer),
        Err(AllocError) => tell(writer, Status::Failed, NO_MEMORY),
    }
}

// Rehearses the lines on this world.
fn rehearse_world<W: Write + Drop>(
    alloc: Global,
    world: &mut World,
    lines: &[Line],
    writer: &mut W,
) -> Status
    ensures { (shape : Shape) (format : AFormat) → IsNew shape format world.old → IsRehearsal shape format lines.now result (W.contents writer.old) (W.contents writer.new) }
{
    match rehearse(alloc, world, lines, writer) {
        Ok(()) => Status::Done,
        Err(fault) => tell_fault(writer, fault),
    }
}

// Tells why a rehearsal ended before its script did.
fn tell_fault<W: Write + Drop>(writer: &mut W, fault: RehearsalFault) -> Status
    ensures { Tells (W.contents writer.old) (W.contents writer.new) (fault_text fault) (rehearsal_status fault) result }
{
    match fault {
        RehearsalFault::Line(number) => refuse_line(writer, number),
        RehearsalFault::Write => Status::Failed,
        RehearsalFault::Memory => tell(writer, Status::Failed, NO_MEMORY),
    }
}
