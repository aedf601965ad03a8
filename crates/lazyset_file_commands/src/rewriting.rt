//! The rewriting of a file in its own place: each byte is written where it was read.
ghost use Rattle.std.specs.Prelude.{◌≡◌, ◌⊎◌, ◌+◌, ◌*◌, ◌<◌, ◌≤◌, ℕ, false, true, length, take, IsErr, IsErrOf, IsTrue, IfOk, OnOk};
ghost use Rattle.lz_slot.specs.Limits.{most_slots};
ghost use Rattle.lz_disk.specs.Images.{IsImage, Medium, synced};
ghost use Rattle.lz_disk.specs.Devices.{LeavesOnly};
ghost use Rattle.lz_vault.specs.Makes.{WritesNothing};
ghost use Rattle.lz_vault.specs.Scans.{OnlyReads};
ghost use Rattle.lazyset_file_commands.specs.Rewritings.{IsRewrittenTo, IsWholeFour, KeepsImages, LeavesAny, calls_of_rewriting, pieces_of_bytes};

use lz_disk::{DeviceFault, Disk};
use lz_slot::{Format, read_header};

// The bytes that are read and written at once.
const PIECE: u64 = 65_536;

/// Why a file was not written anew.
#[derive(Clone, Copy, Debug, PartialEq, Eq)]
pub enum RewriteFault {
    /// It is no whole file of format 4: nothing was written.
    Format,
    Device,
}

/// Writes a file of format 4 anew in its own place: once what is read is durable, each of its bytes is read and written where it was, and
/// all of them are made durable. It gives the number of slots. So what a device keeps in several copies, which may differ where a writer
/// died, becomes one. Nothing of the slots is judged: what an open refuses stays as it is.
pub fn rewrite<D: Disk>(disk: &mut D) -> Result<u64, RewriteFault>
    ensures same { IsTrue (D.device disk.old).honest → OnOk result ((D.device disk.new).medium ≡ synced (D.device disk.old).medium) }
    ensures whole { IsTrue (D.device disk.old).honest → IfOk result (IsWholeFour (D.device disk.old).medium.seen) }

    // A crash at any moment leaves what it might have left before, where a device keeps to the bytes that were written.
    ensures any_moment { IsTrue (D.device disk.old).honest → (D.device disk.old).medium.bytewise ≡ true → LeavesOnly (D.device disk.old) (D.device disk.new) (IsImage (D.device disk.old).medium) }

    // There the same is read after it too, done or failed.
    ensures seen { IsTrue (D.device disk.old).honest → (D.device disk.old).medium.bytewise ≡ true → (D.device disk.new).medium.seen ≡ (D.device disk.old).medium.seen }

    // Each byte is written, and none is left out: on a device that doesn't keep to them a crash might have left any.
    ensures written { IsTrue (D.device disk.old).honest → (D.device disk.old).medium.bytewise ≡ false → OnOk result (LeavesAny (D.device disk.old) (D.device disk.new)) }
    ensures calls { IfOk result (λ n. (D.device disk.new).calls ≡ (D.device disk.old).calls + calls_of_rewriting n) }

    // Where the file isn't a whole one of format 4, nothing is written at any moment.
    ensures refused { IsTrue (D.device disk.old).honest → IsErrOf result RewriteFault.Format → (n : ℕ) → ¬ IsWholeFour (D.device disk.old).medium.seen n }
    ensures safe { IsTrue (D.device disk.old).honest → ((n : ℕ) → ¬ IsWholeFour (D.device disk.old).medium.seen n) → WritesNothing (D.device disk.old) (D.device disk.new) }
    ensures device { IsErrOf result RewriteFault.Device → (D.device disk.old).faults < (D.device disk.new).faults }
    ensures faults { (D.device disk.old).faults ≤ (D.device disk.new).faults }
    ensures honest { (D.device disk.new).honest ≡ (D.device disk.old).honest }
{
    let slots = slots_of(disk)?;
    match write_whole(disk, 16 + 16 * slots) {
        Ok(()) => Ok(slots),
        Err(DeviceFault) => Err(RewriteFault::Device),
    }
}

// Makes durable what is read, and gives the number of slots of a whole file of format 4.
fn slots_of<D: Disk>(disk: &mut D) -> Result<u64, RewriteFault>
    ensures keeps { KeepsImages (Unit {0}) (D.device disk.old) (D.device disk.new) }
    ensures medium { IsTrue (D.device disk.old).honest → ((D.device disk.new).medium ≡ (D.device disk.old).medium) ⊎ ((D.device disk.new).medium ≡ synced (D.device disk.old).medium) }
    ensures sure { IsTrue (D.device disk.old).honest → OnOk result ((D.device disk.new).medium ≡ synced (D.device disk.old).medium) }
    ensures whole { IsTrue (D.device disk.old).honest → IfOk result (IsWholeFour (D.device disk.old).medium.seen) }
    ensures size { IsTrue (D.device disk.old).honest → IfOk result (λ n. 16 + 16 * n ≡ length (D.device disk.old).medium.seen) }
    ensures range { IfOk result (λ n. n ≤ most_slots) }
    ensures refused { IsTrue (D.device disk.old).honest → IsErrOf result RewriteFault.Format → (n : ℕ) → ¬ IsWholeFour (D.device disk.old).medium.seen n }
    ensures device { IsErrOf result RewriteFault.Device → (D.device disk.old).faults < (D.device disk.new).faults }
    ensures calls { OnOk result ((D.device disk.new).calls ≡ (D.device disk.old).calls + 3) }
{
    let size = match durable_size(disk) {
        Ok(size) => size,
        Err(DeviceFault) => return Err(RewriteFault::Device),
    };
    let head = match read_head(disk, size) {
        Ok(head) => head,
        Err(DeviceFault) => return Err(RewriteFault::Device),
    };
    let header = match read_header(&head, size) {
        Ok(header) => header,
        Err(_) => return Err(RewriteFault::Format),
    };
    match header.format {
        Format::Four => Ok(header.slots),
        _ => Err(RewriteFault::Format),
    }
}

// Makes durable what is read, and gives its size.
fn durable_size<D: Disk>(disk: &mut D) -> Result<u64, DeviceFault>
    ensures keeps { KeepsImages (Unit {0}) (D.device disk.old) (D.device disk.new) }
    ensures medium { IsTrue (D.device disk.old).honest → ((D.device disk.new).medium ≡ (D.device disk.old).medium) ⊎ ((D.device disk.new).medium ≡ synced (D.device disk.old).medium) }
    ensures sure { IsTrue (D.device disk.old).honest → OnOk result ((D.device disk.new).medium ≡ synced (D.device disk.old).medium) }
    ensures size { IsTrue (D.device disk.old).honest → IfOk result (λ size. size ≡ length (D.device disk.old).medium.seen) }
    ensures cause { IsErr result → (D.device disk.old).faults < (D.device disk.new).faults }
    ensures calls { OnOk result ((D.device disk.new).calls ≡ (D.device disk.old).calls + 2) }
{
    disk.sync()?;
    disk.size()
}

// The head of a file of this size, if it is long enough for one.
fn read_head<D: Disk>(disk: &mut D, size: u64) -> Result<[u8; 16], DeviceFault>
    requires { IsTrue (D.device disk.old).honest → size ≡ length (D.device disk.old).medium.seen }
    ensures reads { OnlyReads (D.device disk.old) (D.device disk.new) }
    ensures ok { IsTrue (D.device disk.old).honest → IfOk result (λ head. 16 ≤ size → head ≡ take 16 (D.device disk.old).medium.seen) }
    ensures cause { IsErr result → (D.device disk.old).faults < (D.device disk.new).faults }
    ensures calls { 16 ≤ size → (D.device disk.new).calls ≡ (D.device disk.old).calls + 1 }
{
    let mut head = [0; 16];
    if size < 16 {
        return Ok(head);
    }
    disk.read(0, &mut head)?;
    Ok(head)
}

// Writes so many bytes anew, which are all, and makes them durable.
fn write_whole<D: Disk>(disk: &mut D, size: u64) -> Result<(), DeviceFault>
    requires { IsTrue (D.device disk.old).honest → size ≡ length (D.device disk.old).medium.seen }
    ensures keeps { KeepsImages ((D.device disk.old).medium.bytewise ≡ true) (D.device disk.old) (D.device disk.new) }
    ensures same { IsTrue (D.device disk.old).honest → OnOk result ((D.device disk.new).medium ≡ synced (D.device disk.old).medium) }
    ensures written { IsTrue (D.device disk.old).honest → (D.device disk.old).medium.bytewise ≡ false → OnOk result (LeavesAny (D.device disk.old) (D.device disk.new)) }
    ensures cause { IsErr result → (D.device disk.old).faults < (D.device disk.new).faults }
    ensures calls { OnOk result ((D.device disk.new).calls ≡ (D.device disk.old).calls + 2 * pieces_of_bytes size + 1) }
{
    match write_pieces(disk, size) {
        Ok(()) => disk.sync(),
        Err(fault) => Err(fault),
    }
}

// Writes so many bytes anew, which are all, upwards.
fn write_pieces<D: Disk>(disk: &mut D, size: u64) -> Result<(), DeviceFault>
    requires { IsTrue (D.device disk.old).honest → size ≡ length (D.device disk.old).medium.seen }
    ensures keeps { KeepsImages ((D.device disk.old).medium.bytewise ≡ true) (D.device disk.old) (D.device disk.new) }
    ensures written { IsTrue (D.device disk.old).honest → OnOk result (IsRewrittenTo (D.device disk.old).medium size (D.device disk.new).medium) }
    ensures cause { IsErr result → (D.device disk.old).faults < (D.device disk.new).faults }
    ensures calls { OnOk result ((D.device disk.new).calls ≡ (D.device disk.old).calls + 2 * pieces_of_bytes size) }
{
    let mut piece = [0; PIECE as usize];
    let mut done = 0;
    while done < size {
        let count = PIECE.min(size - done);
        write_piece(disk, done, &mut piece[..count as usize])?;
        done += count;
    }
    Ok(())
}

// Writes the bytes from there on anew, as many as the piece has room for.
fn write_piece<D: Disk>(disk: &mut D, at: u64, piece: &mut [u8]) -> Result<(), DeviceFault>
    requires { IsTrue (D.device disk.old).honest → at + length piece.old ≤ length (D.device disk.old).medium.seen }
    ensures keeps { KeepsImages ((D.device disk.old).medium.bytewise ≡ true) (D.device disk.old) (D.device disk.new) }
    ensures written { IsTrue (D.device disk.old).honest
        → OnOk result ((start : Medium) → IsRewrittenTo start at (D.device disk.old).medium → IsRewrittenTo start (at + length piece.old) (D.device disk.new).medium) }
    ensures cause { IsErr result → (D.device disk.old).faults < (D.device disk.new).faults }
    ensures calls { OnOk result ((D.device disk.new).calls ≡ (D.device disk.old).calls + 2) }
{
    disk.read(at, piece)?;
    disk.write(at, piece)
}
