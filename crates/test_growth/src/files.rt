//! Files that grow, byte by byte, and what an open finds in them.
use lz_disk::MemoryDisk;
use lz_growth::{Front, slots_of};
use lz_slot::{Format, Key, Slot, member_bytes};
use lz_vault::{OneThread, Vault};
use std::alloc::{AllocError, Global};
use std::test::Fail;

/// A file that grows, of these slots, each of which holds the key of this number or none, and the bytes that lie after them.
pub fn file_with(alloc: Global, slots: &[Option<u64>], beyond: &[u8]) -> Result<Vec<u8>, Fail> {
    let mut bytes = Vec::new(alloc);
    bytes.extend_from_slice(b"\xa5LZYSET5")?;
    bytes.extend_from_slice(&(slots.len() as u64).to_be_bytes())?;
    for number in slots {
        bytes.extend_from_slice(&slot_with(*number)?)?;
    }
    bytes.extend_from_slice(beyond)?;
    Ok(bytes)
}

/// The bytes of a slot that holds the key of this number or none.
pub fn slot_with(number: Option<u64>) -> Result<[u8; 16], Fail> {
    let Some(number) = number else {
        return Ok([0; 16]);
    };
    let key = Key::new(number).ok_or("a key")?;
    Ok(member_bytes(Format::Four, key))
}

/// Bytes that lie after the slots: a whole slot, which holds 9, and four open gates.
pub fn beyond() -> Result<[u8; 20], Fail> {
    let mut bytes = [0xa5; 20];
    bytes[..16].copy_from_slice(&slot_with(Some(9))?);
    Ok(bytes)
}

/// A bytewise disk with these bytes, all of them durable.
pub fn disk_with(alloc: Global, bytes: &[u8]) -> Result<MemoryDisk, AllocError> {
    let mut disk = MemoryDisk::new(alloc, bytes.to_vec(alloc)?)?;
    disk.set_bytewise();
    Ok(disk)
}

/// How many slots a file has that holds the keys of these numbers, in ascending order, and no other.
#[tactic(auto, using(lz_disk::proofs::GrownRecords::flag_after))]
pub fn slots_holding(alloc: Global, disk: MemoryDisk, numbers: &[u64]) -> Option<u64> {
    let mut disk = disk;
    disk.set_bytewise();
    let slots = slots_of(&mut disk).ok()?;
    let front = Front::over(disk, slots);
    let Ok(opened) = Vault::open_with_members(alloc, front, &OneThread) else {
        return None;
    };
    let is_open = opened.vault.slots() as u64 == slots && opened.vault.opened() == numbers.len();
    if is_open && are_numbers(&opened.members, numbers) {
        Some(slots)
    } else {
        None
    }
}

// The members' ranks are these numbers, since their keys are in the first room.
fn are_numbers(members: &[(u64, Slot)], numbers: &[u64]) -> bool {
    members.len() == numbers.len()
        && members
            .iter()
            .zip(numbers)
            .all(|((rank, _), number)| rank == number)
}
