//! Fronts: what is written through one, what is refused, and what it shows.
use crate::files::{beyond, disk_with, file_with, slots_holding};
use lz_disk::{DeviceFault, Disk, MemoryDisk, Pick};
use lz_growth::{Front, slots_of};
use lz_slot::{Format, Key, Slot};
use lz_vault::{OneThread, Vault, VaultFault};
use std::alloc::Global;
use std::process::Abort;
use std::test::Fail;

const SLOTS: [Option<u64>; 5] = [None, Some(17), None, Some(5), None];

// The slots end before this byte.
const END: u64 = 16 + 16 * 5;

// The front of a file with these bytes.
fn front_over(alloc: Global, bytes: &[u8]) -> Result<Front<MemoryDisk>, Fail> {
    let mut disk = disk_with(alloc, bytes)?;
    let slots = slots_of(&mut disk)?;
    Ok(Front::over(disk, slots))
}

// Adds a key into a slot that is closed, and makes it durable. Tells whether the slot was closed.
fn add<D: Disk>(vault: &mut Vault<D>, slot: Slot, key: Key) -> Result<bool, VaultFault> {
    if vault.format() != Format::Four || slot.index() as usize >= vault.slots() {
        return Ok(false);
    }
    if !vault.stage(slot).is_closed() {
        return Ok(false);
    }
    vault.put_key(slot, key)?;
    vault.open_gate(slot, key)?;
    vault.sync()?;
    Ok(true)
}

// Adds 20, 21 and so on into the slots that are free, over a front, and gives the disk back.
#[tactic(auto, using(lz_disk::proofs::GrownRecords::flag_after))]
fn filled(alloc: Global, disk: MemoryDisk) -> Result<MemoryDisk, Fail> {
    let mut disk = disk;
    disk.set_bytewise();
    let slots = slots_of(&mut disk)?;
    let Ok(opened) = Vault::open_with_members(alloc, Front::over(disk, slots), &OneThread) else {
        return Err(Fail::from("refused"));
    };
    let mut vault = opened.vault;
    for index in 0..5 {
        let key = Key::new(20 + index as u64).ok_or("a key")?;
        add(&mut vault, Slot::new(index), key)?;
    }
    Ok(vault.close().into_disk())
}

#[test]
fn what_is_added_through_a_front_stays(rt: HostRuntime) -> Result<(), Fail> {
    let bytes = file_with(rt.alloc(), &SLOTS, &beyond()?)?;
    let disk = filled(rt.alloc(), disk_with(rt.alloc(), &bytes)?)?;
    let wanted = file_with(
        rt.alloc(),
        &[Some(20), Some(17), Some(22), Some(5), Some(24)],
        &beyond()?,
    )?;
    assert_eq!(rt; disk.bytes(), wanted.as_slice());
    for pick in [Pick::Old, Pick::New] {
        let left = disk.crashed(pick)?;
        let slots = slots_holding(rt.alloc(), left, &[5, 17, 20, 22, 24]);
        assert_eq!(rt; slots, Some(5), "{pick:?}");
    }
    Ok(())
}

// Whether the front refuses a write, which begins in what it shows or at its end.
fn is_refused(front: &mut Front<MemoryDisk>, at: u64, bytes: &[u8]) -> bool {
    match front.size() {
        Ok(size) if at <= size => front.write(at, bytes) == Err(DeviceFault),
        _ => false,
    }
}

#[test]
fn a_write_out_of_the_slots_is_refused(rt: HostRuntime) -> Result<(), Fail> {
    for (at, length) in [
        (0, 1),
        (0, 16),
        (0, 96),
        (7, 1),
        (8, 8),
        (15, 1),
        (15, 16),
        (15, 17),
        (END - 16, 17),
        (END - 15, 16),
        (END - 1, 2),
        (END, 1),
        (END, 20),
    ] {
        let bytes = file_with(rt.alloc(), &SLOTS, &beyond()?)?;
        let mut front = front_over(rt.alloc(), &bytes)?;
        let text = vec![in rt.alloc(); 0x77; length]?;
        assert!(rt; is_refused(&mut front, at, &text), "{length} bytes at {at}");
        let disk = front.into_disk();
        assert_eq!(rt; disk.bytes(), bytes.as_slice(), "{length} bytes at {at}");
        let left = disk.crashed(Pick::Nth(0))?;
        assert_eq!(rt; left.bytes(), bytes.as_slice(), "{length} bytes at {at}");
    }
    Ok(())
}

// A file of 96 bytes or more.
#[test]
fn a_front_ends_after_its_slots(rt: HostRuntime) -> Result<(), Fail> {
    for length in [0, 1, 15, 16, 20, 4_096] {
        let more = vec![in rt.alloc(); 0xa5; length]?;
        let bytes = file_with(rt.alloc(), &SLOTS, &more)?;
        let mut front = front_over(rt.alloc(), &bytes)?;
        assert_eq!(rt; front.size(), Ok(96), "{length} bytes more");
        assert_eq!(rt; front.into_disk().size(), Ok(96 + length as u64));
    }
    Ok(())
}

// The first 16 bytes of a device.
fn head_of<D: Disk>(disk: &mut D) -> Option<[u8; 16]> {
    let mut head = [0; 16];
    match disk.size() {
        Ok(size) if size >= 16 => {
            disk.read(0, &mut head).ok()?;
            Some(head)
        }
        _ => None,
    }
}

#[test]
fn a_front_shows_the_head_of_format_4(rt: HostRuntime) -> Result<(), Fail> {
    let bytes = file_with(rt.alloc(), &SLOTS, &beyond()?)?;
    let mut front = front_over(rt.alloc(), &bytes)?;
    let shown = head_of(&mut front);
    assert_eq!(rt; shown, Some(*b"\xa5LZYSET4\0\0\0\0\0\0\0\x05"));
    let mut disk = front.into_disk();
    let there = head_of(&mut disk);
    assert_eq!(rt; there, Some(*b"\xa5LZYSET5\0\0\0\0\0\0\0\x05"));
    Ok(())
}
