//! The open of a slot file.
use crate::fault::Fault;
use crate::file::{disk, is_as_before};
use lz_disk::MemoryDisk;
use lz_slot::{Key, Slot};
use lz_vault::{OneThread, Opened, Refused, Vault, suit};

pub fn drill<R: Print + AllocGlobal>(rt: &R) -> Result<(), Fault> {
    let opened = open(rt)?;
    tell(rt, &opened)
}

fn open<R: Print + AllocGlobal>(rt: &R) -> Result<Opened<MemoryDisk>, Fault> {
    match Vault::open_with_members(rt.alloc(), disk(rt.alloc())?, &OneThread) {
        Ok(opened) => Ok(opened),
        Err(refused) => open_again(rt, refused),
    }
}

fn tell<R: Print>(rt: &R, opened: &Opened<MemoryDisk>) -> Result<(), Fault> {
    println!(rt; "Vault::open: {} slots", opened.vault.slots())?;
    for index in 0..opened.vault.slots() {
        if let Some(key) = key_in(&opened.members, index) {
            println!(rt; "slot {index} key {key}")?;
        }
    }
    Ok(())
}

// The key of the member in a slot.
fn key_in(members: &[(u64, Slot)], index: usize) -> Option<Key> {
    for place in 0..members.len() {
        let (rank, slot) = members[place];
        if slot.index() as usize == index {
            return Key::of_rank(rank);
        }
    }
    None
}

fn open_again<R: Print + AllocGlobal>(
    rt: &R,
    refused: Refused<MemoryDisk>,
) -> Result<Opened<MemoryDisk>, Fault> {
    let Refused { mut disk, fault } = refused;
    let told = fault;
    let number = told.number();
    if !is_as_before(fault, &disk) {
        return Err(Fault::Wrong);
    }
    println!(rt; "again Vault::open {number}")?;
    suit(&mut disk);
    match Vault::open_with_members(rt.alloc(), disk, &OneThread) {
        Ok(opened) => Ok(opened),
        Err(_) => Err(Fault::Wrong),
    }
}
