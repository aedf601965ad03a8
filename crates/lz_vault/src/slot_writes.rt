//! What is written into a slot where a key is put into it, and where it is opened and closed; and what the answer tells.
ghost use Rattle.std.specs.Prelude.{◌≡◌, ◌+◌, ◌*◌, ◌||◌, is_err};
ghost use Rattle.lz_vault.specs.Vaults.{closing_bytes, key_call, opening_bytes, told_of};
ghost use Rattle.lz_vault.specs.SlotWrites.{bytes_of, call_of};

use crate::vault::{Stage, VaultFault};
use lz_disk::DeviceFault;
use lz_slot::{CLOSED_GATE, Format, Key, OPEN_GATE, Slot, slot_body, whole_slot};

// Bytes of a slot: its gate, those after it, or all.
#[derive(Clone, Copy)]
pub(crate) enum SlotBytes {
    Gate([u8; 1]),
    Body([u8; 15]),
    Whole([u8; 16]),
}

impl SlotBytes {
    pub(crate) fn as_slice(&self) -> &[u8]
        ensures { result.now ≡ bytes_of self.now }
    {
        match self {
            SlotBytes::Gate(bytes) => bytes,
            SlotBytes::Body(bytes) => bytes,
            SlotBytes::Whole(bytes) => bytes,
        }
    }
}

// Where a key is put into a slot that is at this stage: from where on which bytes are written, if any are.
pub(crate) fn key_write(
    format: Format,
    stage: Stage,
    slot: Slot,
    key: Key,
) -> Option<(u64, SlotBytes)>
    ensures { call_of result ≡ key_call format stage slot key }
{
    if format != Format::Four {
        return Some((start_of(slot) + 1, SlotBytes::Body(slot_body(key))));
    }
    match stage {
        Stage::Torn => Some((start_of(slot), SlotBytes::Whole([0; 16]))),
        _ => None,
    }
}

// What opens a slot for the key of this rank, from the slot's first byte on.
pub(crate) fn opening_bytes(format: Format, rank: u64) -> SlotBytes
    ensures { bytes_of result ≡ opening_bytes format rank }
{
    if format == Format::Four {
        return SlotBytes::Whole(whole_slot(rank));
    }
    SlotBytes::Gate([OPEN_GATE])
}

// What closes one.
pub(crate) fn closing_bytes(format: Format) -> SlotBytes
    ensures { bytes_of result ≡ closing_bytes format }
{
    if format == Format::Four {
        return SlotBytes::Whole([0; 16]);
    }
    SlotBytes::Gate([CLOSED_GATE])
}

// Where a slot's bytes begin.
pub(crate) fn start_of(slot: Slot) -> u64
    ensures { result ≡ 16 + 16 * slot }
{
    16 + 16 * slot.index() as u64
}

// What a device call answers the vault's caller. Once one has failed, the vault is dead.
pub(crate) fn answered(dead: &mut bool, call: Result<(), DeviceFault>) -> Result<(), VaultFault>
    ensures told { result ≡ told_of call }
    ensures dead { dead.new ≡ (dead.old || is_err call) }
{
    match call {
        Ok(()) => Ok(()),
        Err(DeviceFault) => {
            *dead = true;
            Err(VaultFault::Device)
        }
    }
}
