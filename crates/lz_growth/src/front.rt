//! A device that shows of a file that grows its slots alone.
ghost use Rattle.std.specs.Prelude.{◌≡◌, ◌≢◌, ◌⊎◌, ◌≤◌, ◌<◌, ◌+◌, ℕ, length, slice_index, IsTrue, IsFalse};
ghost use Rattle.lz_slot.specs.Limits.{most_slots};
ghost use Rattle.lz_growth.specs.Growths.{room_for};
ghost use Rattle.lz_growth.specs.Fronts.{IsFronted, KeepsFront, KeepsFront-prop};

use crate::tally::Tally;
use lz_disk::{DeviceFault, Disk};

// Where the last letter of a file's name is, which tells its format.
const LETTER: u64 = 7;

/// A file that grows as a file of format 4 with its slots, which ends after them. A write elsewhere than in the slots is refused.
#[derive(Drop)]
pub struct Front<D: Disk> {
    disk: D,
    slots: u64,
    /// The writes that were refused.
    refused: Tally,
    ghost keeps: { KeepsFront (D.device disk) slots } by { KeepsFront-prop (D.device disk) slots },
}

impl<D: Disk> Front<D> {
    ghost use Rattle.lz_growth.specs.Fronts.{IsBehind};

    /// The front of the file on this disk, which has so many slots.
    pub fn over(disk: D, slots: u64) -> Front<D>
        requires count { (1 ≤ slots) × (slots ≤ most_slots) }
        requires fronted { IsTrue (D.device disk).honest → IsFronted slots (D.device disk).medium }
        ensures behind { IsBehind (D.device disk) slots 0 (⟦<Front<D> as Disk>⟧.device result) }
        ensures slots { result.slots ≡ slots }
    {
        Front {
            disk,
            slots,
            refused: Tally::new(),
        }
    }

    /// The disk beneath.
    pub fn into_disk(self) -> D
        ensures behind { IsBehind (D.device result) self.slots self.refused.count (⟦<Front<D> as Disk>⟧.device self) }
        ensures fronted { IsTrue (D.device result).honest → IsFronted self.slots (D.device result).medium }
    {
        self.disk
    }

    // The length that is shown.
    fn length(&self) -> u64
        ensures { result ≡ room_for self.now.slots }
    {
        16 + 16 * self.slots
    }

    // Whether all of these bytes lie in slots.
    fn is_within(&self, at: u64, bytes: &[u8]) -> bool
        ensures within { IsTrue result → (16 ≤ at) × (at + length bytes.now ≤ room_for self.now.slots) }
        ensures outside { IsFalse result → (at < 16) ⊎ (room_for self.now.slots < at + length bytes.now) }
    {
        let end = self.length();
        at >= 16 && at <= end && bytes.len() as u64 <= end - at
    }
}

// Puts the format's letter where these bytes, which stand from there on in a file that grows, have it.
fn show_letter(at: u64, bytes: &mut [u8])
    ensures letter { (i : ℕ) → i < length bytes.old → at + i ≡ 7 → slice_index bytes.new i ≡ 0x34 }
    ensures others { (i : ℕ) → at + i ≢ 7 → slice_index bytes.new i ≡ slice_index bytes.old i }
{
    if at <= LETTER && LETTER - at < bytes.len() as u64 {
        bytes[(LETTER - at) as usize] = b'4';
    }
}

impl<D: Disk> Disk for Front<D> {
    ghost use Rattle.std.specs.Prelude.{IsErr, OnErr, OnOk};
    ghost use Rattle.lz_disk.specs.Images.{WriteFailed, written};
    ghost use Rattle.lz_disk.specs.Devices.{IsCall};
    ghost use Rattle.lz_growth.specs.Fronts.{device_behind};
    ghost use Rattle.lz_growth.specs.TimelyFronts as timely_front;

    ghost device = { λ front. device_behind (D.device front.disk) front.slots front.refused.count };

    ghost timely = { λ front honest. timely_front.timely (D.device front.disk) front.slots front.refused.count (D.timely front.disk honest) (front.keeps.fronted honest) };

    fn size(&mut self) -> Result<u64, DeviceFault> {
        self.disk.size()?;
        Ok(self.length())
    }

    fn read(&mut self, at: u64, buffer: &mut [u8]) -> Result<(), DeviceFault> {
        self.disk.read(at, buffer)?;
        show_letter(at, buffer);
        Ok(())
    }

    /// A write in the slots is the disk's. Any other is refused, and the disk isn't called.
    fn write(&mut self, at: u64, bytes: &[u8]) -> Result<(), DeviceFault>
        ensures call { let device = ⟦<Front<D> as Disk>⟧.device in IsCall (device self.old) (device self.new) (IsErr result) }
        ensures written { let device = ⟦<Front<D> as Disk>⟧.device in IsTrue (device self.old).honest
            → OnOk result ((device self.new).medium ≡ written (device self.old).medium at bytes.now) }
        ensures failed { let device = ⟦<Front<D> as Disk>⟧.device in IsTrue (device self.old).honest → OnErr result (((device self.new).medium ≡ (device self.old).medium)
            ⊎ WriteFailed (device self.old).medium at bytes.now (device self.new).medium) }
        ensures within { 16 ≤ at → at + length bytes.now ≤ room_for self.old.slots → self.new.refused.count ≡ self.old.refused.count }
        ensures outside { (at < 16) ⊎ (room_for self.old.slots < at + length bytes.now)
            → IsErr result × (self.new.disk ≡ self.old.disk) × (self.new.refused.count ≡ self.old.refused.count + 1) }
    {
        if !self.is_within(at, bytes) {
            self.refused.count_one();
            return Err(DeviceFault);
        }
        self.disk.write(at, bytes)
    }

    fn sync(&mut self) -> Result<(), DeviceFault> {
        self.disk.sync()
    }
}
