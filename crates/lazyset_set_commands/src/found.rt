//! What keys a file has, by one pass over its slots.
ghost use Rattle.std.specs.Prelude.{◌≡◌, ◌+◌, ◌*◌, ◌/◌, ◌%◌, ◌==◌, ◌<◌, ◌≤◌, ℕ, length, take, IfErr, IfOk, IfSome, IsTrue, OnOk, Ok, None, false, true};
ghost use Rattle.lz_slot.specs.Bytes.{Holds, format_of, header_read, slot_at};
ghost use Rattle.lz_slot.specs.Limits.{most_slots};
ghost use Rattle.lz_slot.specs.Sets.{Keys};
ghost use Rattle.lz_slot.specs.declared.slot.SlotRead.{SlotRead};
ghost use Rattle.lz_disk.specs.Images.{synced};
ghost use Rattle.lz_vault.specs.Opens.{IsRefusedFor};
ghost use Rattle.lz_vault.specs.Renewals.{OnlySyncs};
ghost use Rattle.lz_vault.specs.Scans.{OnlyReads, SaysPiece};
ghost use Rattle.lz_vault.specs.declared.opening.OpenFault.{OpenFault};
ghost use Rattle.lazyset_file_commands.specs.Marks.{texts_mark};
ghost use Rattle.lazyset_set_commands.specs.Founds.{TellsFound, found_below, is_foreign, is_own, is_secret, with_key, with_slot};

use lazyset_file_commands::{FIRST_SECRET_MARK, LAST_SECRET_MARK, TEXTS_MARK};
use lz_disk::{DeviceFault, Disk};
use lz_slot::{Format, Header, Key, MAX_NUMBER, SlotRead, read_header, read_slot};

// The slots that are read at once.
const SLOTS_AT_ONCE: u64 = 1_024;

/// What keys a file has, for a service whose secret may have a mark of its own.
#[derive(Clone, Copy, Debug, PartialEq, Eq)]
pub(crate) struct Found {
    /// The mark that they are texts.
    pub(crate) mark: bool,
    /// The service's own mark.
    pub(crate) own: bool,
    /// The mark of another secret, of any where the service has none.
    pub(crate) secret: bool,
    /// One that no file of texts has.
    pub(crate) foreign: bool,
    /// None but maybe the mark of texts.
    pub(crate) bare: bool,
}

impl Found {
    // With a key more.
    fn with_key(self, own: &Option<Key>, key: Key) -> Found
        ensures { result ≡ with_key own.now self key }
    {
        Found {
            mark: self.mark || is_texts_mark(key),
            own: self.own || is_own(own, key),
            secret: self.secret || is_secret(own, key),
            foreign: self.foreign || is_foreign(own, key),
            bare: self.bare && is_texts_mark(key),
        }
    }

    // With a slot more. That its bytes are no key's is left to an open to tell.
    fn with_slot(self, own: &Option<Key>, slot: SlotRead) -> Found
        ensures { result ≡ with_slot own.now self slot }
    {
        match slot {
            SlotRead::Member(key) => self.with_key(own, key),
            SlotRead::Closed | SlotRead::Torn | SlotRead::BadKey => self,
        }
    }

    // With the slots whose bytes these are.
    fn with_piece(self, own: &Option<Key>, format: Format, piece: &[u8]) -> Found
        requires { length piece.now % 16 ≡ 0 }
        ensures { (says : ℕ → SlotRead) (n : ℕ) → SaysPiece format says n piece.now → self ≡ found_below own.now says n → result ≡ found_below own.now says (n + length piece.now / 16) }
    {
        let mut found = self;
        for index in 0..piece.len() / 16 {
            let mut bytes = [0; 16];
            bytes.copy_from_slice(&piece[16 * index..16 * index + 16]);
            found = found.with_slot(own, read_slot(format, &bytes));
        }
        found
    }
}

// Whether this key is the mark that keys are texts.
fn is_texts_mark(key: Key) -> bool
    ensures { result ≡ (key == texts_mark) }
{
    key.rank() == TEXTS_MARK
}

// Whether it is the service's own mark.
fn is_own(own: &Option<Key>, key: Key) -> bool
    ensures { result ≡ is_own own.now key }
{
    match own {
        Some(own) => key.rank() == own.rank(),
        None => false,
    }
}

// Whether it is the mark of another secret.
fn is_secret(own: &Option<Key>, key: Key) -> bool
    ensures { result ≡ is_secret own.now key }
{
    let rank = key.rank();
    rank >= FIRST_SECRET_MARK && rank <= LAST_SECRET_MARK && !is_own(own, key)
}

// Whether no file of texts has this key, under any secret.
fn is_foreign(own: &Option<Key>, key: Key) -> bool
    ensures { result ≡ is_foreign own.now key }
{
    key.rank() > MAX_NUMBER && !is_texts_mark(key) && !is_own(own, key) && !is_secret(own, key)
}

/// Makes durable what is read, and says what keys the file has, or nothing where its head is no set's. Faults of its slots are left to an
/// open to tell.
pub(crate) fn found_keys<D: Disk>(
    disk: &mut D,
    own: &Option<Key>,
) -> Result<Option<Found>, DeviceFault>
    ensures reads { OnlySyncs (D.device disk.old) (D.device disk.new) }
    ensures sure { IsTrue (D.device disk.old).honest → OnOk result ((D.device disk.new).medium ≡ synced (D.device disk.old).medium) }
    ensures free { OnOk result (¬ (D.device disk.old).must_fail) }
    ensures keys { (N : ℕ) (S : Keys) → IsTrue (D.device disk.old).honest → Holds (D.device disk.old).medium.seen N S → TellsFound own.now S result }
    ensures err { IfErr result (λ fault. IsRefusedFor (D.device disk.old) (D.device disk.new) OpenFault.Device) }
{
    if let Err(DeviceFault) = disk.sync() {
        return Err(DeviceFault);
    }
    match head_of(disk) {
        Ok(Some(header)) => match found_in(disk, own, header) {
            Ok(found) => Ok(Some(found)),
            Err(DeviceFault) => Err(DeviceFault),
        },
        Ok(None) => Ok(None),
        Err(DeviceFault) => Err(DeviceFault),
    }
}

// The first bytes of a file of this size, or zeros where it has fewer.
fn front_of<D: Disk>(disk: &mut D, size: u64) -> Result<[u8; 16], DeviceFault>
    requires { IsTrue (D.device disk.old).honest → size ≡ length (D.device disk.old).medium.seen }
    ensures reads { OnlyReads (D.device disk.old) (D.device disk.new) }
    ensures ok { IsTrue (D.device disk.old).honest → IfOk result (λ front. 16 ≤ size → front ≡ take 16 (D.device disk.old).medium.seen) }
    ensures err { IfErr result (λ fault. (D.device disk.old).faults < (D.device disk.new).faults) }
{
    let mut front = [0; 16];
    if size < 16 {
        return Ok(front);
    }
    match disk.read(0, &mut front) {
        Ok(()) => Ok(front),
        Err(DeviceFault) => Err(DeviceFault),
    }
}

// The head of a file, where it is a set's.
fn head_of<D: Disk>(disk: &mut D) -> Result<Option<Header>, DeviceFault>
    ensures reads { OnlyReads (D.device disk.old) (D.device disk.new) }
    ensures range { IfOk result (λ head. IfSome head (λ header. header.slots ≤ most_slots)) }
    ensures some { IsTrue (D.device disk.old).honest → let t = (D.device disk.old).medium.seen in IfOk result (λ head. IfSome head (λ header. (length t ≡ 16 + 16 * header.slots) × (header.format ≡ format_of t))) }
    ensures none { IsTrue (D.device disk.old).honest → result ≡ Ok None → (N : ℕ) (S : Keys) → Holds (D.device disk.old).medium.seen N S → ⊥ }
    ensures err { IfErr result (λ fault. (D.device disk.old).faults < (D.device disk.new).faults) }
{
    let size = match disk.size() {
        Ok(size) => size,
        Err(DeviceFault) => return Err(DeviceFault),
    };
    let front = match front_of(disk, size) {
        Ok(front) => front,
        Err(DeviceFault) => return Err(DeviceFault),
    };
    match read_header(&front, size) {
        Ok(header) => Ok(Some(header)),
        Err(_) => Ok(None),
    }
}

// What keys stand in the slots of a file with this head.
fn found_in<D: Disk>(disk: &mut D, own: &Option<Key>, header: Header) -> Result<Found, DeviceFault>
    requires range { header.slots ≤ most_slots }
    requires file { IsTrue (D.device disk.old).honest → length (D.device disk.old).medium.seen ≡ 16 + 16 * header.slots }
    requires format { IsTrue (D.device disk.old).honest → header.format ≡ format_of (D.device disk.old).medium.seen }
    ensures reads { OnlyReads (D.device disk.old) (D.device disk.new) }
    ensures found { IsTrue (D.device disk.old).honest → IfOk result (λ found. found ≡ found_below own.now (slot_at (D.device disk.old).medium.seen) header.slots) }
    ensures err { IfErr result (λ fault. (D.device disk.old).faults < (D.device disk.new).faults) }
{
    let mut piece = [0; 16 * SLOTS_AT_ONCE as usize];
    let mut found = Found {
        mark: false,
        own: false,
        secret: false,
        foreign: false,
        bare: true,
    };
    let mut done = 0;
    while done < header.slots {
        let count = SLOTS_AT_ONCE.min(header.slots - done);
        let bytes = &mut piece[..16 * count as usize];
        if let Err(DeviceFault) = disk.read(16 + 16 * done, bytes) {
            return Err(DeviceFault);
        }
        found = found.with_piece(own, header.format, bytes);
        done += count;
    }
    Ok(found)
}
