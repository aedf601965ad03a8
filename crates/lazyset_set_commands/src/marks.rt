//! Marks: keys of room 15 that say what a file is for. A service of texts has one before its first key.
ghost use Rattle.std.specs.Prelude.{◌≡◌, ◌⊎◌, ◌≤◌, IfErr, IfOk, IsTrue, OnOk, codes, true, option_map};
ghost use Rattle.std.specs.String.{string_bytes};
ghost use Rattle.lz_slot.specs.Limits.{largest_key};
ghost use Rattle.lz_vault.specs.Opens.{MayOpen};
ghost use Rattle.lz_vault.specs.Renewals.{OnlySyncs};
ghost use Rattle.lazyset_file_commands.specs.Marks.{texts_mark};
ghost use Rattle.lazyset_set_commands.specs.Marks.{HoldsSome, IsFit, KeptService, Leaves, MarkFailed, MarksFailed, NotBegun, SealFailed, mark_line, marked, own_of, secret_step, sealed, step_for, with_mark};
ghost use Rattle.lazyset_set_commands.specs.Services.{IsServable, RefusedService};
ghost use Rattle.lazyset_file_commands.specs.Tellings.{Tells};

use crate::found::{Found, found_keys};
use crate::looking::{Heed, NoHeed};
use crate::running::run_on;
use crate::serving::{Place, serve_on};
use lazyset_file_commands::{Status, TEXTS_MARK, refuse, tell};
use lz_disk::{DeviceFault, Disk};
use lz_serve::{Leased, ServeOptions};
use lz_slot::Key;
use lz_vault::{OpenFault, read_members};
use std::alloc::{AllocError, Global};
use std::io::Write;
use std::net::{Net, TcpListener, TcpStream};
use std::sync::Wait;
use std::thread::Threads;
use std::time::Clock;

const OTHER_TEXT: &[u8] = b"othertext\n";

const OTHER_NUMBERS: &[u8] = b"othernumbers\n";

const OTHER_SECRET: &[u8] = b"othersecret\n";

/// What a service takes the keys of its file for.
#[derive(Clone, Copy, Debug, PartialEq, Eq)]
pub enum Wanted {
    /// Whatever they are: a mark is a key then.
    Anything,
    /// Numbers, so there is no mark.
    Numbers,
    /// Texts: the file has their mark, or no key.
    Texts,
    /// Texts, also those of a file from before there were marks.
    OlderTexts,
    /// Texts under the secret that has this mark: the file has it and the mark of texts, or no key but that one.
    Secret(Key),
}

// What is to be done before a service.
#[derive(Clone, Copy, Debug, PartialEq, Eq)]
enum Step {
    Serve,
    /// The mark of texts is to be added first, and the secret's where there is one.
    Mark,
    /// The secret's mark is to be added alone.
    Secret,
    /// It is refused: the keys are texts.
    OtherText,
    /// It is refused: the keys are numbers, or there are other marks.
    OtherNumbers,
    /// It is refused: the keys are texts under another secret, or under none.
    OtherSecret,
}

/// Serves the set that the disk holds, as `serve_on` does, once its keys are such as are wanted. An empty set gets the mark that its keys
/// are texts, where they are to be, and then the mark of the secret. Each is added by a session of its own, before anybody is served. Where
/// the keys are of another kind it says so, `othertext`, `othernumbers` or `othersecret`, and serves nobody. Where a mark couldn't be added
/// it says what that session was told.
pub fn serve_kept_on<R, W, O, D>(
    rt: &R,
    writer: &mut W,
    observer: &O,
    disk: D,
    options: ServeOptions,
    place: Place<'_>,
    wanted: Wanted,
) -> (Status, D)
where
    R: Net<Listener = TcpListener, Stream = TcpStream>,
    R: Threads + Wait + Clock + AllocGlobal + Sync,
    W: Write + Drop,
    O: Leased + Heed + Sync,
    O::Tether: Send + Sync,
    D: Disk + Send,
    requires options { IsServable options }
    requires medium { MayOpen (D.device disk) }
    ensures { KeptService D.device wanted options.buckets options.passes (option_map (λ p. p.now) place.entry.path) result.0 (W.contents writer.old) (W.contents writer.new) disk result.1 }
{
    match made_fit(rt, writer, disk, wanted) {
        Ok(disk) => serve_on(rt, writer, observer, disk, options, place),
        Err(refused) => refused,
    }
}

// The disk, whose keys are such as are wanted; or how the command ends, which was told, and the disk.
fn made_fit<R, W, D>(rt: &R, writer: &mut W, disk: D, wanted: Wanted) -> Result<D, (Status, D)>
where
    R: Wait + Clock + AllocGlobal,
    W: Write + Drop,
    D: Disk,
    requires { MayOpen (D.device disk) }
    ensures fit { IfOk result (λ mid. IsFit D.device wanted disk mid) }
    ensures may { IfOk result (λ mid. MayOpen (D.device mid)) }
    ensures untold { OnOk result (W.contents writer.new ≡ W.contents writer.old) }
    ensures err { IfErr result (λ refused. NotBegun D.device wanted refused.0 (W.contents writer.old) (W.contents writer.new) disk refused.1) }
{
    if wanted == Wanted::Anything {
        return Ok(disk);
    }
    let mut disk = disk;
    let own = own_of(&wanted);
    let found = match found_keys(&mut disk, &own) {
        Ok(Some(found)) => found,
        // Its open tells why.
        Ok(None) => return Ok(disk),
        Err(DeviceFault) => return Err((refuse(writer, OpenFault::Device), disk)),
    };
    match step_for(&wanted, found) {
        Step::Serve => Ok(disk),
        Step::Mark => mark_texts(rt, writer, disk, own),
        Step::Secret => seal(rt, writer, disk, own),
        Step::OtherText => Err(tell_other(rt.alloc(), writer, disk, OTHER_TEXT)),
        Step::OtherNumbers => Err(tell_other(rt.alloc(), writer, disk, OTHER_NUMBERS)),
        Step::OtherSecret => Err(tell_other(rt.alloc(), writer, disk, OTHER_SECRET)),
    }
}

// The mark of the secret that is wanted, if one is.
fn own_of(wanted: &Wanted) -> Option<Key>
    ensures { result ≡ own_of wanted.now }
{
    match wanted {
        Wanted::Secret(own) => Some(*own),
        Wanted::Anything | Wanted::Numbers | Wanted::Texts | Wanted::OlderTexts => None,
    }
}

// Says this line of a file whose keys are of the other kind, or, where an open would tell a fault of it, that.
fn tell_other<W, D>(alloc: Global, writer: &mut W, disk: D, line: &[u8]) -> (Status, D)
where
    W: Write + Drop,
    D: Disk,
    ensures { (Tells (W.contents writer.old) (W.contents writer.new) line.now Status.Refused result.0 × OnlySyncs (D.device disk) (D.device result.1) × (IsTrue (D.device disk).honest → HoldsSome (D.device disk).medium.seen)) ⊎ RefusedService D.device result.0 (W.contents writer.old) (W.contents writer.new) disk result.1 }
{
    let mut disk = disk;
    let _keys = match read_members(alloc, &mut disk) {
        Ok(keys) => keys,
        Err(fault) => return (refuse(writer, fault), disk),
    };
    (tell(writer, Status::Refused, line), disk)
}

// What is to be done before a service over a file of which this was found.
fn step_for(wanted: &Wanted, found: Found) -> Step
    ensures { result ≡ step_for wanted.now found }
{
    match wanted {
        Wanted::Anything => Step::Serve,
        Wanted::Numbers if found.mark => Step::OtherText,
        Wanted::Numbers => Step::Serve,
        _ if found.foreign => Step::OtherNumbers,
        _ if found.secret => Step::OtherSecret,
        Wanted::Texts | Wanted::OlderTexts if found.mark => Step::Serve,
        Wanted::Texts if found.bare => Step::Mark,
        Wanted::Texts => Step::OtherNumbers,
        Wanted::OlderTexts => Step::Mark,
        Wanted::Secret(_) => secret_step(found),
    }
}

// The same of texts under a secret, where no key is in the way.
fn secret_step(found: Found) -> Step
    ensures { result ≡ secret_step found.mark found.own found.bare }
{
    match (found.mark, found.own, found.bare) {
        (true, true, _) => Step::Serve,
        (true, false, true) => Step::Secret,
        (true, false, false) => Step::OtherSecret,
        (false, false, true) => Step::Mark,
        (false, true, _) | (false, false, false) => Step::OtherNumbers,
    }
}

// Adds the mark of texts, and then that of the secret, where there is one.
fn mark_texts<R, W, D>(rt: &R, writer: &mut W, disk: D, own: Option<Key>) -> Result<D, (Status, D)>
where
    R: Wait + Clock + AllocGlobal,
    W: Write + Drop,
    D: Disk,
    requires { MayOpen (D.device disk) }
    ensures left { IfOk result (λ mid. Leaves D.device (λ S. sealed own (marked S)) disk mid) }
    ensures may { IfOk result (λ mid. MayOpen (D.device mid)) }
    ensures untold { OnOk result (W.contents writer.new ≡ W.contents writer.old) }
    ensures err { IfErr result (λ refused. MarksFailed D.device own refused.0 (W.contents writer.old) (W.contents writer.new) disk refused.1) }
{
    match mark(rt, writer, disk, texts_mark()) {
        Ok(disk) => seal(rt, writer, disk, own),
        Err(refused) => Err(refused),
    }
}

// Adds the mark of the secret, where there is one.
fn seal<R, W, D>(rt: &R, writer: &mut W, disk: D, own: Option<Key>) -> Result<D, (Status, D)>
where
    R: Wait + Clock + AllocGlobal,
    W: Write + Drop,
    D: Disk,
    requires { MayOpen (D.device disk) }
    ensures left { IfOk result (λ mid. Leaves D.device (sealed own) disk mid) }
    ensures may { IfOk result (λ mid. MayOpen (D.device mid)) }
    ensures untold { OnOk result (W.contents writer.new ≡ W.contents writer.old) }
    ensures err { IfErr result (λ refused. SealFailed D.device own refused.0 (W.contents writer.old) (W.contents writer.new) disk refused.1) }
{
    match own {
        Some(own) => mark(rt, writer, disk, own),
        None => Ok(disk),
    }
}

fn texts_mark() -> Key
    ensures { result ≡ texts_mark }
{
    match Key::of_rank(TEXTS_MARK) {
        Some(mark) => mark,
        None => unreachable!(),
    }
}

// Adds this mark by a session of its own; where that isn't answered `yes` its text is told.
fn mark<R, W, D>(rt: &R, writer: &mut W, disk: D, mark: Key) -> Result<D, (Status, D)>
where
    R: Wait + Clock + AllocGlobal,
    W: Write + Drop,
    D: Disk,
    requires { MayOpen (D.device disk) }
    ensures left { IfOk result (λ mid. Leaves D.device (with_mark mark) disk mid) }
    ensures may { IfOk result (λ mid. MayOpen (D.device mid)) }
    ensures untold { OnOk result (W.contents writer.new ≡ W.contents writer.old) }
    ensures err { IfErr result (λ refused. MarkFailed D.device mark refused.0 (W.contents writer.old) (W.contents writer.new) disk refused.1) }
{
    // Want of memory for its line is told as that of an open.
    let Ok(line) = line_of(rt.alloc(), mark) else {
        return Err((refuse(writer, OpenFault::Memory), disk));
    };
    let mut line = line.as_bytes();
    let mut told: Vec<u8> = Vec::new(rt.alloc());
    let (status, disk) = run_on(rt, &mut line, &mut told, &NoHeed, disk, 1);
    if status == Status::Done && is_yes(&told) {
        return Ok(disk);
    }
    let status = match status {
        Status::Done => Status::Refused,
        other => other,
    };
    Err((tell(writer, status, &told), disk))
}

// The line that adds this mark.
fn line_of(alloc: Global, mark: Key) -> Result<String, AllocError>
    ensures text { IfOk result (λ line. string_bytes line ≡ mark_line mark) }
    ensures range { mark ≤ largest_key }
{
    format!(in alloc; "add {mark}\n")
}

fn is_yes(told: &[u8]) -> bool
    ensures { result ≡ true → told.now ≡ codes "yes\n" }
{
    matches!(told, [b'y', b'e', b's', b'\n'])
}
