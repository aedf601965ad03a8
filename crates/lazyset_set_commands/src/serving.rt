//! The command that serves a set over the network.
ghost use Rattle.std.specs.Prelude.{◌≡◌, ◌⊎◌, ◌≤◌, ◌==◌, ◌∷◌, ◌++◌, [], ℕ, All, Ok, Err, length, map, true, false, option_map};
ghost use Rattle.std.specs.List.{list_any};
ghost use Rattle.lz_vault.specs.Opens.{MayOpen};
ghost use Rattle.lz_board.specs.Seats.{part};
ghost use Rattle.lz_set.specs.Blanks.{MayBeNamed};
ghost use Rattle.lz_set.specs.Names.{MayCall};
ghost use Rattle.lz_proto.specs.Steps.{SendTells};
ghost use Rattle.lz_serve.specs.Services.{Serves, parts_of};
ghost use Rattle.lazyset_set_commands.specs.Services.{AreUnused, HadNoPlace, HadPlace, IsServable, RanService, RefusedService, ServedPasses, TellsPlace, TellsPort, path_text};

use crate::looking::{Heed, first_sees_mark};
use crate::sorting::AllProcessors;
use lazyset_file_commands::{Status, refuse, send_line, tell};
use lz_disk::Disk;
use lz_proto::{SessionFault, send};
use lz_serve::{Leased, Listener, ServeOptions, Served, Serving, serve, serve_loops};
use lz_set::{Blank, Named, NoGate, Pass, Set};
use lz_vault::Refused;
use std::io;
use std::io::Write;
use std::marker::Brand;
use std::net::{Net, TcpListener, TcpStream};
use std::sync::Wait;
use std::thread::Threads;
use std::time::Clock;

// What is said where the service can't listen.
const NO_PORT: &[u8] = b"noport\n";

/// Where a service listens.
#[derive(Drop)]
pub struct Place<'a> {
    /// The listener that it was given, where it was given one, if that could be had.
    pub listener: Option<io::Result<Listener>>,
    /// The path of that listener, which is told in place of its port.
    pub path: Option<&'a str>,
}

/// Opens the set that the disk holds and serves it at the listener that was given, or else on a port of 127.0.0.1, with a thread for
/// each pass, each of which serves one connection after the other, or with loops, each of which serves many connections. The observer is
/// told once the service stands, whether the set's keys are texts, and where the device failed. Says `listening P` before the first connection, where P is the port or the
/// path, `refused N` of a refused open as a run does, and `noport` where it can't listen there. It serves nobody where `listening P` can't
/// be written. It ends when each pass,
/// or loop, has served its sessions, and hands the disk back: Failed where a call was answered that the set is halted or that the device
/// failed, or where nobody was served, as when out of memory.
pub fn serve_on<R, W, O, D>(
    rt: &R,
    writer: &mut W,
    observer: &O,
    disk: D,
    options: ServeOptions,
    place: Place<'_>,
) -> (Status, D)
where
    R: Net<Listener = TcpListener, Stream = TcpStream>,
    R: Threads + Wait + Clock + AllocGlobal + Sync,
    W: Write + Drop,
    O: Leased + Heed + Sync,
    O::Tether: Send + Sync,
    D: Disk + Send,
    requires options { IsServable options }
    requires medium { MayOpen (D.device disk) }
    // Either the passes of the set that was opened were served, or there was no place to listen, or the open was refused.
    ensures ran { RanService D.device options.buckets options.passes (option_map (λ p. p.now) place.entry.path) result.0 (W.contents writer.old) (W.contents writer.new) disk result.1
        ⊎ RefusedService D.device result.0 (W.contents writer.old) (W.contents writer.new) disk result.1 }
    ensures honest { (D.device result.1).honest ≡ (D.device disk).honest }
    ensures faults { (D.device disk).faults ≤ (D.device result.1).faults }
{
    let sorter = AllProcessors { rt };
    match Set::open_by(
        rt.alloc(),
        disk,
        NoGate,
        &sorter,
        options.buckets,
        options.passes,
    ) {
        Ok(blank) => serve_blank::<R, W, O, D, Brand>(rt, writer, observer, blank, options, place),
        Err(refused) => {
            let Refused { disk, fault } = refused;
            (refuse(writer, fault), disk)
        }
    }
}

// Listens, and serves the set.
fn serve_blank<R, W, O, D, N>(
    rt: &R,
    writer: &mut W,
    observer: &O,
    blank: Blank<D, NoGate>,
    options: ServeOptions,
    place: Place<'_>,
) -> (Status, D)
where
    R: Net<Listener = TcpListener, Stream = TcpStream>,
    R: Threads + Wait + Clock + AllocGlobal + Sync,
    W: Write + Drop,
    O: Leased + Heed + Sync,
    O::Tether: Send + Sync,
    D: Disk + Send,
    N: Named + Send + Sync,
    requires { MayBeNamed D.device N.board N.first N.format blank }
    ensures { HadPlace N.board N.first (option_map (λ p. p.now) place.entry.path) result.0 (W.contents writer.old) (W.contents writer.new) (D.device result.1) ⊎ HadNoPlace N.board N.first (option_map (λ p. p.now) place.entry.path) result.0 (W.contents writer.old) (W.contents writer.new) (D.device result.1) }
{
    let serving = Serving {
        slots: blank.slots(),
        members: blank.members(),
        buckets: options.buckets,
        passes: options.passes,
        loops: options.loops,
    };
    let Place { listener, path } = place;
    let (set, fresh) = blank.start::<N>();
    let (listener, port) = match listen(rt, options.port, listener) {
        Ok(taken) => taken,
        Err(error) => {
            observer.no_port(error);
            return (tell(writer, Status::Failed, NO_PORT), set.close());
        }
    };
    observer.serving(serving, &listener);
    let mut passes = fresh;
    let mark = first_sees_mark(&set, &mut passes);
    observer.found(serving.members, mark);
    if !tell_place(writer, path, port) {
        return (Status::Failed, set.close());
    }
    serve_passes(rt, observer, &listener, set, passes, options)
}

// Serves the passes, of which none has made a call, and ends the set's life after them.
fn serve_passes<R, O, D, N>(
    rt: &R,
    observer: &O,
    listener: &Listener,
    set: Set<D, NoGate, N>,
    passes: Vec<Pass>,
    options: ServeOptions,
) -> (Status, D)
where
    R: Net + Threads + Wait + Clock + AllocGlobal + Sync,
    O: Leased + Sync,
    O::Tether: Send + Sync,
    D: Disk + Send,
    N: Named + Send + Sync,
    requires may_call { All (MayCall N.board) passes.items }
    requires count { length passes.items ≡ N.board.sizes.passes }
    requires unused { AreUnused (map (λ p. part p) passes.items) }
    ensures { ServedPasses N.board N.first result.0 (D.device result.1) }
{
    let given = passes.len();
    let Served {
        passes,
        halted,
        unserved,
    } = serve_set(rt, listener, &set, passes, options, observer);
    let all = has_each(&passes, given);
    let mut passes = passes;
    let disk = set.close_with(passes.as_mut_slice());
    (status_of_service(halted, unserved, all), disk)
}

// Serves by loops where there are any, and else by a thread for each pass.
fn serve_set<R, O, D, N>(
    rt: &R,
    listener: &Listener,
    set: &Set<D, NoGate, N>,
    passes: Vec<Pass>,
    options: ServeOptions,
    observer: &O,
) -> Served
where
    R: Net + Threads + Wait + Clock + AllocGlobal + Sync,
    O: Leased + Sync,
    O::Tether: Send + Sync,
    D: Disk + Send,
    N: Named + Send + Sync,
    requires may_call { All (MayCall N.board) passes.items }
    ensures { Serves N.board (parts_of passes.items) passes result }
{
    let bounds = options.bounds();
    match options.loops {
        Some(loops) => serve_loops(rt, listener, set, passes, loops, bounds, observer),
        None => serve(rt, listener, set, passes, bounds, observer),
    }
}

// Whether the passes of all these numbers, from 1 on, are among them.
fn has_each(passes: &[Pass], given: usize) -> bool
    ensures each { result ≡ true → (k : ℕ) → 1 ≤ k → k ≤ given → list_any (λ p. p.number == k) passes.now ≡ true }
    ensures not_each { result ≡ false → (k : ℕ) × (1 ≤ k) × (k ≤ given) × (list_any (λ p. p.number == k) passes.now ≡ false) }
{
    for number in 1..=given {
        if !has_number(passes, number) {
            return false;
        }
    }
    true
}

// Whether the pass of this number is among them.
fn has_number(passes: &[Pass], number: usize) -> bool
    ensures { result ≡ list_any (λ p. p.number == number) passes.now }
{
    passes.iter().any(|pass| pass.number() == number)
}

// The status after a service, and whether each of its passes was handed back.
fn status_of_service(halted: bool, unserved: bool, all: bool) -> Status
    ensures done { result ≡ Status.Done → (halted ≡ false) × (all ≡ true) }
    ensures failed { result ≡ Status.Failed → (halted ≡ true) ⊎ ((unserved ≡ true) ⊎ (all ≡ false)) }
    ensures other { (result ≡ Status.Done) ⊎ (result ≡ Status.Failed) }
{
    if halted || unserved || !all {
        Status::Failed
    } else {
        Status::Done
    }
}

// The listener that was given, or else one on a port of the loopback interface, and its port, 0 where it has none.
fn listen<R>(rt: &R, port: u16, given: Option<io::Result<Listener>>) -> io::Result<(Listener, u16)>
where
    R: Net<Listener = TcpListener, Stream = TcpStream>,
{
    let listener = match given {
        Some(given) => given?,
        None => Listener::Port(TcpListener::bind(rt, ("127.0.0.1", port))?),
    };
    let taken = match &listener {
        Listener::Port(listener) => listener.local_addr()?.port(),
        Listener::Path(_) => 0,
    };
    Ok((listener, taken))
}

// Says where the service listens, at this path or else on this port, and whether that was written.
fn tell_place<W: Write>(writer: &mut W, path: Option<&str>, port: u16) -> bool
    ensures told { result ≡ true → TellsPlace (option_map (λ p. p.now) path.entry) (W.contents writer.old) (W.contents writer.new) (Ok tt) }
    ensures untold { result ≡ false → TellsPlace (option_map (λ p. p.now) path.entry) (W.contents writer.old) (W.contents writer.new) (Err SessionFault.Write) }
{
    match path {
        Some(path) => tell_path(writer, path),
        None => tell_port(writer, port),
    }
}

// Says at which path the service listens, and whether that was written.
fn tell_path<W: Write>(writer: &mut W, path: &str) -> bool
    ensures told { result ≡ true → SendTells (W.contents writer.old) (W.contents writer.new) (path_text path.now) (Ok tt) }
    ensures untold { result ≡ false → SendTells (W.contents writer.old) (W.contents writer.new) (path_text path.now) (Err SessionFault.Write) }
{
    let sent = send_path(writer, path);
    let _ = writer.flush();
    sent.is_ok()
}

// Sends the line of a path.
fn send_path<W: Write>(writer: &mut W, path: &str) -> Result<(), SessionFault>
    ensures { SendTells (W.contents writer.old) (W.contents writer.new) (path_text path.now) result }
{
    if let Err(fault) = send(writer, b"listening ") {
        return Err(fault);
    }
    send_ended(writer, path)
}

// Sends a text, and the end of its line.
fn send_ended<W: Write>(writer: &mut W, text: &str) -> Result<(), SessionFault>
    ensures { SendTells (W.contents writer.old) (W.contents writer.new) (text.now ++ 10 ∷ []) result }
{
    if let Err(fault) = send(writer, text.as_bytes()) {
        return Err(fault);
    }
    send(writer, b"\n")
}

// Says on which port the service listens, and whether that was written.
fn tell_port<W: Write>(writer: &mut W, port: u16) -> bool
    ensures told { result ≡ true → TellsPort (W.contents writer.old) (W.contents writer.new) (Ok tt) }
    ensures untold { result ≡ false → TellsPort (W.contents writer.old) (W.contents writer.new) (Err SessionFault.Write) }
{
    let sent = send_line(writer, b"listening ", u64::from(port));
    let _ = writer.flush();
    sent.is_ok()
}
