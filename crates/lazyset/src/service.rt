//! The service of a file, until it is asked to stop.
ghost use Rattle.std.specs.Prelude.{◌≡◌, option_map};
ghost use Rattle.lz_vault.specs.Opens.{MayOpen};
ghost use Rattle.lazyset_set_commands.specs.Marks.{KeptService};
ghost use Rattle.lazyset_set_commands.specs.Services.{IsServable};

use crate::at_path::{SocketFile, listen_at};
use crate::backlog::Backlog;
use crate::control::{Control, control_of};
use crate::ending::has_ended;
use crate::fault::Fault;
use crate::files::shown;
use crate::handed::{handed, is_of_six};
use crate::lines::Lines;
use crate::log::{Log, Stoppable, Surroundings};
use crate::moored::lease_of;
use crate::ready::Ready;
use crate::texts::wanted_by;
use crate::wanted::Answer;
use crate::watched::Watched;
use crate::way_out::WayOut;
use lazyset_arguments::Service;
use lazyset_set_commands::{Listener, Place, ServeOptions, Status, Wanted, serve_kept_on};
use lz_disk::{Disk, FileDisk};
use lz_serve::Loops;
use std::fs::File;
use std::io::Write;
use std::net::{Net, TcpListener, TcpStream};
use std::os::unix::net::UnixStream;
use std::rt::{Env, Files};
use std::sync::Wait;
use std::sync::atomic::{AtomicBool, AtomicUsize, Ordering};
use std::thread::{JoinHandle, Threads};
use std::time::Clock;
use std::{io, thread};

// How many connections may wait at a path, where the system allows as many.
const BACKLOG: i32 = 4_096;

// The options by which it hears whether it is to end.
const CONTROL: &str = "--control";

const UNTIL_EOF: &str = "--until-eof";

/// Where a service listens.
#[derive(Drop)]
pub enum At<'a> {
    /// On a port, or at the listener that was handed over in place of one.
    Port(Option<io::Result<TcpListener>>),
    /// At the socket of this path, with this mode.
    Path(&'a str, Option<u32>),
}

impl<'a> At<'a> {
    /// Where the command line says. What was handed over is taken before anything is opened that might get its number.
    pub fn of<R: Env + AllocGlobal>(rt: &R, service: Service<'a>) -> At<'a> {
        match service.socket {
            Some(path) => At::Path(path, service.mode),
            None => At::Port(handed(rt)),
        }
    }

    fn is_of_six(&self) -> bool {
        match self {
            At::Port(handed) => is_of_six(handed),
            At::Path(..) => false,
        }
    }

    // What mends it where it can't listen there, and more than that was chosen. A listener that was handed over isn't chosen.
    fn way_out(&self, port: u16, is_chosen: bool) -> WayOut {
        match self {
            At::Port(None) if is_chosen => WayOut::Port(port),
            At::Path(..) if is_chosen => WayOut::Path,
            _ => WayOut::Unsaid,
        }
    }

    // The same with its listener, where that isn't the command's to make.
    fn place<R: Files<File = File> + Net>(self, rt: &R) -> Place<'a> {
        match self {
            At::Port(None) => Place {
                listener: None,
                path: None,
            },
            At::Port(Some(handed)) => Place {
                listener: Some(handed.map(Listener::Port)),
                path: None,
            },
            At::Path(path, mode) => Place {
                listener: Some(listen_at(rt, path, mode, BACKLOG).map(Listener::Path)),
                path: Some(path),
            },
        }
    }
}

// The file of the socket that was made for a service.
fn socket_of<'a, R: Files<File = File>>(rt: &R, place: &Place<'a>) -> Option<SocketFile<'a>> {
    match (&place.listener, place.path) {
        (Some(Ok(_)), Some(path)) => SocketFile::at(rt, path),
        _ => None,
    }
}

/// Serves the set on this disk there. Who asked for its end hears of it once the file is closed. It is asked on this socket, where it had one
/// before it had the file.
pub fn serve<'a, R, W>(
    rt: &'a R,
    writer: W,
    disk: FileDisk,
    service: Service<'a>,
    at: At<'a>,
    bound: Option<Control>,
) -> Result<Status, Fault>
where
    R: Env + Files<File = File> + Eprint + AllocGlobal,
    R: Net<Listener = TcpListener, Stream = TcpStream> + Threads + Wait + Clock + Sync,
    W: Write + Drop,
    requires { IsServable service.options }
{
    let control = match control_or(rt, service, bound) {
        Ok(control) => control,
        Err(status) => return Ok(status),
    };
    let lease = match lease_of(rt, &disk, service.lease) {
        Ok(lease) => lease,
        Err(error) => return Ok(refuse_unleased(rt, service, &error)),
    };
    let Service { file, options, .. } = service;
    let wanted = wanted_by(options.loops, service.as_numbers, service.adopts);
    let watched = File::open(rt, file).ok().and_then(Watched::new);
    let around = surroundings_of(rt, &at, service);
    let place = at.place(rt);
    let disk = shown(rt, file, disk, bytes_read(rt, file, &wanted));
    let socket = socket_of(rt, &place);
    let log = Log::new(rt, file, watched, around, marks_of(options.loops), lease);
    let terms = Terms {
        options: &options,
        place,
        wanted,
    };
    let signals = EndSignals {
        control: control.as_ref(),
        until_eof: service.until_eof,
    };
    let Ended {
        status,
        disk,
        waiting,
        writer: _,
    } = serve_until(rt, writer, &log, disk, terms, signals);
    let disk = disk.end();
    log.say_cause(disk.cause());
    take_away_sockets(rt, service.control, socket);
    log.ended();
    drop(disk);
    for stream in &waiting {
        Answer::Ended.tell(stream);
    }
    Ok(log.status(status))
}

// That socket, or else the one that it makes now, where it has one.
fn control_or<R>(
    rt: &R,
    service: Service<'_>,
    bound: Option<Control>,
) -> Result<Option<Control>, Status>
where
    R: Files<File = File> + Net + Eprint,
{
    match bound {
        Some(control) => Ok(Some(control)),
        None => control_of(rt, service),
    }
}

// How many marks the file has, where keys are forgotten.
fn marks_of(loops: Option<Loops>) -> Option<&'static AtomicUsize> {
    Some(loops?.forgetting?.marks())
}

// Says that the lease can't be had. It doesn't serve without.
fn refuse_unleased<R>(rt: &R, service: Service<'_>, error: &io::Error) -> Status
where
    R: Files<File = File> + Eprint,
{
    let file = service.file;
    let _ = eprintln!(rt;
        "lazyset: serve {file}: --lease: no second descriptor of the file: {error}"
    );
    take_away_sockets(rt, service.control, None);
    Status::Failed
}

// How many bytes of the file are read before it is served: all, and where it matters what the keys are all once more.
fn bytes_read<R: Files>(rt: &R, file: &str, wanted: &Wanted) -> Option<u64> {
    let length = rt.metadata(file).ok()?.len();
    Some(match wanted {
        Wanted::Anything => length,
        _ => length.saturating_mul(2),
    })
}

// Where no journal has the time of each line, the log of loops has it.
fn surroundings_of<R>(rt: &R, at: &At<'_>, service: Service<'_>) -> Surroundings
where
    R: Env + Files<File = File> + AllocGlobal,
{
    let Service {
        options,
        chosen,
        ..
    } = service;
    Surroundings {
        way_out: at.way_out(options.port, chosen.passes),
        lines: Lines::of(rt, options.loops.is_some()),
        ready: Ready::new(rt),
        backlog: Backlog::new(rt, at.is_of_six()),
    }
}

fn take_away_sockets<R>(rt: &R, control: Option<&str>, socket: Option<SocketFile<'_>>)
where
    R: Files<File = File>,
{
    if let Some(path) = control {
        let _ = rt.remove_file(path);
    }
    if let Some(socket) = socket {
        socket.remove(rt);
    }
}

/// Tells how a set is served. The kit's borrow checker takes no type of several lifetimes, as a log's is, in a call whose signature names `'static`, as
/// the options do by the secret.
pub trait Telling {
    ghost use Rattle.lz_serve.specs.declared.options.ServeOptions.{ServeOptions};

    ghost told: { Self → ServeOptions };

    fn options(&self) -> ServeOptions
        ensures { result ≡ told self.now };
}

impl Telling for ServeOptions {
    ghost told = { λ options. options };

    fn options(&self) -> ServeOptions {
        *self
    }
}

/// How a set is served, where, and for what its keys are taken.
pub struct Terms<'a, T> {
    pub options: &'a T,
    pub place: Place<'a>,
    pub wanted: Wanted,
}

/// By what a service hears whether it is to end.
pub struct EndSignals<'a> {
    /// The socket on which it is asked to, where it has one.
    pub control: Option<&'a Control>,
    /// It is to end when standard input does.
    pub until_eof: bool,
}

/// What a service leaves.
pub struct Ended<D, W> {
    pub status: Status,
    pub disk: D,
    pub writer: W,
    /// Those who asked for its end, and wait for it.
    pub waiting: Vec<UnixStream>,
}

/// Serves the set on this disk, whichever disk that is, while others hear whether it is to end.
pub fn serve_until<R, W, O, D, T>(
    rt: &R,
    writer: W,
    log: &O,
    disk: D,
    terms: Terms<'_, T>,
    signals: EndSignals<'_>,
) -> Ended<D, W>
where
    R: Net<Listener = TcpListener, Stream = TcpStream>,
    R: Threads + Wait + Clock + AllocGlobal + Sync,
    W: Write + Drop,
    O: Stoppable + Sync,
    O::Tether: Send + Sync,
    D: Disk + Send + Drop,
    T: Telling,
    requires options { IsServable (T.told terms.options.now) }
    requires medium { MayOpen (D.device disk) }
    ensures ran { KeptService D.device terms.entry.wanted (T.told terms.entry.options.now).buckets (T.told terms.entry.options.now).passes (option_map (λ p. p.now) terms.entry.place.path) result.status (W.contents writer) (W.contents result.writer) disk result.disk }
{
    let Terms {
        options,
        place,
        wanted,
    } = terms;
    let EndSignals { control, until_eof } = signals;
    // The closure holds a `Vec`: of one that holds an `Option<&str>`, as the place does, and none, the kit can't state the contract.
    let nobody = Vec::new(rt.alloc());
    let is_over = &AtomicBool::new(false);
    thread::scope(
        thread::scope_env(),
        rt,
        move |scope| -> Ended<D, W>
            requires options { IsServable (T.told options.now) }
            requires medium { MayOpen (D.device disk) }
            ensures ran { KeptService D.device wanted (T.told options.entry.now).buckets (T.told options.entry.now).passes (option_map (λ p. p.now) place.entry.path) result.status (W.contents writer) (W.contents result.writer) disk result.disk }
        {
            let hearing = match control {
                Some(control) => {
                    let begun = scope.spawn(move || -> Vec<UnixStream> { control.hear(rt, log) });
                    heard_or_closed(log, control, begun)
                }
                None => None,
            };
            let reading = if until_eof {
                let begun = scope.spawn(move || -> () { stop_at_end(rt, log, is_over) });
                begun_or_said(log, UNTIL_EOF, begun)
            } else {
                None
            };
            let mut writer = writer;
            let options = options.options();
            let (status, disk) = serve_kept_on(rt, &mut writer, log, disk, options, place, wanted);
            end_hearing(control, is_over);
            Ended {
                status,
                disk,
                writer,
                waiting: join_both(rt, hearing, reading, nobody),
            }
        },
    )
}

// The thread that hears by this option whether the service is to end. Where it couldn't be made that is said.
fn begun_or_said<T: Drop, E: Drop, O: Stoppable>(
    log: &O,
    option: &str,
    begun: Result<JoinHandle<T>, E>,
) -> Option<JoinHandle<T>> {
    match begun {
        Ok(thread) => Some(thread),
        Err(_) => {
            log.deaf(option);
            None
        }
    }
}

// The same of the thread that hears on this socket. Who asks there is refused at once where nobody hears.
fn heard_or_closed<T: Drop, E: Drop, O: Stoppable>(
    log: &O,
    control: &Control,
    begun: Result<JoinHandle<T>, E>,
) -> Option<JoinHandle<T>> {
    let hearing = begun_or_said(log, CONTROL, begun);
    if hearing.is_none() {
        control.close();
    }
    hearing
}

// The service is over: nobody needs to hear whether it is to end.
fn end_hearing(control: Option<&Control>, is_over: &AtomicBool) {
    is_over.store(true, Ordering::SeqCst);
    if let Some(control) = control {
        control.close();
    }
}

// Waits for both threads that hear. Those who asked for the end, where somebody heard.
fn join_both<R: Threads>(
    rt: &R,
    hearing: Option<JoinHandle<Vec<UnixStream>>>,
    reading: Option<JoinHandle<()>>,
    nobody: Vec<UnixStream>,
) -> Vec<UnixStream> {
    let waiting = match hearing {
        Some(hearing) => hearing.join(rt),
        None => nobody,
    };
    if let Some(reading) = reading {
        reading.join(rt);
    }
    waiting
}

// Has the service end when standard input does.
fn stop_at_end<R, O>(rt: &R, log: &O, is_over: &AtomicBool)
where
    R: Net + Wait + AllocGlobal,
    O: Stoppable,
{
    if has_ended(rt, is_over) {
        log.stop();
    }
}
