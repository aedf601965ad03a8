//! What a command line asks of a service.
ghost use Rattle.std.specs.Prelude.{◌≡◌, ◌≤◌, IfSome, true};
ghost use Rattle.lz_slot.specs.Limits.{most_buckets};
ghost use Rattle.lz_serve.specs.Options.{most_connections};
ghost use Rattle.clap.specs.Words.{found_of};
ghost use Rattle.lazyset_arguments.specs.Requests.{ArePasses, AreWithin, IsToldLease, IsToldPeriod, IsWithin, SpeakTexts};

use crate::ids::{
    ADOPT, CONNECTIONS_ID, CONTROL_ID, FORGET_ID, LINES_ID, NUMBERS_ID, PASSES_ID, RESP_ID,
    REWRITE_ID, SECRET_ID, SOCKET_ID, SOCKET_MODE_ID, STANDBY_ID, TEXT_ID,
};
use crate::lease::named_lease;
use crate::period::{Period, named_period};
use crate::request::Request;
use crate::values::{named_mode, number, number_within, text};
use clap::ArgMatches;
use lz_resp::Naming;
use lz_serve::{Language, Loops, MOST_CONNECTIONS, MOST_THREADS, ServeOptions};
use lz_slot::{MOST_BUCKETS, MOST_PASSES};

// The port of a service that names none.
const USUAL_PORT: u16 = 7_000;

// How many commands are carried out at once where PASSES are left out.
const USUAL_PASSES: usize = MOST_PASSES;

/// What a service takes as it finds it, since its command line doesn't name it.
#[derive(Clone, Copy)]
pub struct Chosen {
    /// PASSES were left out, and so whatever isn't named is chosen.
    pub passes: bool,
    /// As many buckets as the file has slots, or as its format allows.
    pub buckets: bool,
    /// As many connections as descriptors allow.
    pub connections: bool,
    /// A control socket beside the file.
    pub control: bool,
}

impl Chosen {
    fn by(words: &ArgMatches<'_>) -> Chosen {
        let passes = words.get_str(PASSES_ID).is_none();
        let has_connections = words.get_str(CONNECTIONS_ID).is_some();
        Chosen {
            passes,
            buckets: (passes || has_connections) && words.get_str("buckets").is_none(),
            connections: passes && !has_connections,
            control: passes && words.get_str(CONTROL_ID).is_none(),
        }
    }
}

/// What a command line asks of a service.
#[derive(Clone, Copy)]
pub struct Service<'a> {
    pub file: &'a str,
    pub options: ServeOptions,
    /// What it takes as it finds it, in place of those of its options.
    pub chosen: Chosen,
    /// The path of the socket on which it listens, in place of a port.
    pub socket: Option<&'a str>,
    /// The path of the socket on which it is asked to stop.
    pub control: Option<&'a str>,
    /// The mode of both sockets.
    pub mode: Option<u32>,
    /// It stops when standard input ends.
    pub until_eof: bool,
    /// It waits where another process has the file. Its control socket is named then.
    pub stands_by: bool,
    /// It writes the file anew before it opens it. It has waited for the file then.
    pub rewrites: bool,
    /// For so many milliseconds from the start of a sync it may answer. Its options have loops then.
    pub lease: Option<u64>,
    /// It goes on where the file can't be locked.
    pub no_lock: bool,
    /// Its keys are taken for numbers, whatever the file says.
    pub as_numbers: bool,
    /// Its keys are texts, of a file from before there were marks of that.
    pub adopts: bool,
    /// The path of the secret that is hashed before each text.
    pub secret: Option<&'a str>,
    /// For how long it keeps a text, where it forgets. Its options have loops that speak frames of texts alone then.
    pub forgets: Option<Period>,
}

/// What older texts don't have.
#[derive(Clone, Copy)]
pub(crate) enum Lack {
    Secret,
    Epochs,
}

/// A mode that no socket can have.
#[derive(Clone, Copy)]
pub(crate) enum StrayMode<'a> {
    /// This is no mode in octal.
    Unread(&'a str),
    /// There is no socket.
    OfNone,
}

pub(crate) fn serve<'a>(words: &ArgMatches<'a>) -> Option<Request<'a>>
    ensures within { IfSome result IsWithin }
    ensures period { IfSome result (IsToldPeriod (found_of words.now)) }
    ensures lease { IfSome result (IsToldLease (found_of words.now)) }
{
    let options = serve_options(words)?;
    let mode = named_mode(words, SOCKET_MODE_ID)?;
    if mode.is_some() && !has_socket(words) || lacking(words).is_some() {
        return None;
    }
    let forgets = named_period(words)?;
    if forgets.is_some() && !speak_texts(options.loops) {
        return None;
    }
    let lease = named_lease(words)?;
    if lease.is_some() && options.loops.is_none() {
        return None;
    }
    let control = text(words, CONTROL_ID);
    let stands_by = words.get_flag(STANDBY_ID);
    let rewrites = words.get_flag(REWRITE_ID);
    if stands_by && control.is_none() || rewrites && !stands_by {
        return None;
    }
    Some(Request::Serve(Service {
        file: text(words, "FILE")?,
        options,
        chosen: Chosen::by(words),
        socket: text(words, SOCKET_ID),
        control,
        mode,
        until_eof: words.get_flag("until-eof"),
        stands_by,
        rewrites,
        lease,
        no_lock: words.get_flag("no-lock"),
        as_numbers: words.get_flag(NUMBERS_ID),
        adopts: words.get_str(TEXT_ID) == Some(ADOPT),
        secret: text(words, SECRET_ID),
        forgets,
    }))
}

// Whether it makes a socket at a path: one without PASSES makes that on which it is asked to stop.
fn has_socket(words: &ArgMatches<'_>) -> bool {
    let is_named = words.get_str(SOCKET_ID).is_some() || words.get_str(CONTROL_ID).is_some();
    is_named || words.get_str(PASSES_ID).is_none()
}

// What older texts are to have that they don't: there were no secrets, and no epochs, when they were added.
fn lacking(words: &ArgMatches<'_>) -> Option<Lack> {
    if words.get_str(TEXT_ID) != Some(ADOPT) {
        None
    } else if words.get_str(SECRET_ID).is_some() {
        Some(Lack::Secret)
    } else if words.get_str(FORGET_ID).is_some() {
        Some(Lack::Epochs)
    } else {
        None
    }
}

// Whether clients speak frames alone, whose names are texts. By a line one would add to an epoch, or take a mark away.
fn speak_texts(loops: Option<Loops>) -> bool
    ensures { result ≡ true → SpeakTexts loops }
{
    match loops {
        Some(loops) => matches!(loops.language, Language::Frames(Naming::Texts(None))),
        None => false,
    }
}

/// What a service is to have of older texts that it adopts, which they don't.
pub(crate) fn lacked(matches: &ArgMatches<'_>) -> Option<Lack> {
    match matches.subcommand()? {
        ("serve", words) => lacking(words),
        _ => None,
    }
}

/// The mode of a service's sockets that is none, or that no socket has.
pub(crate) fn stray_mode<'a>(matches: &ArgMatches<'a>) -> Option<StrayMode<'a>> {
    let ("serve", words) = matches.subcommand()? else {
        return None;
    };
    let word = text(words, SOCKET_MODE_ID)?;
    if named_mode(words, SOCKET_MODE_ID).is_none() {
        Some(StrayMode::Unread(word))
    } else if !has_socket(words) {
        Some(StrayMode::OfNone)
    } else {
        None
    }
}

/// The passes of a service that can't have them, and how many it may have.
pub(crate) fn beyond(matches: &ArgMatches<'_>) -> Option<(u64, usize)> {
    let ("serve", words) = matches.subcommand()? else {
        return None;
    };
    let most = match words.get_str(CONNECTIONS_ID) {
        Some(_) => MOST_PASSES,
        None => MOST_THREADS,
    };
    match number_within(words, PASSES_ID, most) {
        Some(_) => None,
        None => Some((number(words, PASSES_ID)?, most)),
    }
}

// How the command line asks to serve.
fn serve_options(matches: &ArgMatches<'_>) -> Option<ServeOptions>
    ensures passes { IfSome result (λ options. ArePasses options.passes options.loops) }
    ensures buckets { IfSome result (λ options. (1 ≤ options.buckets) × (options.buckets ≤ most_buckets)) }
    ensures loops { IfSome result (λ options. IfSome options.loops (AreWithin options.passes)) }
{
    let buckets = match matches.get_str("buckets") {
        Some(_) => number_within(matches, "buckets", MOST_BUCKETS)?,
        None => 1,
    };
    let (passes, loops) = shape_of(matches)?;
    Some(ServeOptions {
        port: port_of(matches)?,
        passes,
        loops,
        sessions: number(matches, "sessions")?,
        buckets,
        idle: number(matches, "idle")?,
    })
}

// The port, which a service at a path doesn't have.
fn port_of(matches: &ArgMatches<'_>) -> Option<u16> {
    if matches.get_str(SOCKET_ID).is_some() {
        return Some(0);
    }
    match number(matches, "PORT") {
        Some(port) => u16::try_from(port).ok(),
        None => Some(USUAL_PORT),
    }
}

// How many passes there are, and the loops that serve where a thread doesn't for each of them.
fn shape_of(matches: &ArgMatches<'_>) -> Option<(usize, Option<Loops>)>
    ensures passes { IfSome result (λ shape. ArePasses shape.0 shape.1) }
    ensures loops { IfSome result (λ shape. IfSome shape.1 (AreWithin shape.0)) }
{
    if matches.get_str(PASSES_ID).is_none() {
        let loops = loops_of(matches, USUAL_PASSES)?;
        return Some((USUAL_PASSES, Some(loops)));
    }
    match matches.get_str(CONNECTIONS_ID) {
        Some(_) => {
            let passes = number_within(matches, PASSES_ID, MOST_PASSES)?;
            Some((passes, Some(loops_of(matches, passes)?)))
        }
        None => Some((number_within(matches, PASSES_ID, MOST_THREADS)?, None)),
    }
}

// The loops that the command line asks for, each of which needs a thread, a pass and a connection.
fn loops_of(matches: &ArgMatches<'_>, passes: usize) -> Option<Loops>
    requires { 1 ≤ passes }
    ensures { IfSome result (AreWithin passes) }
{
    let connections = connections_of(matches)?;
    let count = match matches.get_str("loops") {
        Some(_) => number_within(matches, "loops", passes.min(MOST_THREADS))?,
        None => 1,
    };
    Some(Loops {
        count: count.min(connections),
        connections,
        language: language_of(matches),
        forgetting: None,
    })
}

// How many connections they serve at once: where that is left out the most that may be.
fn connections_of(matches: &ArgMatches<'_>) -> Option<usize>
    ensures { IfSome result (λ n. (1 ≤ n) × (n ≤ most_connections)) }
{
    match matches.get_str(CONNECTIONS_ID) {
        Some(_) => number_within(matches, CONNECTIONS_ID, MOST_CONNECTIONS),
        None => Some(MOST_CONNECTIONS),
    }
}

// What their clients speak: where no language is named, and PASSES were left out, each client the one that it begins with. Of texts under a secret,
// or in epochs, frames, since a line names a key by its room and number.
fn language_of(matches: &ArgMatches<'_>) -> Language {
    let naming = if matches.contains_id(TEXT_ID) {
        Naming::Texts(None)
    } else {
        Naming::Rooms
    };
    let are_hidden = matches.get_str(SECRET_ID).is_some() || matches.get_str(FORGET_ID).is_some();
    if matches.get_flag(RESP_ID) || are_hidden {
        Language::Frames(naming)
    } else if matches.get_flag(LINES_ID) || matches.get_str(PASSES_ID).is_some() {
        Language::Lines
    } else {
        Language::Either(naming)
    }
}
