//! What a command line asks for.
ghost use Rattle.std.specs.Prelude.{◌≡◌, ◌≤◌, IfOk, IfSome, length};
ghost use Rattle.lz_resp.specs.Limits.{most_argument};
ghost use Rattle.lz_slot.specs.Limits.{last_room};
ghost use Rattle.lz_slot.specs.Rooms.{last_room_of};
ghost use Rattle.lazyset_arguments.specs.Requests.{IsWithin};

use crate::command::command_line;
use crate::given::Given;
use crate::ids::{SECRET_ID, TEXT_ID};
use crate::misfit::misfit;
use crate::refusal::{Refusal, refusal_of};
use crate::service::{Service, serve};
use crate::values::{format_of, format_with_rooms, named_format, number, number_within, text};
use clap::ArgMatches;
use lz_resp::MOST_ARGUMENT;
use lz_slot::{Format, LAST_ROOM, MOST_BUCKETS, MOST_REHEARSED};
use std::alloc::{AllocError, Global};
use std::fmt;

/// A file that is to be made.
#[derive(Clone, Copy)]
pub struct New<'a> {
    pub file: &'a str,
    pub slots: u64,
    pub format: Format,
}

/// A set of texts, of which a file is to be made.
#[derive(Clone, Copy)]
pub struct SetOfTexts<'a> {
    pub name: &'a str,
    /// The path of the secret that is hashed before each text.
    pub secret: Option<&'a str>,
}

/// A copy of what a running service holds.
#[derive(Clone, Copy)]
pub struct Wish<'a> {
    pub address: &'a str,
    pub file: &'a str,
    /// Where none are named, those of the service.
    pub slots: Option<u64>,
    /// Where none is named, one with all rooms and so many slots; that of the service where no slots are named.
    pub format: Option<Format>,
    /// It takes the place of a set.
    pub replaces: bool,
}

/// A command, with its words.
#[derive(Clone, Copy)]
pub enum Request<'a> {
    Make(New<'a>),
    /// A making of a file that holds the keys of standard input. Where a set of texts is given its lines are members of that, and no keys.
    MakeKeys(New<'a>, Option<SetOfTexts<'a>>),
    /// A making of a file that holds the keys of the one that stands first.
    Renew(&'a str, New<'a>),
    /// A renewal into a new file that takes the old one's place.
    Grow {
        file: &'a str,
        slots: u64,
        /// Where none is named, that of the file, or one with all rooms and so many slots.
        format: Option<Format>,
    },
    Copy(Wish<'a>),
    Run {
        file: &'a str,
        buckets: usize,
        /// It goes on where the file can't be locked.
        no_lock: bool,
    },
    Serve(Service<'a>),
    /// Asks the service with this control socket to stop, and waits for its end, up to so many seconds.
    Stop {
        path: &'a str,
        within: u64,
    },
    /// Asks the service with this control socket to clear a room, and waits until it did.
    Clear {
        path: &'a str,
        room: u8,
    },
    Info {
        file: &'a str,
    },
    Check {
        file: &'a str,
        of: Option<&'a str>,
    },
    /// A check that prints the keys alone.
    Keys {
        file: &'a str,
    },
    Judge {
        file: &'a str,
    },
    Rehearse {
        slots: usize,
        buckets: usize,
        format: Format,
    },
}

/// The command and the files that it names.
impl fmt::Display for Request<'_> {
    fn fmt<W: fmt::Write>(&self, f: &mut fmt::Formatter<W>) -> fmt::Result {
        match *self {
            Request::Make(New { file, .. }) | Request::MakeKeys(New { file, .. }, _) => {
                write!(f, "make {file}")
            }
            Request::Renew(old, New { file, .. }) => write!(f, "renew {old} {file}"),
            Request::Grow { file, .. } => write!(f, "grow {file}"),
            Request::Copy(Wish { address, file, .. }) => write!(f, "copy {address} {file}"),
            Request::Run { file, .. } => write!(f, "run {file}"),
            Request::Serve(Service { file, .. }) => write!(f, "serve {file}"),
            Request::Stop { path, .. } => write!(f, "stop {path}"),
            Request::Clear { path, .. } => write!(f, "clear {path}"),
            Request::Info { file } => write!(f, "info {file}"),
            Request::Check { file, .. } | Request::Keys { file } => write!(f, "check {file}"),
            Request::Judge { file } => write!(f, "judge {file}"),
            Request::Rehearse { .. } => f.write_str("rehearse"),
        }
    }
}

/// What the words of a command line ask for, the first of which names the program.
pub fn read<'a>(alloc: Global, words: &'a [String]) -> Result<Request<'a>, Refusal>
    ensures { IfOk result IsWithin }
{
    let Ok(command) = command_line(alloc, Given::of(words)) else {
        return Err(Refusal::Memory(AllocError));
    };
    match command.try_get_matches_from(words) {
        Ok(matches) => match request_of(&matches) {
            Some(request) => Ok(request),
            None => Err(misfit(alloc, &matches)),
        },
        Err(error) => Err(refusal_of(alloc, error)),
    }
}

fn request_of<'a>(matches: &ArgMatches<'a>) -> Option<Request<'a>>
    ensures { IfSome result IsWithin }
{
    match matches.subcommand()? {
        ("make", words) => make(words),
        ("renew", words) => renew(words),
        ("grow", words) => grow(words),
        ("copy", words) => copy(words),
        ("stop", words) => stop(words),
        ("clear", words) => clear(words),
        ("info", words) => info(words),
        ("check", words) => check(words),
        ("judge", words) => judge(words),
        ("rehearse", words) => rehearse(words),
        ("serve", words) => serve(words),
        (_, words) => run(words),
    }
}

fn make<'a>(words: &ArgMatches<'a>) -> Option<Request<'a>>
    ensures { IfSome result IsWithin }
{
    let new = New {
        file: text(words, "FILE")?,
        slots: number(words, "SLOTS")?,
        format: format_of(words)?,
    };
    if !words.get_flag("keys") {
        return Some(Request::Make(new));
    }
    let texts_of = match text(words, TEXT_ID) {
        Some(name) => Some(SetOfTexts {
            name: name_of_texts(name, new.format)?,
            secret: text(words, SECRET_ID),
        }),
        None => None,
    };
    Some(Request::MakeKeys(new, texts_of))
}

// The name of a set of texts, where a file of this format can hold their mark.
fn name_of_texts(name: &str, format: Format) -> Option<&str>
    ensures rooms { IfSome result (λ name. last_room_of format ≡ last_room) }
    ensures bytes { IfSome result (λ name. length name.now ≤ most_argument) }
{
    if format.last_room() != LAST_ROOM || name.len() > MOST_ARGUMENT {
        return None;
    }
    Some(name)
}

fn renew<'a>(words: &ArgMatches<'a>) -> Option<Request<'a>>
    ensures { IfSome result IsWithin }
{
    let old = text(words, "OLD")?;
    let new = New {
        file: text(words, "NEW")?,
        slots: number(words, "SLOTS")?,
        format: format_with_rooms(words)?,
    };
    Some(Request::Renew(old, new))
}

fn grow<'a>(words: &ArgMatches<'a>) -> Option<Request<'a>>
    ensures { IfSome result IsWithin }
{
    let format = named_format(words)?;
    Some(Request::Grow {
        file: text(words, "FILE")?,
        slots: number(words, "SLOTS")?,
        format,
    })
}

fn copy<'a>(words: &ArgMatches<'a>) -> Option<Request<'a>>
    ensures { IfSome result IsWithin }
{
    let format = named_format(words)?;
    Some(Request::Copy(Wish {
        address: text(words, "ADDRESS")?,
        file: text(words, "NEW")?,
        slots: number(words, "SLOTS"),
        format,
        replaces: words.get_flag("replace"),
    }))
}

fn run<'a>(words: &ArgMatches<'a>) -> Option<Request<'a>>
    ensures { IfSome result IsWithin }
{
    let buckets = number_within(words, "buckets", MOST_BUCKETS)?;
    Some(Request::Run {
        file: text(words, "FILE")?,
        buckets,
        no_lock: words.get_flag("no-lock"),
    })
}

fn stop<'a>(words: &ArgMatches<'a>) -> Option<Request<'a>>
    ensures { IfSome result IsWithin }
{
    Some(Request::Stop {
        path: text(words, "PATH")?,
        within: number(words, "within")?,
    })
}

fn clear<'a>(words: &ArgMatches<'a>) -> Option<Request<'a>>
    ensures { IfSome result IsWithin }
{
    Some(Request::Clear {
        path: text(words, "PATH")?,
        room: u8::try_from(number(words, "ROOM")?).ok()?,
    })
}

fn info<'a>(words: &ArgMatches<'a>) -> Option<Request<'a>>
    ensures { IfSome result IsWithin }
{
    Some(Request::Info {
        file: text(words, "FILE")?,
    })
}

fn check<'a>(words: &ArgMatches<'a>) -> Option<Request<'a>>
    ensures { IfSome result IsWithin }
{
    let file = text(words, "FILE")?;
    Some(if words.get_flag("keys") {
        Request::Keys { file }
    } else {
        let of = text(words, "of");
        Request::Check { file, of }
    })
}

fn judge<'a>(words: &ArgMatches<'a>) -> Option<Request<'a>>
    ensures { IfSome result IsWithin }
{
    Some(Request::Judge {
        file: text(words, "FILE")?,
    })
}

fn rehearse<'a>(words: &ArgMatches<'a>) -> Option<Request<'a>>
    ensures { IfSome result IsWithin }
{
    let slots = number_within(words, "SLOTS", MOST_REHEARSED)?;
    let format = format_of(words)?;
    let buckets = number_within(words, "buckets", format.most_buckets())?;
    Some(Request::Rehearse {
        slots,
        buckets,
        format,
    })
}
