//! What the lines that refuse say in words, for standard error.

use lazyset_arguments::{New, Request, Service, SetOfTexts, Wish};
use lz_slot::Format;
use std::fmt;

// What stands before the number of a fault.
const REFUSED: &str = "refused ";

const REFUSED_OLD: &str = "refused old ";

const REFUSED_NEW: &str = "refused new ";

// What stands before the numbers of keys and of slots, where keys have no room.
const NO_ROOM: &str = "refused 9 ";

/// What a line says in words.
#[derive(Clone, Copy)]
pub enum Words<'a> {
    Plain(&'static str),
    /// So many keys have no room in so many slots.
    NoRoom { keys: &'a str, slots: &'a str },
}

impl fmt::Display for Words<'_> {
    fn fmt<W: fmt::Write>(&self, f: &mut fmt::Formatter<W>) -> fmt::Result {
        match *self {
            Words::Plain(words) => f.write_str(words),
            Words::NoRoom { keys, slots } => {
                let noun = if slots == "1" { "slot" } else { "slots" };
                write!(f, "{keys} keys have no room in {slots} {noun}")
            }
        }
    }
}

/// The words for a line with which a command has ended, where it has any.
pub fn words_of<'a>(request: Request<'_>, line: &'a str) -> Option<Words<'a>> {
    if let Some(words) = words_of_no_room(line) {
        return Some(words);
    }
    match plain_words_of(request, line) {
        Some(words) => Some(Words::Plain(words)),
        None => None,
    }
}

// The words for a line that tells how many keys have no room in how many slots.
fn words_of_no_room(line: &str) -> Option<Words<'_>> {
    let (keys, slots) = line.strip_prefix(NO_ROOM)?.split_once(' ')?;
    Some(Words::NoRoom { keys, slots })
}

fn plain_words_of(request: Request<'_>, line: &str) -> Option<&'static str> {
    if let Some(number) = number_after(REFUSED_OLD, line) {
        return words_of_opening(number);
    }
    match (made_format(request), number_of_fault(line)) {
        (Some(_), Some(b'1')) => Some(words_of_set(request)),
        (Some(format), Some(number)) => words_of_making(number, format),
        (None, Some(number)) => words_of_opening(number),
        (_, None) => words_of_end(request, line),
    }
}

// The format of the file that a command makes, if it makes one.
fn made_format(request: Request<'_>) -> Option<Format> {
    match request {
        Request::Make(new) | Request::MakeKeys(new, _) | Request::Renew(_, new) => Some(new.format),
        // Where none is named, the one that has the most slots is taken at last.
        Request::Grow { format, .. } | Request::Copy(Wish { format, .. }) => {
            Some(format.unwrap_or(Format::Four))
        }
        _ => None,
    }
}

// The number of a fault, of the new file where a line names one.
fn number_of_fault(line: &str) -> Option<u8> {
    number_after(REFUSED_NEW, line).or(number_after(REFUSED, line))
}

// The digit that follows this beginning of the line.
fn number_after(beginning: &str, line: &str) -> Option<u8> {
    line.strip_prefix(beginning)?.as_bytes().first().copied()
}

// Why no file is made over a set.
fn words_of_set(request: Request<'_>) -> &'static str {
    match request {
        Request::Copy(_) => "it is a set already: --replace puts the copy in its place",
        _ => "it is a set already",
    }
}

fn words_of_making(number: u8, format: Format) -> Option<&'static str> {
    match number {
        b'2' => Some(words_of_slots(format)),
        b'3' => Some("the device failed"),
        b'4' => Some("it is longer than the new file would be"),
        _ => None,
    }
}

/// The command that makes a file of so many slots, in a format that has them.
#[derive(Clone, Copy)]
pub struct Roomy<'a> {
    request: Request<'a>,
    slots: u64,
}

impl<'a> Roomy<'a> {
    /// That for a command that ended with this line, since the format that it was to make has no file of so many slots.
    pub fn of(request: Request<'a>, line: &str) -> Option<Roomy<'a>> {
        let (Request::Make(New { slots, .. }) | Request::MakeKeys(New { slots, .. }, _)) = request
        else {
            return None;
        };
        let is_many = slots > Format::Two.most_slots() && slots <= Format::Four.most_slots();
        if !is_many || number_of_fault(line) != Some(b'2') {
            return None;
        }
        Some(Roomy { request, slots })
    }
}

impl fmt::Display for Roomy<'_> {
    fn fmt<W: fmt::Write>(&self, f: &mut fmt::Formatter<W>) -> fmt::Result {
        let (request, slots) = (self.request, self.slots);
        write!(f, "lazyset {request} {slots} --format 4")?;
        match request {
            Request::MakeKeys(_, Some(SetOfTexts { name, secret })) => {
                write!(f, " --keys --text {name}")?;
                match secret {
                    Some(path) => write!(f, " --secret {path}"),
                    None => Ok(()),
                }
            }
            Request::MakeKeys(_, None) => f.write_str(" --keys"),
            _ => Ok(()),
        }
    }
}

// How many slots a file of this format has.
fn words_of_slots(format: Format) -> &'static str {
    match format {
        Format::One | Format::Two => {
            "a file has 1 to 65536 slots; with --format 3 or 4 it has up to 16777216"
        }
        Format::Three => "a file of format 3 has 1 to 16777216 slots",
        Format::Four => "a file of format 4 has 1 to 16777216 slots",
    }
}

fn words_of_opening(number: u8) -> Option<&'static str> {
    match number {
        b'1' => Some("it isn't a set: never made, or its head is damaged"),
        b'2' => Some("it has another format"),
        b'3' => Some("its length doesn't fit its slots"),
        b'4' => Some("its head has a wrong number of slots"),
        b'5' => Some("this slot is open and holds no key"),
        b'6' => Some("these slots hold the same key"),
        b'7' => Some("the device failed"),
        b'8' => Some("out of memory"),
        _ => None,
    }
}

fn words_of_end(request: Request<'_>, line: &str) -> Option<&'static str> {
    match line {
        "halted" => Some("the device failed: open the file again"),
        "nomemory" => Some("out of memory"),
        "noread" => words_of_read(request),
        "noreply" => Some(words_of_reply(request)),
        "othertext" => Some(
            "its keys are texts: serve it with --text, or with --numbers to take them for numbers",
        ),
        "othernumbers" => Some(words_of_numbers(request)),
        "othersecret" => Some(words_of_secret(request)),
        "otherperiod" => {
            Some(
                "it forgets after another time: serve it with the --forget and --epochs that it had before",
            )
        }
        "oldfile" => Some(
            "a file of format 1 has no room for the mark of texts: renew it, then serve it with --text=adopt",
        ),
        "full" => Some("no slot is free for the mark of texts: grow the file first"),
        _ if line.starts_with("line ") => Some(words_of_line(request)),
        _ if line.starts_with("twice ") => Some("this line's key stands in a line above"),
        _ => None,
    }
}

// Why a service isn't copied.
fn words_of_reply(request: Request<'_>) -> &'static str {
    match request {
        Request::Copy(Wish { slots: None, .. }) => {
            "it doesn't tell its slots, or a page of keys: the service has to speak Redis's protocol (--resp beside PASSES), by release 1.17 or a later one"
        }
        _ => {
            "a reply is no page of keys: the service has to speak Redis's protocol (--resp beside PASSES), by release 1.17 or a later one"
        }
    }
}

// Why a service of texts is refused for the keys of its file.
fn words_of_numbers(request: Request<'_>) -> &'static str {
    match request {
        Request::Serve(Service { adopts: true, .. }) => {
            "some of its keys are outside room 0, so it is no older file of texts: serve it without --text"
        }
        _ => {
            "its keys are numbers (serve it without --text), or are forgotten (serve it with --forget, as before); an older file of texts is marked by --text=adopt"
        }
    }
}

// Why a service of texts is refused for the secret of its file.
fn words_of_secret(request: Request<'_>) -> &'static str {
    match request {
        Request::Serve(
            Service {
                secret: Some(_),
                ..
            },
        ) => "its texts are under another secret, or under none",
        _ => "its texts are under a secret: name the file of that by --secret",
    }
}

// Why a read failed. Of a file the system's own reason was told.
fn words_of_read(request: Request<'_>) -> Option<&'static str> {
    match request {
        Request::MakeKeys(..) | Request::Rehearse { .. } => Some("a read of the input failed"),
        Request::Copy(_) => Some("the connection failed, ended or was silent for a minute"),
        _ => None,
    }
}

// Why a line of the input is refused.
fn words_of_line(request: Request<'_>) -> &'static str {
    match request {
        Request::MakeKeys(_, Some(_)) => "a text has at most 512 bytes, and each line has its end",
        Request::MakeKeys(_, None) => "this line holds no key that the format has",
        _ => "this line doesn't read, or may not stand there",
    }
}
