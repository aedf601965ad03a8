//! What is asked of the service itself.
ghost use Rattle.std.specs.Prelude.{◌≡◌, IfOk};
ghost use Rattle.lz_resp.specs.Names.{sections_of};
ghost use Rattle.lz_resp.specs.Queries.{cleared_text, ends_service, query_text};

use crate::command::is_name;
use crate::figures::{Cleared, Figures};
use crate::info::info;
use crate::reply::push_integer;
use crate::text::{Text, bulk, error, push_number};
use std::alloc::{AllocError, Global};

/// Which sections are asked for of what a service tells of itself.
#[derive(Clone, Copy, Debug, PartialEq, Eq)]
pub enum Sections {
    All,
    Server,
    Clients,
    Memory,
    Stats,
    Latencies,
    Keyspace,
    Lazyset,
    /// One that isn't there.
    Missing,
}

impl Sections {
    /// The ones that an argument names.
    pub(crate) fn of(argument: &[u8]) -> Sections
        ensures { result ≡ sections_of argument.now }
    {
        if is_name(b"default", argument)
            || is_name(b"all", argument)
            || is_name(b"everything", argument)
        {
            return Sections::All;
        }
        if is_name(b"server", argument) {
            return Sections::Server;
        }
        if is_name(b"clients", argument) {
            return Sections::Clients;
        }
        if is_name(b"memory", argument) {
            return Sections::Memory;
        }
        if is_name(b"stats", argument) {
            return Sections::Stats;
        }
        if is_name(b"latencystats", argument) {
            return Sections::Latencies;
        }
        if is_name(b"keyspace", argument) {
            return Sections::Keyspace;
        }
        if is_name(b"lazyset", argument) {
            return Sections::Lazyset;
        }
        Sections::Missing
    }
}

/// What a frame asks of the service itself.
#[derive(Clone, Copy, Debug, PartialEq, Eq)]
pub enum Query {
    /// How many members there are.
    Size,
    /// What the service tells of itself.
    Info(Sections),
    /// That this room has no members any more.
    Clear(u8),
    /// That the service ends.
    Shutdown,
}

impl Query {
    /// The reply of a service of which this is known.
    pub fn text(self, alloc: Global, figures: &Figures) -> Result<Text, AllocError>
        ensures { IfOk result (λ text. text ≡ query_text self figures.now) }
    {
        match self {
            Query::Size => {
                let mut text = Vec::new(alloc);
                push_integer(&mut text, figures.members)?;
                Ok(Text::new(text))
            }
            Query::Info(sections) => {
                let text = info(alloc, sections, figures)?;
                bulk(alloc, text.as_slice())
            }
            Query::Clear(_) => cleared(alloc, figures.cleared),
            Query::Shutdown => {
                if figures.stoppable {
                    return Text::of(alloc, b"");
                }
                error(alloc, b"SHUTDOWN is taken over a Unix socket alone")
            }
        }
    }

    /// Whether a service of which this is known is to end.
    pub fn ends_service(self, figures: &Figures) -> bool
        ensures { result ≡ ends_service self figures.now }
    {
        match self {
            Query::Shutdown => figures.stoppable,
            Query::Size | Query::Info(_) | Query::Clear(_) => false,
        }
    }
}

// What a client is told of a room that was to be cleared.
fn cleared(alloc: Global, cleared: Cleared) -> Result<Text, AllocError>
    ensures { IfOk result (λ text. text ≡ cleared_text cleared) }
{
    match cleared {
        Cleared::Removed(count) => {
            let mut text = Vec::new(alloc);
            push_integer(&mut text, count)?;
            Ok(Text::new(text))
        }
        Cleared::Busy => error(alloc, b"a room is being cleared: try again after it"),
        Cleared::Stopped(count) => {
            let mut words = Vec::from_slice(alloc, b"the room isn't cleared: ")?;
            push_number(&mut words, count)?;
            words.extend_from_slice(b" of its keys were removed")?;
            error(alloc, words.as_slice())
        }
    }
}
