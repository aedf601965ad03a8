//! What a client's frame wants.
ghost use Rattle.std.specs.Prelude.{◌≡◌, IfOk};
ghost use Rattle.lz_forget.specs.Wants.{query_wanted, section_name, wanted_by};

use lz_resp::{Form, Item, Query, Requests, Scan, Sections, Text, push_plain};
use std::alloc::{AllocError, Global};

/// How the service's reply is read that is passed on.
#[derive(Clone, Copy, Debug, PartialEq, Eq)]
pub enum Reading {
    Line,
    /// A bulk string, or a line that says why there is none.
    Bulk,
    /// A page of keys, or such a line.
    Page,
}

/// What a frame wants of a set that forgets.
#[derive(Drop, Debug)]
pub enum Wanted {
    /// What these requests ask, whose replies are told in this form.
    Asks(Form, Requests),
    /// For how long the key of this request is remembered yet, in units of so many milliseconds.
    Left(u64, Requests),
    /// What the service replies to this text.
    Passes(Reading, Text),
    Says(Text),
    /// The last reply.
    Ends(Text),
}

impl Wanted {
    /// What an item wants. A page of one room, or that a room be cleared, isn't to be had: rooms are the service's own.
    pub(crate) fn of(alloc: Global, item: Item) -> Result<Wanted, AllocError>
        ensures { IfOk result (λ wanted. wanted ≡ wanted_by item) }
    {
        match item {
            Item::Asks(form, requests) => Ok(Wanted::Asks(form, requests)),
            Item::Says(text) => Ok(Wanted::Says(text)),
            Item::Lists(scan) => listing(alloc, scan),
            Item::Tells(query) => of_query(alloc, query),
            Item::Ends(text) => Ok(Wanted::Ends(text)),
        }
    }
}

// What a page wants.
fn listing(alloc: Global, scan: Scan) -> Result<Wanted, AllocError>
    ensures { IfOk result (λ wanted. wanted ≡ wanted_by (Item.Lists scan)) }
{
    if scan.room.is_some() {
        return no_rooms(alloc);
    }
    let mut text = Vec::from_slice(alloc, b"LZ.SCAN ")?;
    push_plain(&mut text, u64::from(scan.from.index()))?;
    text.extend_from_slice(b" COUNT ")?;
    push_plain(&mut text, scan.most as u64)?;
    text.extend_from_slice(b"\r\n")?;
    Ok(Wanted::Passes(Reading::Page, Text::of(alloc, text.as_slice())?))
}

// What is wanted of the service itself.
fn of_query(alloc: Global, query: Query) -> Result<Wanted, AllocError>
    ensures { IfOk result (λ wanted. wanted ≡ query_wanted query) }
{
    match query {
        Query::Size => Ok(Wanted::Passes(Reading::Line, Text::of(alloc, b"DBSIZE\r\n")?)),
        Query::Info(sections) => {
            let mut text = Vec::from_slice(alloc, b"INFO ")?;
            text.extend_from_slice(name_of(sections).as_bytes())?;
            text.extend_from_slice(b"\r\n")?;
            Ok(Wanted::Passes(Reading::Bulk, Text::of(alloc, text.as_slice())?))
        }
        Query::Clear(_) => no_rooms(alloc),
        Query::Shutdown => Ok(Wanted::Passes(Reading::Line, Text::of(alloc, b"SHUTDOWN\r\n")?)),
    }
}

// The name of sections.
fn name_of(sections: Sections) -> &'static str
    ensures { result.now ≡ section_name sections }
{
    match sections {
        Sections::All => "all",
        Sections::Server => "server",
        Sections::Clients => "clients",
        Sections::Memory => "memory",
        Sections::Stats => "stats",
        Sections::Latencies => "latencystats",
        Sections::Keyspace => "keyspace",
        Sections::Lazyset => "lazyset",
        Sections::Missing => "none",
    }
}

fn no_rooms(alloc: Global) -> Result<Wanted, AllocError>
    ensures { IfOk result (λ wanted. wanted ≡ wanted_by (Item.Tells (Query.Clear 0))) }
{
    Ok(Wanted::Says(Text::of(alloc, b"-ERR rooms are epochs here\r\n")?))
}
