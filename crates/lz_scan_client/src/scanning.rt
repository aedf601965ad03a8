//! The scan of a service.
ghost use Rattle.std.specs.Prelude.{◌≡◌, ◌≤◌, ◌<◌, ℕ, [], IfOk, None, Ok, OnOk, Option, Some, false, length, map, true};
ghost use Rattle.std.specs.Io.KnownBytes.{Appends};
ghost use Rattle.lz_judge.specs.Places.{IsTable};
ghost use Rattle.lz_resp.specs.Pages.{request_text};
ghost use Rattle.lz_scan_client.specs.Scanning.{GoesTo, LeadsOn, cursor_after, unread};
ghost use Rattle.lz_scan_client.specs.Scans.{IsToldBy};

use crate::fault::ScanFault;
use crate::replies::Replies;
use crate::told::Told;
use lz_proto::send;
use lz_resp::page_request;
use lz_slot::Key;
use std::alloc::Global;
use std::io::{Read, Write};

/// What a scan was told.
#[derive(Drop)]
pub enum ToldKeys {
    /// All keys, each once.
    All(Vec<Key>),
    /// More than it takes: so many, and perhaps others.
    More(u64),
}

/// Scans all rooms of a service, over a connection that it writes to and reads from, to the end or until it was told more than `most` keys.
/// The next page is asked for once the last one was read. It ends, whatever the service tells: a page that doesn't lead on is a faulty reply.
pub fn scan_rooms<R: Read, W: Write>(
    alloc: Global,
    reader: &mut R,
    writer: &mut W,
    most: u64,
) -> Result<ToldKeys, ScanFault>
    ensures { IfOk result (λ told. IsToldBy (R.remaining reader.old) (W.contents writer.old) (W.contents writer.new) most told) }
{
    let mut progress = Progress::new(alloc);
    match progress.scan(reader, writer, most) {
        Ok(true) => {
            let Progress { told, .. } = progress;
            Ok(ToldKeys::All(told.keys))
        }
        Ok(false) => Ok(ToldKeys::More(progress.told.keys.len() as u64)),
        Err(fault) => Err(fault),
    }
}

// How far a scan has come.
#[derive(Drop)]
struct Progress {
    alloc: Global,
    replies: Replies,
    told: Told,
}

impl Progress {
    fn new(alloc: Global) -> Progress
        ensures seen { IsTable (map Some result.told.keys.items) result.told.seen }
        ensures none { (result.told.keys.items ≡ []) × (result.replies.kept.items ≡ []) }
    {
        Progress {
            alloc,
            replies: Replies::new(alloc),
            told: Told::new(alloc),
        }
    }

    // Scans to the end, or until more keys were told, and says whether it came to the end.
    fn scan<R: Read, W: Write>(
        &mut self,
        reader: &mut R,
        writer: &mut W,
        most: u64,
    ) -> Result<bool, ScanFault>
        requires { IsTable (map Some self.old.told.keys.items) self.old.told.seen }
        ensures ended { result ≡ Ok true → GoesTo (Some 0) (unread self.old.replies (R.remaining reader.old)) (W.contents writer.old) self.old.told.keys.items
            None (unread self.new.replies (R.remaining reader.new)) (W.contents writer.new) self.new.told.keys.items }
        ensures few { result ≡ Ok true → length self.new.told.keys.items ≤ most }
        ensures goes { result ≡ Ok false → (cursor : Option ℕ) × GoesTo (Some 0) (unread self.old.replies (R.remaining reader.old)) (W.contents writer.old) self.old.told.keys.items
            cursor (unread self.new.replies (R.remaining reader.new)) (W.contents writer.new) self.new.told.keys.items }
        ensures many { result ≡ Ok false → most < length self.new.told.keys.items }
    {
        let mut cursor = 0;
        // A loop is proved to end, so this one counts its pages.
        'pages: for _ in 0..u64::MAX {
            let next = match self.next_page(reader, writer, cursor) {
                Ok(next) => next,
                Err(fault) => return Err(fault),
            };
            if self.told.keys.len() as u64 > most {
                return Ok(false);
            }
            if next == 0 {
                return Ok(true);
            }
            cursor = next;
        }
        Err(ScanFault::Connection)
    }

    // Asks for a page, and gives the cursor that it tells.
    fn next_page<R: Read, W: Write>(
        &mut self,
        reader: &mut R,
        writer: &mut W,
        cursor: u64,
    ) -> Result<u64, ScanFault>
        requires { IsTable (map Some self.old.told.keys.items) self.old.told.seen }
        ensures seen { OnOk result (IsTable (map Some self.new.told.keys.items) self.new.told.seen) }
        ensures goes { IfOk result (λ next. GoesTo (Some cursor) (unread self.old.replies (R.remaining reader.old)) (W.contents writer.old) self.old.told.keys.items
            (cursor_after next) (unread self.new.replies (R.remaining reader.new)) (W.contents writer.new) self.new.told.keys.items) }
    {
        if let Err(fault) = ask(self.alloc, writer, cursor) {
            return Err(fault);
        }
        let page = match self.replies.page(reader) {
            Ok(page) => page,
            Err(fault) => return Err(fault),
        };
        if !leads_on(cursor, page.next) {
            return Err(ScanFault::Reply);
        }
        match self.told.add_all(page.numbers.as_slice()) {
            Ok(()) => Ok(page.next),
            Err(fault) => Err(fault),
        }
    }
}

// Whether a page that tells this cursor leads on from that one.
fn leads_on(cursor: u64, next: u64) -> bool
    ensures { result ≡ true → LeadsOn cursor next }
{
    next == 0 || cursor < next
}

// Sends the request for a page.
fn ask<W: Write>(alloc: Global, writer: &mut W, cursor: u64) -> Result<(), ScanFault>
    ensures { OnOk result (Appends (W.contents writer.old) (W.contents writer.new) (request_text cursor)) }
{
    let Ok(request) = page_request(alloc, cursor) else {
        return Err(ScanFault::Memory);
    };
    match send(writer, request.as_bytes()) {
        Ok(()) => Ok(()),
        Err(_) => Err(ScanFault::Connection),
    }
}
