//! The replies of a service, which come in pieces.
ghost use Rattle.std.specs.Prelude.{◌≡◌, ◌++◌, ◌≤◌, [], IfOk, IfSome, None, Ok, OnOk, drop, length};
ghost use Rattle.std.specs.Io.KnownBytes.{Consumes};
ghost use Rattle.lz_resp.specs.Pages.{told_text};
ghost use Rattle.lz_scan_client.specs.Scanning.{unread};

use crate::fault::ScanFault;
use lz_proto::{MOST_PIECE, receive};
use lz_resp::{MOST_FRAME, Page, Stop, read_page};
use std::alloc::Global;
use std::io::Read;

/// What has come of the replies and wasn't read as a page.
#[derive(Drop)]
pub(crate) struct Replies {
    alloc: Global,
    kept: Vec<u8>,
}

impl Replies {
    pub(crate) fn new(alloc: Global) -> Replies
        ensures { result.kept.items ≡ [] }
    {
        Replies {
            alloc,
            kept: Vec::new(alloc),
        }
    }

    /// The page that the next reply tells.
    pub(crate) fn page<R: Read>(&mut self, reader: &mut R) -> Result<Page, ScanFault>
        ensures { IfOk result (λ page. Consumes (unread self.old (R.remaining reader.old)) (unread self.new (R.remaining reader.new)) (told_text page.next page.numbers.items)) }
    {
        let mut piece = [0; MOST_PIECE];
        // A loop is proved to end, so this one counts its pieces.
        'pieces: for _ in 0..u64::MAX {
            match self.take() {
                Ok(Some(page)) => return Ok(page),
                Ok(None) => {}
                Err(fault) => return Err(fault),
            }
            let Ok(count) = receive(reader, &mut piece) else {
                return Err(ScanFault::Connection);
            };
            if count == 0 {
                return Err(ScanFault::Connection);
            }
            if let Err(fault) = self.keep(&piece[..count]) {
                return Err(fault);
            }
        }
        Err(ScanFault::Connection)
    }

    // Takes a page off the front, where a whole one has come.
    fn take(&mut self) -> Result<Option<Page>, ScanFault>
        ensures some { IfOk result (λ found. IfSome found (λ page. self.old.kept.items ≡ told_text page.next page.numbers.items ++ self.new.kept.items)) }
        ensures none { result ≡ Ok None → self.new.kept.items ≡ self.old.kept.items }
    {
        let (page, count) = match self.front() {
            Ok(Some(found)) => found,
            Ok(None) => return Ok(None),
            Err(fault) => return Err(fault),
        };
        let left = self.kept.len() - count;
        self.kept.copy_within(count.., 0);
        self.kept.truncate(left);
        Ok(Some(page))
    }

    // The page at the front, and how many bytes it has.
    fn front(&self) -> Result<Option<(Page, usize)>, ScanFault>
        ensures some { IfOk result (λ found. IfSome found (λ p. self.now.kept.items ≡ told_text p.0.next p.0.numbers.items ++ drop p.1 self.now.kept.items)) }
        ensures inside { IfOk result (λ found. IfSome found (λ p. p.1 ≤ length self.now.kept.items)) }
    {
        match read_page(self.alloc, self.kept.as_slice()) {
            Ok(Some((page, rest))) => Ok(Some((page, self.kept.len() - rest.len()))),
            Ok(None) => Ok(None),
            Err(Stop::Memory) => Err(ScanFault::Memory),
            Err(Stop::Faulty(_)) => Err(ScanFault::Reply),
        }
    }

    // Keeps a piece, unless what is kept is longer already than any page.
    fn keep(&mut self, piece: &[u8]) -> Result<(), ScanFault>
        ensures { OnOk result (self.new.kept.items ≡ self.old.kept.items ++ piece.now) }
    {
        if self.kept.len() > MOST_FRAME {
            return Err(ScanFault::Reply);
        }
        let Ok(()) = self.kept.extend_from_slice(piece) else {
            return Err(ScanFault::Memory);
        };
        Ok(())
    }
}
