//! What is asked of a service whose keys are copied, of which it is said how far it has come.
ghost use Rattle.std.specs.Prelude.{◌≡◌};

use crate::share::Share;
use std::io;
use std::io::Write;
use std::time::Clock;

// What stands before the cursor of a question.
const QUESTION: &str = "LZ.SCAN";

/// A connection over which a service is asked for pages of its keys. What it was asked is what the connection was given.
#[derive(Drop)]
pub struct Asked<'a, 'b, R: Eprint + Clock, A: Write> {
    asker: A,
    share: Share<'a, 'b, R>,
    /// The last slot that it is asked about, once that is known.
    last: u64,
}

impl<'a, 'b, R: Eprint + Clock, A: Write> Asked<'a, 'b, R, A> {
    pub fn new(asker: A, share: Share<'a, 'b, R>) -> Asked<'a, 'b, R, A>
        ensures { result.asker ≡ asker }
    {
        Asked {
            asker,
            share,
            last: 0,
        }
    }

    /// It is asked about so many slots.
    pub fn of_slots(&mut self, slots: u64)
        ensures { self.new.asker ≡ self.old.asker }
    {
        self.last = slots.saturating_sub(1);
        self.share.of_total(slots);
    }

    /// All was asked.
    pub fn end(&mut self)
        ensures { self.new.asker ≡ self.old.asker }
    {
        self.share.end();
    }

    // Says how far these bytes have come, where they are a question for a page.
    fn reach(&mut self, bytes: &[u8])
        ensures { self.new.asker ≡ self.old.asker }
    {
        if let Some(cursor) = cursor_in(bytes) {
            self.share.reach(cursor.min(self.last));
        }
    }
}

// The cursor of a question for a page.
fn cursor_in(bytes: &[u8]) -> Option<u64> {
    let mut words = str::from_utf8(bytes).ok()?.split(' ');
    if words.next()? != QUESTION {
        return None;
    }
    words.next()?.parse::<u64>().ok()
}

impl<R: Eprint + Clock, A: Write> Write for Asked<'_, '_, R, A> {
    ghost contents = { λ asked. A.contents asked.asker };

    fn write(&mut self, bytes: &[u8]) -> io::Result<usize> {
        let count = self.asker.write(bytes)?;
        self.reach(&bytes[..count]);
        Ok(count)
    }

    fn flush(&mut self) -> io::Result<()> {
        self.asker.flush()
    }
}
