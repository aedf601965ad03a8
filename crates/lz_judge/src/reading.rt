//! A history out of its text.
ghost use Rattle.std.specs.Prelude.{◌≡◌, ◌≤◌, ℕ, IfOk, IsTrue, false, reverse, [], ◌∷◌, IfErr, OnOk, length, Some};
ghost use Rattle.lz_judge.specs.declared.line.Line.{Line as ALine};
ghost use Rattle.lz_judge.specs.LinesRead.{line_read};
ghost use Rattle.lz_judge.specs.Readers.{IsReader, seen_by};
ghost use Rattle.lz_judge.specs.TextsRead.{IsFirstUnread, MayCome, MaySee, Reads, calls_in, with_line};

use crate::history::{History, Point};
use crate::ledger::Ledger;
use crate::limits::{MOST_BYTES, MOST_CALLS};
use crate::line::{Line, read_line};
use lz_slot::HistoryEvent;
use memchr::memchr;
use std::alloc::{AllocError, Global};

impl History {
    /// Reads the text of a history, or tells the number, from 1, of the first line that doesn't read: one that is no line of a
    /// history, that can't come where it stands, that is one call too many or ends past the most bytes, and what stands after the
    /// last line feed. Of a longer text one byte more than the most bytes is enough.
    pub fn read(alloc: Global, text: &[u8]) -> Result<Result<History, u64>, AllocError>
        ensures within { IfOk result (λ read. OnOk read (length text.now ≤ MOST_BYTES)) }
        ensures line { IfOk result (λ read. IfErr read (λ line. 1 ≤ line)) }
        ensures ok { IfOk result (λ read. IfOk read (λ history. (n : ℕ) × Reads n text.now history)) }
        ensures err { IfOk result (λ read. IfErr read (λ line. IsFirstUnread text.now line)) }
    {
        let mut reader = Reader::new(alloc);
        let mut rest = text;
        let mut line: u64 = 1;
        while let Some(end) = memchr(b'\n', rest) {
            if text.len() - rest.len() + end >= MOST_BYTES {
                return Ok(Err(line));
            }
            if !reader.take(alloc, &rest[..end])? {
                return Ok(Err(line));
            }
            rest = &rest[end + 1..];
            line = line.saturating_add(1);
        }
        if !rest.is_empty() {
            return Ok(Err(line));
        }
        Ok(Ok(reader.finish()))
    }
}

// What was read so far.
#[derive(Drop)]
struct Reader {
    marks: Vec<HistoryEvent>,
    points: Vec<Point>,
    ledger: Ledger,
    calls: usize,
}

impl Reader {
    fn new(alloc: Global) -> Reader
        ensures reader { IsReader result }
        ensures nothing { seen_by result ≡ record { marks = []; points = [] } }
    {
        Reader {
            marks: Vec::new(alloc),
            points: Vec::new(alloc),
            ledger: Ledger::new(alloc),
            calls: 0,
        }
    }

    // Takes the next line, and tells whether it reads.
    fn take(&mut self, alloc: Global, line: &[u8]) -> Result<bool, AllocError>
        requires { IsReader self.old }
        ensures reads { IfOk result (λ reads. IsTrue reads → IsReader self.new × ((l : ALine) × (line_read line.now ≡ Some l) × MayCome l (seen_by self.old) × (seen_by self.new ≡ with_line l (seen_by self.old)))) }
        ensures refuses { IfOk result (λ reads. reads ≡ false → (l : ALine) → line_read line.now ≡ Some l → ¬ MayCome l (seen_by self.old)) }
    {
        match read_line(alloc, line)? {
            Some(Line::Seen(mark)) => self.see(mark),
            Some(Line::Placed(point)) => {
                self.points.push(point)?;
                Ok(true)
            }
            Some(Line::Other) => Ok(true),
            None => Ok(false),
        }
    }

    // Takes a mark, where it may come.
    fn see(&mut self, mark: HistoryEvent) -> Result<bool, AllocError>
        requires { IsReader self.old }
        ensures reads { IfOk result (λ reads. IsTrue reads → IsReader self.new × MaySee mark (reverse self.old.marks.items) × (seen_by self.new ≡ with_line (ALine.Seen mark) (seen_by self.old))) }
        ensures refuses { IfOk result (λ reads. reads ≡ false → ¬ MaySee mark (reverse self.old.marks.items)) }
    {
        self.calls += calls_in(&mark);
        if self.calls > MOST_CALLS {
            return Ok(false);
        }
        if !self.ledger.follow(&mark)? {
            return Ok(false);
        }
        self.marks.push(mark)?;
        Ok(true)
    }

    fn finish(self) -> History
        requires { IsReader self }
        ensures marks { result.marks ≡ reverse self.marks.items }
        ensures points { result.points ≡ reverse self.points.items }
    {
        History::new(self.marks, self.points)
    }
}

// How many calls a mark makes.
fn calls_in(mark: &HistoryEvent) -> usize
    ensures { result ≡ calls_in mark.now }
{
    match mark {
        HistoryEvent::Call(..) => 1,
        _ => 0,
    }
}
