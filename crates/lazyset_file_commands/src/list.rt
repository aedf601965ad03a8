//! A list of keys out of a reader, one a line.
ghost use Rattle.std.specs.Prelude.{◌≡◌, ◌+◌, ◌++◌, ◌∷◌, [], ℕ, false, IfOk, IfErr, IfSome, OnOk, Some, length, map, option_map};
ghost use Rattle.lz_judge.specs.Places.{IsTable};
ghost use Rattle.lz_proto.specs.Lines.{has_line_feed, line_feed};
ghost use Rattle.lz_vault.specs.Makes.{MayBeMembers};
ghost use Rattle.lazyset_file_commands.specs.Lists.{AddsKey, AddsText, AreApart, HasPlaceFor, IsFaultAfter, IsLineFaultOf, IsListFaultOf, Lists, TellsAgain, named_by};
ghost use Rattle.lazyset_file_commands.specs.Marks.{marks_of};
ghost use Rattle.lazyset_file_commands.specs.ListParts.{EndsWith, FailsAtEnd, FailsIn, GoesOn, HasTable, IsLike, IsOpenList, IsUnread, named_in};

use crate::again::first_again;
use crate::lines::Lines;
use crate::texts::{TEXTS_MARK, secret_mark};
use lz_judge::Places;
use lz_proto::{MOST_PIECE, receive};
use lz_resp::Secret;
use lz_slot::{Format, Key};
use memchr::memchr;
use std::alloc::{AllocError, Global};
use std::io::Read;

// The keys that a list may have before it is judged the first time.
const FIRST_JUDGED: usize = 65_536;

/// Why no list of keys was read.
#[derive(Clone, Copy)]
pub enum ListFault {
    /// The first line at fault, from 1, is this one: it names no key that the format has, or doesn't end.
    Line(u64),
    /// The first line at fault, from 1, is this one: its key stands in a line above.
    Twice(u64),
    /// A read failed.
    Read,
    Memory,
}

/// Reads the keys of a file of this format, which the lines name, up to the input's end or to a line at fault. Whether a key stands in a
/// line above is judged at the end, and each time that there are four times as many keys. So an input that repeats its lines without
/// end is refused too. Each line ends with a line feed; from one with a key one carriage return before that is dropped.
pub fn read_list<R: Read>(
    alloc: Global,
    reader: &mut R,
    format: Format,
    lines: Lines<'_>,
) -> Result<Vec<Key>, ListFault>
    requires { HasPlaceFor format lines }
    ensures ok { IfOk result (λ keys. IfSome (R.remaining reader.old) (λ text. Lists (named_by format lines.entry) text keys.items)) }
    ensures members { IfOk result (λ keys. MayBeMembers format (length keys.items) keys.items) }
    ensures err { IfErr result (λ fault. IfSome (R.remaining reader.old) (λ text. IsListFaultOf (named_by format lines.entry) text fault)) }
{
    let mut list = match KeyList::begin(alloc, format, lines) {
        Ok(list) => list,
        Err(fault) => return Err(fault),
    };
    let mut piece = [0; MOST_PIECE];
    let mut judged = FIRST_JUDGED;
    // A loop is proved to end, so this one counts its pieces.
    'pieces: for _ in 0..u64::MAX {
        let Ok(count) = receive(reader, &mut piece) else {
            return Err(list.fault(ListFault::Read));
        };
        if count == 0 {
            return list.end();
        }
        if let Err(fault) = list.take(&piece[..count]) {
            return Err(fault);
        }
        if list.keys.len() > judged {
            if let Err(fault) = list.judge() {
                return Err(fault);
            }
            judged = list.keys.len().saturating_mul(4);
        }
    }
    Err(ListFault::Read)
}

/// A list that was read so far: its keys, and the beginning of a line that hasn't ended yet. Of texts, which may come again, it has each
/// key once, and the table of them.
#[derive(Drop)]
struct KeyList<'n> {
    alloc: Global,
    format: Format,
    lines: Lines<'n>,
    keys: Vec<Key>,
    seen: Places,
    line: Vec<u8>,
    /// The number of this line.
    number: u64,
}

impl<'n> KeyList<'n> {
    // A list of no lines. Of texts it has the marks.
    fn begin(alloc: Global, format: Format, lines: Lines<'n>) -> Result<KeyList<'n>, ListFault>
        requires { HasPlaceFor format lines }
        ensures kept { IfOk result IsOpenList }
        ensures unread { IfOk result IsUnread }
        ensures like { IfOk result (λ list. (list.format ≡ format) × (list.lines ≡ lines.entry)) }
        ensures err { IfErr result (λ fault. fault ≡ ListFault.Memory) }
    {
        let mut list = KeyList {
            alloc,
            format,
            lines,
            keys: Vec::new(alloc),
            seen: Places::new(alloc),
            line: Vec::new(alloc),
            number: 1,
        };
        match lines {
            Lines::Keys => Ok(list),
            Lines::Texts(secret, _) => match list.mark(secret) {
                Ok(()) => Ok(list),
                Err(fault) => Err(fault),
            },
        }
    }

    // Adds the mark that keys are texts, and that of their secret, where there is one.
    fn mark(&mut self, secret: Option<&Secret>) -> Result<(), ListFault>
        requires { IsTable (map Some self.old.keys.items) self.old.seen }
        ensures seen { OnOk result (IsTable (map Some self.new.keys.items) self.new.seen) }
        ensures added { OnOk result (self.new.keys.items ≡ self.old.keys.items ++ marks_of (option_map (λ block. block.now) secret.entry)) }
        ensures like { IsLike self.old self.new }
        ensures line { (self.new.line ≡ self.old.line) × (self.new.number ≡ self.old.number) }
        ensures err { IfErr result (λ fault. fault ≡ ListFault.Memory) }
    {
        let Some(mark) = Key::of_rank(TEXTS_MARK) else {
            return Err(ListFault::Memory);
        };
        if let Err(fault) = self.add(mark) {
            return Err(fault);
        }
        let Some(secret) = secret else {
            return Ok(());
        };
        match secret_mark(secret) {
            Some(mark) => self.add(mark),
            None => Err(ListFault::Memory),
        }
    }

    // Adds a key to the keys and to the table of them.
    fn add(&mut self, key: Key) -> Result<(), ListFault>
        requires { IsTable (map Some self.old.keys.items) self.old.seen }
        ensures seen { OnOk result (IsTable (map Some self.new.keys.items) self.new.seen) }
        ensures added { OnOk result (self.new.keys.items ≡ self.old.keys.items ++ key ∷ []) }
        ensures like { IsLike self.old self.new }
        ensures line { (self.new.line ≡ self.old.line) × (self.new.number ≡ self.old.number) }
        ensures err { IfErr result (λ fault. fault ≡ ListFault.Memory) }
    {
        let Ok(()) = self.keys.push(key) else {
            return Err(ListFault::Memory);
        };
        let Ok(()) = self.seen.add(self.keys.as_slice()) else {
            return Err(ListFault::Memory);
        };
        Ok(())
    }

    // Takes the next piece of the list.
    fn take(&mut self, piece: &[u8]) -> Result<(), ListFault>
        requires { IsOpenList self.old }
        ensures kept { OnOk result (IsOpenList self.new) }
        ensures goes { OnOk result (GoesOn self.old piece.now self.new) }
        ensures err { IfErr result (FailsIn self.old piece.now) }
    {
        let mut rest = piece;
        while let Some(end) = memchr(b'\n', rest) {
            let (part, ended) = rest.split_at(end);
            if let Err(fault) = self.take_line(part) {
                return Err(fault);
            }
            rest = &ended[1..];
        }
        self.keep(rest)
    }

    // Takes the end of a line, without its line feed.
    fn take_line(&mut self, part: &[u8]) -> Result<(), ListFault>
        requires kept { IsOpenList self.old }
        requires clear { has_line_feed part.now ≡ false }
        ensures kept { OnOk result (IsOpenList self.new) }
        ensures goes { OnOk result (GoesOn self.old (part.now ++ line_feed ∷ []) self.new) }
        ensures err { IfErr result (FailsIn self.old (part.now ++ line_feed ∷ [])) }
    {
        let Ok(()) = self.line.extend_from_slice(part) else {
            return Err(ListFault::Memory);
        };
        if let Err(fault) = self.add_line() {
            return Err(fault);
        }
        let Some(next) = self.number.checked_add(1) else {
            return Err(ListFault::Read);
        };
        self.number = next;
        self.line.clear();
        Ok(())
    }

    // Adds the key of the line that was read.
    fn add_line(&mut self) -> Result<(), ListFault>
        requires { HasTable self.old.lines self.old.keys.items self.old.seen }
        ensures seen { OnOk result (HasTable self.new.lines self.new.keys.items self.new.seen) }
        ensures ok { OnOk result (AddsKey (named_in self.old) self.old.line.items self.old.keys.items self.new.keys.items) }
        ensures like { IsLike self.old self.new }
        ensures number { self.new.number ≡ self.old.number }
        ensures err { IfErr result (IsLineFaultOf (named_in self.old) self.old.number self.old.line.items self.old.keys.items) }
    {
        let number = self.number;
        let Some(key) = self.lines.key_on(self.line.as_slice(), self.format) else {
            return Err(self.fault(ListFault::Line(number)));
        };
        match self.lines {
            Lines::Keys => self.push(key),
            Lines::Texts(..) => self.add_text(key),
        }
    }

    // Adds a key, which may stand in a line above.
    fn push(&mut self, key: Key) -> Result<(), ListFault>
        ensures added { OnOk result (self.new.keys.items ≡ self.old.keys.items ++ key ∷ []) }
        ensures like { IsLike self.old self.new }
        ensures rest { (self.new.seen ≡ self.old.seen) × (self.new.line ≡ self.old.line) × (self.new.number ≡ self.old.number) }
        ensures err { IfErr result (λ fault. fault ≡ ListFault.Memory) }
    {
        match self.keys.push(key) {
            Ok(()) => Ok(()),
            Err(_) => Err(ListFault::Memory),
        }
    }

    // Adds the key of a text, unless it is there.
    fn add_text(&mut self, key: Key) -> Result<(), ListFault>
        requires { IsTable (map Some self.old.keys.items) self.old.seen }
        ensures seen { OnOk result (IsTable (map Some self.new.keys.items) self.new.seen) }
        ensures added { OnOk result (AddsText key self.old.keys.items self.new.keys.items) }
        ensures like { IsLike self.old self.new }
        ensures number { self.new.number ≡ self.old.number }
        ensures err { IfErr result (λ fault. fault ≡ ListFault.Memory) }
    {
        if self.seen.find(self.keys.as_slice(), key.rank()).is_some() {
            return Ok(());
        }
        self.add(key)
    }

    // Refuses keys of which one stands again.
    fn judge(&self) -> Result<(), ListFault>
        ensures ok { OnOk result (AreApart (named_in self.now) self.now.keys.items) }
        ensures err { IfErr result (TellsAgain (named_in self.now) self.now.keys.items) }
    {
        match self.lines {
            Lines::Keys => match first_again(self.alloc, self.keys.as_slice()) {
                Ok(None) => Ok(()),
                Ok(Some(index)) => Err(ListFault::Twice(index as u64 + 1)),
                Err(AllocError) => Err(ListFault::Memory),
            },
            Lines::Texts(..) => Ok(()),
        }
    }

    // The first fault of a list that has this one after its keys.
    fn fault(&self, after: ListFault) -> ListFault
        ensures { IsFaultAfter (named_in self.now) self.now.keys.items after result }
    {
        match self.judge() {
            Ok(()) => after,
            Err(fault) => fault,
        }
    }

    // Keeps a part of a line that goes on, unless it is longer already than any line.
    fn keep(&mut self, part: &[u8]) -> Result<(), ListFault>
        requires kept { IsOpenList self.old }
        requires clear { has_line_feed part.now ≡ false }
        ensures kept { OnOk result (IsOpenList self.new) }
        ensures goes { OnOk result (GoesOn self.old part.now self.new) }
        ensures err { IfErr result (FailsIn self.old part.now) }
    {
        let Ok(()) = self.line.extend_from_slice(part) else {
            return Err(ListFault::Memory);
        };
        if self.line.len() > self.lines.most_bytes(self.format) {
            return Err(self.fault(ListFault::Line(self.number)));
        }
        Ok(())
    }

    // The keys of the list, which ends here.
    fn end(self) -> Result<Vec<Key>, ListFault>
        requires { IsOpenList self }
        ensures ok { IfOk result (λ keys. EndsWith self.entry keys.items) }
        ensures members { IfOk result (λ keys. MayBeMembers self.entry.format (length keys.items) keys.items) }
        ensures err { IfErr result (FailsAtEnd self.entry) }
    {
        if !self.line.is_empty() {
            return Err(self.fault(ListFault::Line(self.number)));
        }
        match self.judge() {
            Ok(()) => Ok(self.keys),
            Err(fault) => Err(fault),
        }
    }
}
