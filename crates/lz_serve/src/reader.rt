//! Exchanges out of a text that comes in pieces.
ghost use Rattle.std.specs.Prelude.{◌≡◌, List, OnErr, OnOk, [], map};
ghost use Rattle.lz_proto.specs.Pieces.{Feeds as FeedsLines, Ends};
ghost use Rattle.lz_proto.specs.declared.item.Item.{Item as ALine};
ghost use Rattle.lz_resp.specs.Pieces.{Feeds as FeedsFrames};
ghost use Rattle.lz_resp.specs.declared.item.Item.{Item as AFrame};
ghost use Rattle.lz_serve.specs.Exchanges.{Begun, EndsWith, Exchange, ReadsMore, adding, of_frame, of_line, unread};

use crate::exchanges::Exchanges;
use crate::language::Language;
use lz_proto::{Item as LineItem, Lines};
use lz_resp::{Frames, Item as FrameItem, Naming};
use std::alloc::{AllocError, Global};
use std::collections::VecDeque;
use std::marker::Model;

/// Cuts a client's text into exchanges.
#[derive(Drop)]
pub enum Reader {
    Lines(LineReader),
    Frames(FrameReader),
    /// Nothing has come that tells which of both it is.
    Unread(Naming),
}

/// Cuts a text into lines. Contracts see it as its `Lines`.
#[derive(Drop)]
pub struct LineReader {
    lines: Lines,
    // room for the items of a piece
    items: VecDeque<LineItem>,
}

/// Cuts a text into frames. Contracts see it as its `Frames`.
#[derive(Drop)]
pub struct FrameReader {
    frames: Frames,
    // room for the items of a piece
    items: VecDeque<FrameItem>,
}

impl Model for LineReader {
    ghost use Rattle.std.specs.Prelude.{◌≡◌, ℕ, List, Option, []};

    ghost Value = { Option (List ℕ) };

    ghost view = { λ r. r.lines };

    ghost invariant = { λ r. r.items.items ≡ [] };
}

impl Model for FrameReader {
    ghost use Rattle.std.specs.Prelude.{◌≡◌, Option, []};
    ghost use Rattle.lz_resp.specs.Pieces.{Place};

    ghost Value = { Option Place };

    ghost view = { λ r. r.frames };

    ghost invariant = { λ r. r.items.items ≡ [] };
}

impl Reader {
    /// One of a language, to which no text has come yet.
    pub(crate) fn new(alloc: Global, language: Language) -> Reader
        ensures { result ≡ unread language }
    {
        match language {
            Language::Lines => Reader::Lines(LineReader {
                lines: Lines::new(alloc),
                items: VecDeque::new(alloc),
            }),
            Language::Frames(naming) => Reader::Frames(FrameReader {
                frames: Frames::new(alloc, naming),
                items: VecDeque::new(alloc),
            }),
            Language::Either(naming) => Reader::Unread(naming),
        }
    }

    /// Takes the next piece of the text.
    pub(crate) fn feed(&mut self, piece: &[u8], exchanges: &mut Exchanges) -> Result<(), AllocError>
        ensures ok { OnOk result ((more : List Exchange) × ReadsMore self.old piece.now more self.new × (exchanges.new ≡ adding more exchanges.old)) }
        ensures stops { exchanges.new.stops ≡ exchanges.old.stops }
    {
        self.begin(exchanges.allocator(), piece);
        match self {
            Reader::Lines(lines) => lines.feed(piece, exchanges),
            Reader::Frames(frames) => frames.feed(piece, exchanges),
            Reader::Unread(_) => Ok(()),
        }
    }

    // The first piece of a text tells its language.
    fn begin(&mut self, alloc: Global, piece: &[u8])
        ensures { Begun self.old piece.now self.new }
    {
        if let Reader::Unread(naming) = self {
            let language = Language::Either(*naming).read_as(piece);
            *self = Reader::new(alloc, language);
        }
    }

    /// The text has ended.
    pub(crate) fn end(self, exchanges: &mut Exchanges) -> Result<(), AllocError>
        ensures ok { OnOk result ((more : List Exchange) × EndsWith self more × (exchanges.new ≡ adding more exchanges.old)) }
        ensures stops { exchanges.new.stops ≡ exchanges.old.stops }
    {
        match self {
            Reader::Lines(reader) => reader.end(exchanges),
            Reader::Frames(_) | Reader::Unread(_) => Ok(()),
        }
    }

    /// For how many bytes of what is read it has room.
    pub(crate) fn room(&self) -> usize {
        match self {
            Reader::Lines(_) | Reader::Unread(_) => 0,
            Reader::Frames(reader) => reader.frames.room(),
        }
    }

    /// Gives the room back of what was read.
    pub(crate) fn rest(&mut self)
        ensures { self.new ≡ self.old }
    {
        match self {
            Reader::Lines(reader) => reader.items.shrink_to(0),
            Reader::Frames(reader) => {
                reader.frames.rest();
                reader.items.shrink_to(0);
            }
            Reader::Unread(_) => {}
        }
    }
}

impl LineReader {
    fn feed(&mut self, piece: &[u8], exchanges: &mut Exchanges) -> Result<(), AllocError>
        ensures ok { OnOk result ((items : List ALine) × FeedsLines self.old piece.now items self.new × (exchanges.new ≡ adding (map of_line items) exchanges.old)) }
        ensures stops { exchanges.new.stops ≡ exchanges.old.stops }
    {
        self.lines.feed_into(piece, &mut self.items)?;
        let put = put_lines(&mut self.items, exchanges);
        self.items.clear();
        put
    }

    fn end(self, exchanges: &mut Exchanges) -> Result<(), AllocError>
        ensures ok { OnOk result ((more : List Exchange) × EndsWith (Reader.Lines self) more × (exchanges.new ≡ adding more exchanges.old)) }
        ensures stops { exchanges.new.stops ≡ exchanges.old.stops }
    {
        match self.lines.end() {
            Some(bad) => exchanges.put_line(LineItem::Faulty(bad)),
            None => Ok(()),
        }
    }
}

impl FrameReader {
    fn feed(&mut self, piece: &[u8], exchanges: &mut Exchanges) -> Result<(), AllocError>
        ensures ok { OnOk result ((items : List AFrame) × FeedsFrames self.old piece.now items self.new × (exchanges.new ≡ adding (map of_frame items) exchanges.old)) }
        ensures stops { exchanges.new.stops ≡ exchanges.old.stops }
    {
        self.frames.feed_into(piece, &mut self.items)?;
        let put = put_frames(&mut self.items, exchanges);
        self.items.clear();
        put
    }
}

// The items of lines come after the exchanges that came before.
fn put_lines(items: &mut VecDeque<LineItem>, exchanges: &mut Exchanges) -> Result<(), AllocError>
    ensures ok { OnOk result (exchanges.new ≡ adding (map of_line items.old.items) exchanges.old) }
    ensures stops { exchanges.new.stops ≡ exchanges.old.stops }
{
    while let Some(item) = items.pop_front() {
        exchanges.put_line(item)?;
    }
    Ok(())
}

// The items of frames come after the exchanges that came before.
fn put_frames(items: &mut VecDeque<FrameItem>, exchanges: &mut Exchanges) -> Result<(), AllocError>
    ensures ok { OnOk result (exchanges.new ≡ adding (map of_frame items.old.items) exchanges.old) }
    ensures stops { exchanges.new.stops ≡ exchanges.old.stops }
{
    while let Some(item) = items.pop_front() {
        exchanges.put_frame(item)?;
    }
    Ok(())
}
