//! The languages of clients.
ghost use Rattle.std.specs.Prelude.{◌≡◌};
ghost use Rattle.lz_serve.specs.Exchanges.{read_as};

use lz_resp::Naming;

// What a text of frames begins with, and no line that asks for something.
const STAR: u8 = b'*';

/// What a client's text and its replies are written in.
#[derive(Clone, Copy, Debug)]
pub enum Language {
    /// Lines, with a line for each reply.
    Lines,
    /// The frames of Redis's protocol, RESP2, in which names and members are read so.
    Frames(Naming),
    /// Such frames where the client's text begins with `*`, and else lines.
    Either(Naming),
}

impl Language {
    /// Whether keys are numbers in rooms.
    pub(crate) fn has_rooms(self) -> bool {
        !matches!(
            self,
            Language::Frames(Naming::Texts(_)) | Language::Either(Naming::Texts(_))
        )
    }

    /// The language in which a text is read that begins with this piece. An empty one tells none of two.
    pub fn read_as(self, piece: &[u8]) -> Language
        ensures { result ≡ read_as self piece.now }
    {
        let Language::Either(naming) = self else {
            return self;
        };
        match piece.first() {
            None => self,
            Some(&byte) if byte == STAR => Language::Frames(naming),
            Some(_) => Language::Lines,
        }
    }
}
