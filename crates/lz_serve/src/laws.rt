//! What follows from what a stream is promised. Each function is one law.
ghost use Rattle.lz_serve.specs.Exchanges.{EitherIsAsRead};
ghost use Rattle.lz_serve.specs.LineSessions.{LinesAreSessions};
ghost use Rattle.lz_serve.specs.OwnLines.{OwnLinesArePlain};

use crate::stream::Stream;

/// What a connection is told of keys that nobody else changes is what a plain set tells, in the order of its lines, whatever it pipelines and
/// by whatever passes. A loop and a thread's pass grant each connection its replies so, those for one key in turn.
pub fn own_lines_are_plain()
    ensures { OwnLinesArePlain }
{}

/// What is sent in a conversation of lines is the text of its session, by the replies that were granted. One of either language whose text
/// is read as lines is such a conversation.
pub fn lines_are_sessions<S: Stream>()
    ensures { LinesAreSessions S.listed }
{}

/// What is told of a text in either language is what is told of it in the language in which it is read.
pub fn either_is_as_read()
    ensures { EitherIsAsRead }
{}
