//! The lines that a rehearsal writes.
ghost use Rattle.std.specs.Prelude.{◌≡◌, OnOk, ◌∷◌, ◌++◌, []};
ghost use Rattle.std.specs.Io.KnownBytes.{Appends};
ghost use Rattle.lz_slot.specs.Sets.{key_of};
ghost use Rattle.lz_slot.specs.MarkTexts.{answer_word, command_word, cut_word, keys_text, marks_text, refusal_word};
ghost use Rattle.lz_rehearsal.specs.Tellings.{busy_text, mark_line, show_text};

use lz_slot::{Command, Cut, Found, HistoryEvent, Key, Refusal};
use std::io;
use std::io::Write;

/// The lines of what was seen, in order.
pub fn write_marks<W: Write + Drop>(writer: &mut W, marks: &[HistoryEvent]) -> io::Result<()>
    ensures { OnOk result (Appends (W.contents writer.old) (W.contents writer.new) (marks_text marks.now)) }
{
    for mark in marks {
        write_mark(writer, mark)?;
    }
    Ok(())
}

/// The line of what was seen.
pub fn write_mark<W: Write + Drop>(writer: &mut W, mark: &HistoryEvent) -> io::Result<()>
    ensures { OnOk result (Appends (W.contents writer.old) (W.contents writer.new) (mark_line mark.now)) }
{
    match mark {
        HistoryEvent::Call(number, actor, command) => write_call(writer, *number, *actor, *command),
        HistoryEvent::Answer(number, answer) => write_answer(writer, *number, *answer),
        HistoryEvent::Refused(number, why) => write_refused(writer, *number, *why),
        HistoryEvent::Cut(number, why) => write_cut(writer, *number, *why),
        HistoryEvent::Stop => writeln!(writer, "stop"),
        HistoryEvent::Crash => writeln!(writer, "crash"),
        HistoryEvent::Opened(found) => write_opened(writer, found),
        HistoryEvent::OpenFailed(why) => write_open_fault(writer, *why),
    }
}

fn write_call<W: Write + Drop>(
    writer: &mut W,
    number: u64,
    actor: usize,
    command: Command,
) -> io::Result<()>
    ensures { OnOk result (Appends (W.contents writer.old) (W.contents writer.new) (mark_line (HistoryEvent.Call number actor command))) }
{
    let named = command;
    let word = command_word(command);
    let key = key_of(named);
    writeln!(writer, "call {number} {actor} {word} {key}")
}

fn write_answer<W: Write + Drop>(writer: &mut W, number: u64, answer: bool) -> io::Result<()>
    ensures { OnOk result (Appends (W.contents writer.old) (W.contents writer.new) (mark_line (HistoryEvent.Answer number answer))) }
{
    let word = answer_word(answer);
    writeln!(writer, "answer {number} {word}")
}

fn write_refused<W: Write + Drop>(writer: &mut W, number: u64, why: Refusal) -> io::Result<()>
    ensures { OnOk result (Appends (W.contents writer.old) (W.contents writer.new) (mark_line (HistoryEvent.Refused number why))) }
{
    let word = refusal_word(why);
    writeln!(writer, "refused {number} {word}")
}

fn write_cut<W: Write + Drop>(writer: &mut W, number: u64, why: Cut) -> io::Result<()>
    ensures { OnOk result (Appends (W.contents writer.old) (W.contents writer.new) (mark_line (HistoryEvent.Cut number why))) }
{
    let word = cut_word(why);
    writeln!(writer, "{word} {number}")
}

fn write_opened<W: Write + Drop>(writer: &mut W, found: &Found) -> io::Result<()>
    ensures { OnOk result (Appends (W.contents writer.old) (W.contents writer.new) (mark_line (HistoryEvent.Opened found.now))) }
{
    write!(writer, "open")?;
    write_keys(writer, found.keys())?;
    writeln!(writer)
}

fn write_open_fault<W: Write + Drop>(writer: &mut W, why: u8) -> io::Result<()>
    ensures { OnOk result (Appends (W.contents writer.old) (W.contents writer.new) (mark_line (HistoryEvent.OpenFailed why))) }
{
    writeln!(writer, "open fault {why}")
}

/// The line of the members.
pub fn write_members<W: Write + Drop>(writer: &mut W, members: &[Key]) -> io::Result<()>
    ensures { OnOk result (Appends (W.contents writer.old) (W.contents writer.new) (show_text members.now)) }
{
    write!(writer, "show")?;
    write_keys(writer, members)?;
    writeln!(writer)
}

/// The line of an actor that found a lock taken.
pub fn write_busy<W: Write + Drop>(writer: &mut W, actor: usize) -> io::Result<()>
    ensures { OnOk result (Appends (W.contents writer.old) (W.contents writer.new) (busy_text actor)) }
{
    writeln!(writer, "busy {actor}")
}

fn write_keys<W: Write + Drop>(writer: &mut W, keys: &[Key]) -> io::Result<()>
    ensures { OnOk result (Appends (W.contents writer.old) (W.contents writer.new) (keys_text keys.now)) }
{
    for key in keys {
        write_key(writer, *key)?;
    }
    Ok(())
}

fn write_key<W: Write + Drop>(writer: &mut W, key: Key) -> io::Result<()>
    ensures { OnOk result (Appends (W.contents writer.old) (W.contents writer.new) (keys_text (key ∷ []))) }
{
    write!(writer, " {key}")
}

fn command_word(command: Command) -> &'static str
    ensures { result.now ≡ command_word command }
{
    match command {
        Command::Add(_) => "add",
        Command::Remove(_) => "remove",
        Command::Has(_) => "has",
    }
}

fn key_of(command: Command) -> Key
    ensures { result ≡ key_of command }
{
    match command {
        Command::Add(key) | Command::Remove(key) | Command::Has(key) => key,
    }
}

fn answer_word(answer: bool) -> &'static str
    ensures { result.now ≡ answer_word answer }
{
    if answer { "yes" } else { "no" }
}

fn refusal_word(why: Refusal) -> &'static str
    ensures { result.now ≡ refusal_word why }
{
    match why {
        Refusal::Full => "full",
        Refusal::Worn => "worn",
        Refusal::OldFile => "oldfile",
    }
}

fn cut_word(why: Cut) -> &'static str
    ensures { result.now ≡ cut_word why }
{
    match why {
        Cut::Halted => "halted",
        Cut::Device => "device",
    }
}
