//! What the words of a command line hold.
ghost use Rattle.std.specs.Prelude.{◌≡◌, ◌≤◌, IfSome};
ghost use Rattle.lz_slot.specs.Limits.{last_room};
ghost use Rattle.lz_slot.specs.Rooms.{last_room_of};
ghost use Rattle.clap.specs.Words.{found_of};
ghost use Rattle.lazyset_arguments.specs.Requests.{Tells, last_mode};

use clap::ArgMatches;
use lz_slot::{Format, LAST_ROOM};

// The last mode of a file.
const LAST_MODE: u32 = 0o777;

// The format that the command line names.
pub(crate) fn format_of(matches: &ArgMatches<'_>) -> Option<Format> {
    match number(matches, "format")? {
        1 => Some(Format::One),
        2 => Some(Format::Two),
        3 => Some(Format::Three),
        4 => Some(Format::Four),
        _ => None,
    }
}

// The format that the command line names, where it has all rooms.
pub(crate) fn format_with_rooms(matches: &ArgMatches<'_>) -> Option<Format>
    ensures { IfSome result (λ format. last_room_of format ≡ last_room) }
{
    let format = format_of(matches)?;
    if format.last_room() != LAST_ROOM {
        return None;
    }
    Some(format)
}

// The format that the command line names, which has all rooms; or that it names none.
pub(crate) fn named_format(matches: &ArgMatches<'_>) -> Option<Option<Format>>
    ensures { IfSome result (λ named. IfSome named (λ format. last_room_of format ≡ last_room)) }
{
    match number(matches, "format") {
        Some(_) => Some(Some(format_with_rooms(matches)?)),
        None => Some(None),
    }
}

// A text of the command line.
pub(crate) fn text<'a>(matches: &ArgMatches<'a>, name: &str) -> Option<&'a str> {
    matches.get_str(name)
}

// A number of the command line.
pub(crate) fn number(matches: &ArgMatches<'_>, name: &str) -> Option<u64>
    ensures { IfSome result (Tells (found_of matches.now) name.now) }
{
    matches.get_one::<u64>(name)
}

// A number of the command line, from 1 to the most.
pub(crate) fn number_within(matches: &ArgMatches<'_>, name: &str, most: usize) -> Option<usize>
    ensures { IfSome result (λ n. (1 ≤ n) × (n ≤ most)) }
{
    let count = usize::try_from(number(matches, name)?).ok()?;
    if count < 1 || count > most {
        return None;
    }
    Some(count)
}

// The mode that the command line names, or that it names none.
pub(crate) fn named_mode(matches: &ArgMatches<'_>, name: &str) -> Option<Option<u32>>
    ensures { IfSome result (λ named. IfSome named (λ mode. mode ≤ last_mode)) }
{
    match text(matches, name) {
        Some(word) => Some(Some(mode_of(word)?)),
        None => Some(None),
    }
}

// The mode of a file that is written so, in octal.
fn mode_of(word: &str) -> Option<u32>
    ensures { IfSome result (λ mode. mode ≤ last_mode) }
{
    if word.starts_with('+') {
        return None;
    }
    let mode = u32::from_str_radix(word, 8).ok()?;
    if mode > LAST_MODE {
        return None;
    }
    Some(mode)
}
