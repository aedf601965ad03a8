//! Command lines that the table of words lets through, and that ask for nothing that can be done.
use crate::refusal::{
    Refusal, bad_mode, bad_passes, late_epochs, late_secret, long_name, no_mark, no_socket,
    too_many_buckets, too_many_loops,
};
use crate::service::{Lack, StrayMode, beyond, lacked, stray_mode};
use crate::values::{format_of, number};
use clap::ArgMatches;
use lz_slot::{Format, LAST_ROOM};
use std::alloc::Global;

/// The faults that the table of words doesn't show: texts need a mark and a name that a service takes, older ones have no
/// secret and no epochs, a format has its own most buckets, loops may have more passes than there are threads, a mode is octal and
/// some socket's, and each loop needs a pass.
pub(crate) fn misfit(alloc: Global, matches: &ArgMatches<'_>) -> Refusal {
    match listed(matches) {
        Some(format) if format.last_room() != LAST_ROOM => return no_mark(alloc),
        Some(_) => return long_name(alloc),
        None => {}
    }
    if let Some((buckets, format)) = rehearsed(matches) {
        return too_many_buckets(alloc, buckets, format);
    }
    if let Some((passes, most)) = beyond(matches) {
        return bad_passes(alloc, passes, most);
    }
    match lacked(matches) {
        Some(Lack::Secret) => return late_secret(alloc),
        Some(Lack::Epochs) => return late_epochs(alloc),
        None => {}
    }
    match stray_mode(matches) {
        Some(StrayMode::Unread(word)) => bad_mode(alloc, word),
        Some(StrayMode::OfNone) => no_socket(alloc),
        None => too_many_loops(alloc),
    }
}

// The format of a file that is made.
fn listed(matches: &ArgMatches<'_>) -> Option<Format> {
    match matches.subcommand()? {
        ("make", words) => format_of(words),
        _ => None,
    }
}

// The buckets and the format of a rehearsal.
fn rehearsed(matches: &ArgMatches<'_>) -> Option<(u64, Format)> {
    match matches.subcommand()? {
        ("rehearse", words) => Some((number(words, "buckets")?, format_of(words)?)),
        _ => None,
    }
}
