//! What is shown of a survey.
ghost use Rattle.std.specs.Prelude.{◌≡◌, ◌<◌, ◌++◌, IfOk, OnErr, OnOk, length};
ghost use Rattle.std.specs.List.{flat_map};
ghost use Rattle.std.specs.String.{string_bytes};
ghost use Rattle.lazyset_file_commands.specs.Checks.{end_text, finding_text, head_text, line_of};
ghost use Rattle.lazyset_file_commands.specs.Tellings.{PutsLine, SentOrCut};

use crate::counting::counts_of;
use lz_judge::Finding;
use lz_proto::{SessionFault, send};
use lz_slot::{Header, Key, Slot};
use std::alloc::{AllocError, Global};
use std::io::Write;

/// What is shown of a file that was surveyed.
#[derive(Clone, Copy, Debug, PartialEq, Eq)]
pub enum Shown {
    /// A line for each slot that isn't closed, and then `good` or `damaged`.
    Findings,
    /// The keys, one a line, in the order of the slots, and nothing else. Where the file is damaged the line `damaged` follows: so
    /// what is shown reads as a list of keys only where the file holds a set.
    Keys,
    /// `format F`, `slots N`, `members M`, `free F`, and then `good` or `damaged`.
    Counts,
}

// The most bytes of a line, and the bytes at which a page of lines is full.
const MOST_SHOWN: usize = 64;

const FULL_PAGE: usize = 4_096;

/// The first page of what is shown of the findings in a file with this head: its counts, or an empty one with room for lines.
pub(crate) fn first_page(
    alloc: Global,
    shown: Shown,
    header: Header,
    findings: &[Finding],
) -> Result<String, AllocError>
    ensures { IfOk result (λ page. string_bytes page ≡ head_text shown header findings.now) }
{
    match shown {
        Shown::Findings | Shown::Keys => String::with_capacity(alloc, FULL_PAGE + MOST_SHOWN),
        Shown::Counts => counts_of(alloc, header, findings),
    }
}

/// Writes this page, the lines of the findings page by page, and last whether the file is damaged.
pub(crate) fn send_found<W: Write>(
    first: String,
    writer: &mut W,
    shown: Shown,
    findings: &[Finding],
    is_good: bool,
) -> Result<(), SessionFault>
    ensures { SentOrCut (W.contents writer.old) (W.contents writer.new) (string_bytes first ++ flat_map (line_of shown) findings.now ++ end_text shown is_good) result }
{
    let mut page = first;
    for finding in findings {
        if let Err(fault) = put_line(&mut page, writer, shown, *finding) {
            return Err(fault);
        }
    }
    if let Err(fault) = send(writer, page.as_bytes()) {
        return Err(fault);
    }
    send(writer, end_of(shown, is_good))
}

// Adds the line of a finding to the page, and writes the page where it is full then. (It has room for the line: memory isn't
// wanted for it.)
fn put_line<W: Write>(
    page: &mut String,
    writer: &mut W,
    shown: Shown,
    finding: Finding,
) -> Result<(), SessionFault>
    ensures { PutsLine (W.contents writer.old) (W.contents writer.new) (string_bytes page.old ++ line_of shown finding) (string_bytes page.new) result }
{
    let Ok(()) = add_line(page, shown, finding) else {
        return Err(SessionFault::Memory);
    };
    if page.len() < FULL_PAGE {
        return Ok(());
    }
    if let Err(fault) = send(writer, page.as_bytes()) {
        return Err(fault);
    }
    page.clear();
    Ok(())
}

// Says whether the file is damaged.
fn end_of(shown: Shown, is_good: bool) -> &'static [u8]
    ensures { result.now ≡ end_text shown is_good }
{
    match shown {
        Shown::Keys if is_good => b"",
        _ if is_good => b"good\n",
        _ => b"damaged\n",
    }
}

// The line of a finding, where it has one.
fn add_line(text: &mut String, shown: Shown, finding: Finding) -> Result<(), AllocError>
    ensures ok { OnOk result (string_bytes text.new ≡ string_bytes text.old ++ line_of shown finding) }
    ensures err { OnErr result (0 < length (line_of shown finding)) }
{
    match (shown, finding) {
        (Shown::Findings, finding) => add_finding(text, finding),
        (Shown::Keys, Finding::Key(_, key)) => write!(text, "{key}\n"),
        _ => Ok(()),
    }
}

fn add_finding(text: &mut String, finding: Finding) -> Result<(), AllocError>
    ensures { OnOk result (string_bytes text.new ≡ string_bytes text.old ++ finding_text finding) }
{
    match finding {
        Finding::Key(slot, key) => add_key(text, slot, key),
        Finding::BadKey(slot) => add_bad_key(text, slot),
        Finding::Twice(slot, first) => add_twice(text, slot, first),
    }
}

fn add_key(text: &mut String, slot: Slot, key: Key) -> Result<(), AllocError>
    ensures { OnOk result (string_bytes text.new ≡ string_bytes text.old ++ finding_text (Finding.Key slot key)) }
{
    let index = slot.index();
    write!(text, "slot {index} key {key}\n")
}

fn add_bad_key(text: &mut String, slot: Slot) -> Result<(), AllocError>
    ensures { OnOk result (string_bytes text.new ≡ string_bytes text.old ++ finding_text (Finding.BadKey slot)) }
{
    let index = slot.index();
    write!(text, "slot {index} badkey\n")
}

fn add_twice(text: &mut String, slot: Slot, first: Slot) -> Result<(), AllocError>
    ensures { OnOk result (string_bytes text.new ≡ string_bytes text.old ++ finding_text (Finding.Twice slot first)) }
{
    let index = slot.index();
    let first = first.index();
    write!(text, "slot {index} twice {first}\n")
}
