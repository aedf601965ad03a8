//! The counts of what a file holds.
ghost use Rattle.std.specs.Prelude.{◌≡◌, ◌++◌, IfOk, OnOk, count_by};
ghost use Rattle.std.specs.String.{string_bytes};
ghost use Rattle.lz_judge.specs.Surveys.{is_sound};
ghost use Rattle.lazyset_file_commands.specs.Counts.{count_text, counts_text, format_number};

use lz_judge::Finding;
use lz_slot::{Format, Header};
use std::alloc::{AllocError, Global};

/// The lines `format F`, `slots N`, `members M` and `free F` of a file with this head in which this was found.
pub(crate) fn counts_of(
    alloc: Global,
    header: Header,
    findings: &[Finding],
) -> Result<String, AllocError>
    ensures { IfOk result (λ text. string_bytes text ≡ counts_text header.format header.slots findings.now) }
{
    let mut text = String::new(alloc);
    add_count(&mut text, "format", format_number(header.format))?;
    add_count(&mut text, "slots", header.slots)?;
    add_count(&mut text, "members", members_in(findings))?;
    let free = header.slots.saturating_sub(findings.len() as u64);
    add_count(&mut text, "free", free)?;
    Ok(text)
}

fn add_count(text: &mut String, word: &str, count: u64) -> Result<(), AllocError>
    ensures { OnOk result (string_bytes text.new ≡ string_bytes text.old ++ count_text word.now count) }
{
    write!(text, "{word} {count}\n")
}

fn members_in(findings: &[Finding]) -> u64
    ensures { result ≡ count_by is_sound findings.now }
{
    findings.iter().filter(|finding| finding.is_sound()).count() as u64
}

/// The number that a format is asked for by.
pub fn format_number(format: Format) -> u64
    ensures { result ≡ format_number format }
{
    match format {
        Format::One => 1,
        Format::Two => 2,
        Format::Three => 3,
        Format::Four => 4,
    }
}
