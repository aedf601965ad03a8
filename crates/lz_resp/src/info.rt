//! What a service tells of itself.
ghost use Rattle.std.specs.Prelude.{◌≡◌, ◌++◌, ◌-◌, IfOk, OnOk};
ghost use Rattle.std.specs.List.{flat_map};
ghost use Rattle.lz_resp.specs.Queries.{all_text, clients_text, info_text, keyspace_text, latency_text, lazyset_text, load_text, memory_text, row, run_text, server_text, state_text, stats_text, version_text};

use crate::figures::Figures;
use crate::query::Sections;
use crate::text::push_number;
use itoa::Buffer;
use std::alloc::{AllocError, Global};

// As many as a run's number has digits.
const ZEROS: &[u8] = b"0000000000000000000000000000000000000000";

/// These sections.
pub(crate) fn info(
    alloc: Global,
    sections: Sections,
    figures: &Figures,
) -> Result<Vec<u8>, AllocError>
    ensures { IfOk result (λ text. text.items ≡ info_text sections figures.now) }
{
    let mut text = Vec::new(alloc);
    match sections {
        Sections::All => push_all(&mut text, figures)?,
        Sections::Server => push_server(&mut text, figures)?,
        Sections::Clients => push_clients(&mut text, figures)?,
        Sections::Memory => push_memory(&mut text, figures)?,
        Sections::Stats => push_stats(&mut text, figures)?,
        Sections::Latencies => push_latency(&mut text, figures)?,
        Sections::Keyspace => push_keyspace(&mut text, figures)?,
        Sections::Lazyset => push_lazyset(&mut text, figures)?,
        Sections::Missing => {}
    }
    Ok(text)
}

fn push_all(text: &mut Vec<u8>, figures: &Figures) -> Result<(), AllocError>
    ensures { OnOk result (text.new.items ≡ text.old.items ++ all_text figures.now) }
{
    push_state(text, figures)?;
    text.extend_from_slice(b"\r\n")?;
    push_load(text, figures)
}

fn push_state(text: &mut Vec<u8>, figures: &Figures) -> Result<(), AllocError>
    ensures { OnOk result (text.new.items ≡ text.old.items ++ state_text figures.now) }
{
    push_server(text, figures)?;
    text.extend_from_slice(b"\r\n")?;
    push_clients(text, figures)?;
    text.extend_from_slice(b"\r\n")?;
    push_memory(text, figures)
}

fn push_load(text: &mut Vec<u8>, figures: &Figures) -> Result<(), AllocError>
    ensures { OnOk result (text.new.items ≡ text.old.items ++ load_text figures.now) }
{
    push_stats(text, figures)?;
    text.extend_from_slice(b"\r\n")?;
    push_latency(text, figures)?;
    text.extend_from_slice(b"\r\n")?;
    push_keyspace(text, figures)?;
    text.extend_from_slice(b"\r\n")?;
    push_lazyset(text, figures)
}

#[tactic(auto, unfolding(crate::specs::Queries::server_text))]
fn push_server(text: &mut Vec<u8>, figures: &Figures) -> Result<(), AllocError>
    ensures { OnOk result (text.new.items ≡ text.old.items ++ server_text figures.now) }
{
    text.extend_from_slice(b"# Server\r\nredis_version:7.0.0\r\nredis_mode:standalone\r\n")?;
    push_row(text, "process_id", figures.process)?;
    text.extend_from_slice(b"run_id:")?;
    push_run(text, figures.run)?;
    text.extend_from_slice(b"\r\n")?;
    push_row(text, "uptime_in_seconds", figures.seconds)
}

#[tactic(auto, unfolding(crate::specs::Queries::clients_text))]
fn push_clients(text: &mut Vec<u8>, figures: &Figures) -> Result<(), AllocError>
    ensures { OnOk result (text.new.items ≡ text.old.items ++ clients_text figures.now) }
{
    text.extend_from_slice(b"# Clients\r\n")?;
    push_row(text, "connected_clients", figures.clients)?;
    push_row(text, "maxclients", figures.most_clients)
}

#[tactic(auto, unfolding(crate::specs::Queries::memory_text))]
fn push_memory(text: &mut Vec<u8>, figures: &Figures) -> Result<(), AllocError>
    ensures { OnOk result (text.new.items ≡ text.old.items ++ memory_text figures.now) }
{
    text.extend_from_slice(b"# Memory\r\n")?;
    push_row(text, "used_memory", figures.used_bytes)?;
    push_row(text, "maxmemory", figures.most_bytes)
}

fn push_stats(text: &mut Vec<u8>, figures: &Figures) -> Result<(), AllocError>
    ensures { OnOk result (text.new.items ≡ text.old.items ++ stats_text figures.now) }
{
    text.extend_from_slice(b"# Stats\r\n")?;
    push_row(text, "total_connections_received", figures.sessions)?;
    push_row(text, "total_commands_processed", figures.answered)?;
    push_row(text, "instantaneous_ops_per_sec", figures.rate)?;
    Ok(())
}

#[tactic(auto, unfolding(crate::specs::Queries::latency_text))]
fn push_latency(text: &mut Vec<u8>, figures: &Figures) -> Result<(), AllocError>
    ensures { OnOk result (text.new.items ≡ text.old.items ++ latency_text figures.now) }
{
    text.extend_from_slice(b"# Latencystats\r\nlatency_percentiles_usec_reply:p50=")?;
    push_number(text, figures.median_us)?;
    text.extend_from_slice(b",p99=")?;
    push_number(text, figures.p99_us)?;
    text.extend_from_slice(b"\r\n")?;
    Ok(())
}

#[tactic(auto, unfolding(crate::specs::Queries::keyspace_text))]
fn push_keyspace(text: &mut Vec<u8>, figures: &Figures) -> Result<(), AllocError>
    ensures { OnOk result (text.new.items ≡ text.old.items ++ keyspace_text figures.now) }
{
    if figures.members == 0 {
        return text.extend_from_slice(b"# Keyspace\r\n");
    }
    text.extend_from_slice(b"# Keyspace\r\ndb0:keys=")?;
    push_number(text, figures.members)?;
    text.extend_from_slice(b",expires=0,avg_ttl=0\r\n")?;
    Ok(())
}

#[tactic(auto, unfolding(crate::specs::Queries::lazyset_text))]
fn push_lazyset(text: &mut Vec<u8>, figures: &Figures) -> Result<(), AllocError>
    ensures { OnOk result (text.new.items ≡ text.old.items ++ lazyset_text figures.now) }
{
    text.extend_from_slice(b"# Lazyset\r\n")?;
    push_version(text, figures)?;
    push_rows(
        text,
        &[
            ("format", figures.format),
            ("slots", figures.slots),
            ("members", figures.members),
            ("free", free_of(figures)),
            ("buckets", figures.buckets),
            ("passes", figures.passes),
            ("loops", figures.loops),
            ("adds", figures.adds),
            ("removes", figures.removes),
            ("lookups", figures.lookups),
            ("full", figures.full),
        ],
    )?;
    Ok(())
}

// How many slots hold neither a member nor a mark.
fn free_of(figures: &Figures) -> usize
    ensures { result ≡ figures.now.slots - figures.now.members - figures.now.marks }
{
    figures
        .slots
        .saturating_sub(figures.members)
        .saturating_sub(figures.marks)
}

#[tactic(auto, unfolding(crate::specs::Queries::version_text))]
fn push_version(text: &mut Vec<u8>, figures: &Figures) -> Result<(), AllocError>
    ensures { OnOk result (text.new.items ≡ text.old.items ++ version_text figures.now) }
{
    text.extend_from_slice(b"lazyset_version:")?;
    push_number(text, figures.major)?;
    text.extend_from_slice(b".")?;
    push_number(text, figures.minor)?;
    text.extend_from_slice(b"\r\n")?;
    Ok(())
}

// A line for each number, after its name.
fn push_rows(text: &mut Vec<u8>, numbers: &[(&str, usize)]) -> Result<(), AllocError>
    ensures { OnOk result (text.new.items ≡ text.old.items ++ flat_map (λ r. row r.0.now r.1) numbers.now) }
{
    for (name, number) in numbers {
        push_row(text, name, *number)?;
    }
    Ok(())
}

fn push_row(text: &mut Vec<u8>, name: &str, number: usize) -> Result<(), AllocError>
    ensures { OnOk result (text.new.items ≡ text.old.items ++ row name.now number) }
{
    text.extend_from_slice(name.as_bytes())?;
    text.extend_from_slice(b":")?;
    push_number(text, number)?;
    text.extend_from_slice(b"\r\n")
}

// The number of a run, with zeros in front.
fn push_run(text: &mut Vec<u8>, run: usize) -> Result<(), AllocError>
    ensures { OnOk result (text.new.items ≡ text.old.items ++ run_text run) }
{
    let mut digits = Buffer::new();
    let digits = digits.format(run).as_bytes();
    text.extend_from_slice(&ZEROS[digits.len()..])?;
    text.extend_from_slice(digits)
}
