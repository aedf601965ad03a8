//! One function for each command: it opens what the command works on.
ghost use Rattle.std.specs.Prelude.{◌≤◌};
ghost use Rattle.lz_slot.specs.Limits.{most_buckets, most_buckets_of, most_rehearsed};
ghost use Rattle.lazyset_arguments.specs.Requests.{IsWithin};

use crate::asking::{ask_to_clear, ask_to_stop};
use crate::copying::copy;
use crate::fault::Fault;
use crate::files::{StandIns, open_alone, open_source, read_front, ready_for, say_cause};
use crate::growing::grow;
use crate::heard::Heard;
use crate::held::is_held;
use crate::new_files::{make, make_keys, renew};
use crate::over_disk::{Opened, run_over};
use crate::source::Source;
use crate::starting::serve_file;
use crate::told::Told;
use crate::words::{Roomy, words_of};
use lazyset_arguments::{Request, read};
use lazyset_set_commands::{
    MOST_JUDGED, Shown, Status, check_of_on, judge_on, rehearse_on, survey_on, torn_slots,
};
use lz_slot::Format;
use std::fs::File;
use std::io::Write;
use std::net::{Net, TcpListener, TcpStream};
use std::rt::{Env, Files};
use std::sync::Wait;
use std::thread::Threads;
use std::time::Clock;
use std::{env, io};

/// Runs the command that the process's arguments name. Where it ends with a line that refuses, says in words why.
pub fn run<R>(rt: &R) -> Result<Status, Fault>
where
    R: Env + Files<File = File> + Input + Print + Eprint + AllocGlobal,
    R: Net<Listener = TcpListener, Stream = TcpStream> + Threads + Wait + Clock + Sync,
{
    let words: Vec<String> = match env::args(rt) {
        Ok(words) => words.collect(rt.alloc())?,
        Err(error) => return Err(Fault::of_arguments(error)),
    };
    match read(rt.alloc(), words.as_slice()) {
        Ok(request) => {
            let stands = StandIns::new(rt);
            let mut writer = Heard::new(io::writer(rt));
            let status = dispatch(rt, request, &stands, &mut writer);
            if let Ok(Status::Failed | Status::Refused) = status {
                say_why(rt, request, writer.line());
            }
            drop(stands);
            status
        }
        Err(refusal) => Err(Fault::of_refusal(refusal)),
    }
}

// Says in words why the command ended with this line.
fn say_why<R: Eprint>(rt: &R, request: Request<'_>, line: Option<&str>) {
    let Some(line) = line else { return };
    if let Some(words) = words_of(request, line) {
        let _ = eprintln!(rt; "lazyset: {request}: {line}: {words}");
    }
    if let Some(command) = Roomy::of(request, line) {
        let _ = eprintln!(rt;
            "lazyset: {command} would do, on a disk where a crash leaves each byte that was being written old or new"
        );
    }
}

fn dispatch<R, W>(
    rt: &R,
    request: Request<'_>,
    stands: &StandIns,
    writer: &mut W,
) -> Result<Status, Fault>
where
    R: Env + Files<File = File> + Input + Eprint + AllocGlobal,
    R: Net<Listener = TcpListener, Stream = TcpStream> + Threads + Wait + Clock + Sync,
    W: Write + Drop,
    requires { IsWithin request }
{
    match request {
        Request::Make(new) => make(rt, writer, new),
        Request::MakeKeys(new, texts_of) => make_keys(rt, writer, stands, new, texts_of),
        Request::Renew(old, new) => renew(rt, writer, old, new),
        Request::Grow {
            file,
            slots,
            format,
        } => grow(rt, writer, file, slots, format),
        Request::Copy(wish) => copy(rt, writer, wish),
        Request::Run {
            file,
            buckets,
            no_lock,
        } => run_file(rt, writer, file, buckets, no_lock),
        Request::Serve(service) => serve_file(rt, writer, service),
        Request::Stop { path, within } => ask_to_stop(rt, path, within),
        Request::Clear { path, room } => ask_to_clear(rt, writer, path, room),
        Request::Info { file } => survey(rt, writer, file, Shown::Counts),
        Request::Check { file, of } => check(rt, writer, file, of),
        Request::Keys { file } => survey(rt, writer, file, Shown::Keys),
        Request::Judge { file } => judge(rt, writer, file),
        Request::Rehearse {
            slots,
            buckets,
            format,
        } => Ok(rehearse(rt, writer, slots, buckets, format)),
    }
}

fn run_file<R, W>(
    rt: &R,
    writer: &mut W,
    file: &str,
    buckets: usize,
    no_lock: bool,
) -> Result<Status, Fault>
where
    R: Files<File = File> + Input + Eprint + AllocGlobal + Wait + Clock,
    W: Write + Drop,
    requires { (1 ≤ buckets) × (buckets ≤ most_buckets) }
{
    let mut disk = open_alone(rt, file, no_lock)?;
    let header = ready_for(rt, file, &mut disk, buckets)?;
    let told = Told {
        rt,
        file,
        buckets,
        most_buckets: header.map_or(buckets, |header| header.format.most_buckets()),
    };
    let opened = Opened { path: file, disk };
    let (status, disk) = run_over(rt, &mut rt.reader(), writer, &told, opened, buckets);
    say_cause(rt, file, disk.cause());
    Ok(status)
}

fn survey<R, W>(rt: &R, writer: &mut W, file: &str, shown: Shown) -> Result<Status, Fault>
where
    R: Files<File = File> + Eprint + Clock + AllocGlobal,
    W: Write + Drop,
{
    let mut source = open_source(rt, file)?;
    let was_held = is_held(rt, file);
    let status = survey_on(rt.alloc(), &mut source, writer, shown);
    say_held(rt, file, was_held);
    say_cause(rt, file, source.end());
    say_torn(rt, file, &mut source, status);
    Ok(status)
}

// Says how many slots a crash has torn in a file that was surveyed, where it has torn some. They are counted by a read of their own.
fn say_torn<R>(rt: &R, file: &str, source: &mut Source<'_, '_, R, File>, status: Status)
where
    R: Eprint + Clock,
{
    let (Status::Done | Status::Damaged) = status else {
        return;
    };
    let counted = match source.rewind() {
        Ok(()) => torn_slots(source),
        Err(error) => Err(error),
    };
    let _ = match counted {
        Ok(0) => Ok(()),
        Ok(1) => {
            eprintln!(rt; "lazyset: {file}: 1 slot is torn: a crash left it so, and it is free")
        }
        Ok(count) => {
            eprintln!(rt;
                "lazyset: {file}: {count} slots are torn: a crash left them so, and they are free"
            )
        }
        Err(error) => eprintln!(rt; "lazyset: {file}: torn slots weren't counted: {error}"),
    };
}

// Says that a file was read while another process had it to itself, where one had or has.
fn say_held<R: Files<File = File> + Eprint + AllocGlobal>(rt: &R, file: &str, was_held: bool) {
    if was_held || is_held(rt, file) {
        let _ = eprintln!(rt;
            "lazyset: {file}: another process has it open: what is told is of no one moment"
        );
    }
}

fn check<R, W>(rt: &R, writer: &mut W, file: &str, of: Option<&str>) -> Result<Status, Fault>
where
    R: Files<File = File> + Eprint + Clock + AllocGlobal,
    W: Write + Drop,
{
    let Some(old) = of else {
        return survey(rt, writer, file, Shown::Findings);
    };
    let mut source = open_source(rt, file)?;
    let mut older = open_source(rt, old)?;
    let (was_held, was_older_held) = (is_held(rt, file), is_held(rt, old));
    let status = check_of_on(rt.alloc(), &mut source, &mut older, writer);
    say_held(rt, file, was_held);
    say_held(rt, old, was_older_held);
    say_cause(rt, file, source.end());
    say_cause(rt, old, older.end());
    say_torn(rt, file, &mut source, status);
    Ok(status)
}

fn judge<R, W>(rt: &R, writer: &mut W, file: &str) -> Result<Status, Fault>
where
    R: Files<File = File> + Eprint + Clock + AllocGlobal,
    W: Write + Drop,
{
    let bytes = read_front(rt, file, MOST_JUDGED)?;
    Ok(judge_on(rt.alloc(), bytes.as_slice(), writer))
}

#[tactic(auto, using(crate::proofs::Buckets::buckets_of_format))]
fn rehearse<R, W>(rt: &R, writer: &mut W, slots: usize, buckets: usize, format: Format) -> Status
where
    R: Input + AllocGlobal,
    W: Write + Drop,
    requires slots { (1 ≤ slots) × (slots ≤ most_rehearsed) }
    requires buckets { (1 ≤ buckets) × (buckets ≤ most_buckets_of format) }
{
    rehearse_on(rt.alloc(), &mut rt.reader(), writer, slots, buckets, format)
}
