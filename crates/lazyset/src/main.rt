//! The command line of the set service: it reads the words, opens the files, and hands over to the library of commands.
#![tactic(auto)]

mod asked;
mod asking;
mod at_path;
mod backlog;
mod before;
mod beside;
mod commands;
mod control;
mod copying;
mod counted;
mod descriptors;
mod ending;
mod fault;
mod files;
mod forgetting;
mod formats;
mod gauge;
mod growing;
mod handed;
mod heard;
mod held;
mod identity;
mod latencies;
mod level;
mod lines;
mod log;
mod long_lists;
mod making;
mod many;
mod moment;
mod moored;
mod new_files;
mod over_disk;
mod rate;
mod ready;
mod rewriting;
mod secrets;
mod seldom;
mod service;
mod shape;
mod share;
mod shown_disk;
mod source;
mod standby;
mod starting;
mod tally;
mod texts;
mod told;
mod wanted;
mod watched;
mod way_out;
mod words;

use crate::commands::run;
use crate::share::are_terminals;
use std::process::ExitCode;

fn main(rt: HostRuntime) -> ExitCode {
    match run(&rt) {
        Ok(status) => ExitCode::from(status.code()),
        Err(fault) => {
            if let Some(words) = fault.words()
                && !are_terminals(&rt)
            {
                let _ = eprintln!(rt; "lazyset: {words}");
            }
            // Where standard output fails too, the status alone is left to tell.
            let status = match print!(rt; "{fault}") {
                Ok(()) => fault.status(),
                Err(_) => fault.status_untold(),
            };
            ExitCode::from(status.code())
        }
    }
}
