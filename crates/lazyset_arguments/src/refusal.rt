//! Why a command line asks for nothing that can be done.
use clap::Error;
use clap::error::ErrorKind;
use lz_resp::MOST_ARGUMENT;
use lz_slot::Format;
use std::alloc::{AllocError, Global};

#[derive(Debug, Drop)]
pub enum Refusal {
    Memory(AllocError),
    /// It asked for help, or for the version: this is what it gets.
    Help(String),
    /// It was not understood: the text says why.
    NotUnderstood(String),
}

/// What the parser's error says: help is no fault, and lack of memory none of the command line's.
pub fn refusal_of(alloc: Global, error: Error) -> Refusal {
    let kind = error.kind();
    if kind == ErrorKind::OutOfMemory {
        return Refusal::Memory(AllocError);
    }
    let Ok(text) = format!(in alloc; "{error}") else {
        return Refusal::Memory(AllocError);
    };
    match kind {
        ErrorKind::DisplayHelp | ErrorKind::DisplayVersion => Refusal::Help(text),
        _ => Refusal::NotUnderstood(text),
    }
}

/// So many buckets are more than a set in a file of this format may have.
pub fn too_many_buckets(alloc: Global, buckets: u64, format: Format) -> Refusal {
    not_within(alloc, "--buckets <B>", buckets, format.most_buckets())
}

/// A service can't have so many passes, but up to so many.
pub fn bad_passes(alloc: Global, passes: u64, most: usize) -> Refusal {
    not_within(alloc, "<PASSES>", passes, most)
}

/// Each loop needs a pass.
pub fn too_many_loops(alloc: Global) -> Refusal {
    not_understood(format!(in alloc; "error: '--loops <L>' is more than '<PASSES>'\n"))
}

/// This is no mode of a socket.
pub fn bad_mode(alloc: Global, mode: &str) -> Refusal {
    not_understood(format!(in alloc;
        "error: invalid value '{mode}' for '--socket-mode <MODE>': a mode is octal, 0 to 777, as 0660\n\nFor more information, try '--help'.\n"
    ))
}

/// A mode was named, and no socket.
pub fn no_socket(alloc: Global) -> Refusal {
    not_understood(format!(in alloc;
        "error: '--socket-mode <MODE>' needs '--socket <PATH>' or '--control <PATH>'\n"
    ))
}

/// A file of format 1 has no room for the mark of texts.
pub fn no_mark(alloc: Global) -> Refusal {
    not_understood(format!(in alloc;
        "error: invalid value '1' for '--format <F>': a file of texts is of format 2, 3 or 4\n\nFor more information, try '--help'.\n"
    ))
}

/// Older texts have no secret.
pub fn late_secret(alloc: Global) -> Refusal {
    not_understood(format!(in alloc;
        "error: the argument '--text=adopt' cannot be used with '--secret <PATH>': older texts have no secret\n\nFor more information, try '--help'.\n"
    ))
}

/// Older texts have no epochs.
pub fn late_epochs(alloc: Global) -> Refusal {
    not_understood(format!(in alloc;
        "error: the argument '--text=adopt' cannot be used with '--forget <SECONDS>': older texts have no epochs\n\nFor more information, try '--help'.\n"
    ))
}

/// No service of texts takes such a name.
pub fn long_name(alloc: Global) -> Refusal {
    not_understood(format!(in alloc;
        "error: invalid value for '--text <NAME>': a name has at most {MOST_ARGUMENT} bytes\n\nFor more information, try '--help'.\n"
    ))
}

// Where the command line itself knows the most, it says the same.
fn not_within(alloc: Global, name: &str, value: u64, most: usize) -> Refusal {
    not_understood(format!(in alloc;
        "error: invalid value '{value}' for '{name}': {value} is not in 1..={most}\n\nFor more information, try '--help'.\n"
    ))
}

fn not_understood(text: Result<String, AllocError>) -> Refusal {
    match text {
        Ok(text) => Refusal::NotUnderstood(text),
        Err(error) => Refusal::Memory(error),
    }
}
