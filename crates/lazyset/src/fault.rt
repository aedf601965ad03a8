//! What ends a command before it has what it works on.
use lazyset_arguments::Refusal;
use lazyset_set_commands::Status;
use std::alloc::AllocError;
use std::io;
use std::io::ErrorKind;
use thiserror::Error;

#[derive(Debug, Drop, Error)]
pub enum Fault {
    #[error("nofile\n")]
    NoFile,
    #[error("nosecret\n")]
    NoSecret,
    #[error("noread\n")]
    NoRead,
    #[error("nomemory\n")]
    Memory(#[from(alloc)] AllocError),
    #[error("noarguments\n")]
    NoArguments(io::Error),
    #[error("an argument isn't UTF-8\n")]
    NotText,
    /// The command line asked for help, or for the version.
    #[error("{0}")]
    Help(String),
    #[error("{0}")]
    NotUnderstood(String),
}

impl Fault {
    /// Why the process's arguments couldn't be had.
    pub fn of_arguments(error: io::Error) -> Fault {
        match error.kind() {
            ErrorKind::InvalidData => Fault::NotText,
            ErrorKind::OutOfMemory => Fault::Memory(AllocError),
            _ => Fault::NoArguments(error),
        }
    }

    /// Why the command line asks for nothing that can be done.
    pub fn of_refusal(refusal: Refusal) -> Fault {
        match refusal {
            Refusal::Memory(error) => Fault::Memory(error),
            Refusal::Help(text) => Fault::Help(text),
            Refusal::NotUnderstood(text) => Fault::NotUnderstood(text),
        }
    }

    /// What of it goes to standard error too, where the command line wasn't understood: its first line.
    pub fn words(&self) -> Option<&str> {
        match self {
            Fault::NotUnderstood(text) => text.as_str().lines().next(),
            Fault::NotText => Some("error: an argument isn't UTF-8"),
            _ => None,
        }
    }

    /// How the command ended.
    pub fn status(&self) -> Status {
        match self {
            Fault::Help(_) => Status::Done,
            Fault::NoFile | Fault::NoSecret => Status::Refused,
            Fault::NotText | Fault::NotUnderstood(_) => Status::CommandLine,
            Fault::NoRead | Fault::Memory(_) | Fault::NoArguments(_) => Status::Failed,
        }
    }

    /// How the command ended where its text couldn't be written: help that nobody gets has failed.
    pub fn status_untold(&self) -> Status {
        match self.status() {
            Status::Done => Status::Failed,
            status => status,
        }
    }
}
