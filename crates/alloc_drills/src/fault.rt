//! Why a drill broke off.
use std::alloc::AllocError;
use std::io;
use thiserror::Error;

#[derive(Debug, Drop, Error)]
pub enum Fault {
    /// There was no memory for what the call is made on, and nothing was printed.
    #[error("no memory\n")]
    Unready(#[from] AllocError),
    /// A call was answered otherwise than stated, or left something else than it was made on.
    #[error("wrong\n")]
    Wrong,
    #[error("a line could not be written\n")]
    Output(#[from] io::Error),
}
