//! Makes each call that asks for memory, and prints what it answered; or tells how often a set is looked at by glances.
//!
//! Where a request is refused, as the kit's runner does it (`fail-allocations`), one line more is printed: `again` and the
//! call, with the number of its fault where it has one. Then what the call was made on is as before, and the same call made
//! again answers as it would have. `again` alone says that there was no memory for what a call is made on.
#![tactic(auto)]

mod boards;
mod calls;
mod fault;
mod file;
mod histories;
mod lines;
mod plays;
mod prior;
mod rates;
mod sessions;
mod sets;
mod surveys;
mod vaults;

use std::process::ExitCode;

fn main(rt: HostRuntime) -> ExitCode {
    match calls::drill(&rt) {
        Ok(()) => ExitCode::SUCCESS,
        Err(fault) => {
            let _ = print!(rt; "{fault}");
            ExitCode::from(1)
        }
    }
}
