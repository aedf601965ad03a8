//! The commands over devices, readers and writers that fail, and many connections that one loop serves by few passes. It has nothing
//! but tests.
#![tactic(auto)]

#[cfg(test)]
mod broken_pipes;
#[cfg(test)]
mod commands;
#[cfg(test)]
mod conversations;
#[cfg(test)]
mod copies;
#[cfg(test)]
mod crashes;
#[cfg(test)]
mod files;
#[cfg(test)]
mod growths;
#[cfg(test)]
mod lists;
#[cfg(test)]
mod loop_ends;
#[cfg(test)]
mod loops;
#[cfg(test)]
mod network;
#[cfg(test)]
mod renewals;
#[cfg(test)]
mod scripts;
#[cfg(test)]
mod sessions;
#[cfg(test)]
mod surveys;
