//! Threads that share a set or a board, sessions and leases of the service, and what passes see of one another's calls. It has nothing but tests.
#![tactic(auto)]

#[cfg(test)]
mod beside;
#[cfg(test)]
mod boards;
#[cfg(test)]
mod counting;
#[cfg(test)]
mod drills;
#[cfg(test)]
mod gates;
#[cfg(test)]
mod glancing;
#[cfg(test)]
mod leases;
#[cfg(test)]
mod listing;
#[cfg(test)]
mod meeting;
#[cfg(test)]
mod partners;
#[cfg(test)]
mod plots;
#[cfg(test)]
mod talks;
#[cfg(test)]
mod tapes;
#[cfg(test)]
mod threads;
#[cfg(test)]
mod values;
#[cfg(test)]
mod waits;
