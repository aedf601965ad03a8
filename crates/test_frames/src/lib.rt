//! Frames in pieces, and replies. It has nothing but tests.
#![tactic(auto)]

#[cfg(test)]
mod clearing;
#[cfg(test)]
mod frames;
#[cfg(test)]
mod greetings;
#[cfg(test)]
mod queries;
#[cfg(test)]
mod texts;
#[cfg(test)]
mod transactions;
