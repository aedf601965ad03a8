//! Plays of the machine, and its lists and slots by themselves. It has nothing but tests.
#![tactic(auto)]

#[cfg(test)]
mod lists;
#[cfg(test)]
mod plays;
#[cfg(test)]
mod slots;
#[cfg(test)]
mod torn_slots;
