//! Files that grow in place, on disks in memory. It has nothing but tests.
#![tactic(auto)]

#[cfg(test)]
mod files;
#[cfg(test)]
mod fronts;
#[cfg(test)]
mod heads;
#[cfg(test)]
mod next;
#[cfg(test)]
mod raises;
