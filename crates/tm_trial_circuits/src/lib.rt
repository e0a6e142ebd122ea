//! Tests of tables, stores, circuits and texts, which have worked rows written out. They stand in a crate of their own so that
//! the crates they test are proved but once.
#![tactic(auto)]

#[cfg(test)]
mod circuits;
#[cfg(test)]
mod covers;
#[cfg(test)]
mod joining;
#[cfg(test)]
mod lines;
#[cfg(test)]
mod naming;
#[cfg(test)]
mod reading;
#[cfg(test)]
mod reports;
#[cfg(test)]
mod running;
#[cfg(test)]
mod splitting;
#[cfg(test)]
mod starts;
#[cfg(test)]
mod stores;
#[cfg(test)]
mod vectors;
#[cfg(test)]
mod writing;
