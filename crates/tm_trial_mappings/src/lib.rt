//! Tests of cuts, mappings, replays and certificates, which have worked rows written out. They stand in a crate of their own so
//! that the crates they test are proved but once.
#![tactic(auto)]

#[cfg(test)]
mod certificates;
#[cfg(test)]
mod cuts;
#[cfg(test)]
mod leaves;
#[cfg(test)]
mod mappings;
#[cfg(test)]
mod nets;
#[cfg(test)]
mod replays;
#[cfg(test)]
mod walks;
