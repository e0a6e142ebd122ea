//! Tests of the recovered mapping on worked rows. They stand in a crate of their own, above the crate for tests that gives circuits and
//! mappings on a line, so that the program needs none of them.
//! Each row has the tables that a settling gives and those that are recovered.
#![tactic(auto)]

#[cfg(test)]
mod recovering;
