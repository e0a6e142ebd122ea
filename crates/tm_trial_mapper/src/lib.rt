//! Tests of the functions of tables, the mapped circuit, the checker, prime covers and samples, on worked rows. They stand in a crate of
//! their own so that the crates they test are proved but once.
//! Each module has the rows of one crate.
#![tactic(auto)]

#[cfg(test)]
mod building;
#[cfg(test)]
mod checking;
#[cfg(test)]
mod functions;
#[cfg(test)]
mod primed;
#[cfg(test)]
mod primes;
#[cfg(test)]
mod samples;
