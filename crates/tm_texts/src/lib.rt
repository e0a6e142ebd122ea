//! What the commands make of texts: a mapped text with its certificate, the verdict on one, a bound, and the rows of a simulation.
//! Each call takes texts and answers texts or the first fault of one of them; files and lines are left to the program.
//! The limits of the commands stand here, held to the numbers of the definitions.
#![tactic(auto)]

mod bound;
mod check;
mod large;
mod limits;
mod map;
mod prime;
mod simulate;
mod source;

pub use bound::bound_text;
pub use check::{CheckFault, Checked, check_texts};
pub use large::{Large, large_sample};
pub use limits::{
    LEAST_SAMPLE, MAPPED_BYTES, MOST_B, MOST_D, MOST_SAMPLE, OUTPUT_BYTES, SOURCE_BYTES,
    VECTOR_BYTES, limits_hold,
};
pub use map::{Mapped, map_text};
pub use prime::prime_text;
pub use simulate::{SimFault, Simulated, sim_text};
pub use source::MapFault;
