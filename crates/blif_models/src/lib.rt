//! From the lines of a BLIF text to its models: statements with their rows, and the rules that a line may break.
//! The lines are gone over once, statement by statement.
//! What a model's names drive and read is left to the crates above.
#![tactic(auto)]

mod heads;
mod keyword;
mod rows;
mod several;
mod statements;
mod words;

pub use keyword::Keyword;
pub use several::units;
pub use statements::unit_of;
