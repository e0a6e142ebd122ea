//! TurboMap covers a sequential circuit with lookup tables and writes the mapped circuit.
//! `run` is all that the program does, over any store of files and any listener of lines; `main` hands
//! it the files, the standard output and the words of the command line.
#![tactic(auto)]

#[cfg(test)]
mod aiger_rows;
mod bound_file;
mod check_files;
#[cfg(test)]
mod check_rows;
#[cfg(test)]
mod check_tests;
mod deliver;
mod kind;
mod large;
mod line;
mod map_file;
#[cfg(test)]
mod models_rows;
pub mod reading;
mod ready;
mod refusal;
#[cfg(test)]
mod rows;
mod say;
mod show_file;
mod sim_files;
pub mod status;
#[cfg(test)]
mod tests;
pub mod text;
pub mod top;
pub mod words;

use std::env::Env;
use std::io::ErrorKind;
use std::process::ExitCode;
use std::{env, io};
pub use text_read::TextKind;
use tm_store::{FileStore, OutSay};
pub use tm_texts::{
    CheckFault, Checked, MapFault, Mapped, SimFault, Simulated, check_texts, map_text, prime_text,
    sim_text,
};

/// The exit status where there is no memory for the words.
const NO_MEMORY: u8 = 1;

/// The exit status where the words are no text.
const NO_TEXT: u8 = 8;

fn main(rt: HostRuntime) -> ExitCode {
    match words_given(&rt) {
        Ok(words) => {
            let mut store = FileStore::new(&rt);
            let mut say = OutSay::new(&rt);
            ExitCode::from(top::run(rt.alloc(), &words, &mut store, &mut say))
        }
        Err(error) if error.kind() == ErrorKind::OutOfMemory => ExitCode::from(NO_MEMORY),
        Err(_) => ExitCode::from(NO_TEXT),
    }
}

// The words after the program's name.
fn words_given<R: Env + AllocGlobal>(rt: &R) -> io::Result<Vec<String>> {
    let mut words = Vec::new(rt.alloc());
    for word in env::args(rt)?.skip(1) {
        words.push(word)?;
    }
    Ok(words)
}
