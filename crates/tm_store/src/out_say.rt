// Lines on standard output. What reaches it is the system's, so this sayer tells nothing; it counts
// its faults.

ghost use Rattle.std.specs.Prelude.{◌≡◌, ◌^◌, ◌<◌, None};

use crate::say::{Say, SayFailed};
use std::io;
use std::io::ErrorKind;

/// The standard output of a runtime.
#[derive(Drop)]
pub struct OutSay<R: Print + Drop> {
    out: R,
    faults: u64,
    ghost faults_fit: { faults < 2 ^ 64 },
}

impl<R: Print + Drop> OutSay<R> {
    /// The standard output of the runtime, with no fault counted.
    pub fn new(out: R) -> OutSay<R>
        ensures { result.faults ≡ 0 }
    {
        OutSay { out, faults: 0 }
    }
}

impl<R: Print + Drop> Say for OutSay<R> {
    ghost said = { λ _. None };

    ghost faults = { λ s. s.faults };

    fn line(&mut self, bytes: &[u8]) -> Result<(), SayFailed> {
        match print_line(&self.out, bytes) {
            Ok(()) => Ok(()),
            Err(_) => {
                self.faults = self.faults.saturating_add(1);
                Err(SayFailed)
            }
        }
    }

    ghost faults_fit = { λ s. s.faults_fit };
}

// Prints the bytes and an LF.
fn print_line<R: Print>(out: &R, bytes: &[u8]) -> io::Result<()> {
    print_whole(out, bytes)?;
    print_whole(out, b"\n")
}

// Prints all the bytes. A write that takes nothing is an error.
fn print_whole<R: Print>(out: &R, bytes: &[u8]) -> io::Result<()> {
    let mut rest = bytes;
    while !rest.is_empty() {
        let count = out.write_some(rest)?;
        if count == 0 {
            return Err(io::Error::from(ErrorKind::WriteZero));
        }
        rest = &rest[count..];
    }
    Ok(())
}
