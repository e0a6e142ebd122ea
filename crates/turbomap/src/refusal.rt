// What ends a command before its first write.

ghost use Rattle.std.specs.Prelude.{◌≡◌};
ghost use Rattle.turbomap.specs.declared.refusal.Refusal.TheVariants.{NoMemory};
ghost use Rattle.turbomap.specs.Prepared.{status_of, line_of};

use crate::line::NO_MEMORY;
use crate::status::Status;
use std::alloc::AllocError;

/// Why a command ends before its first write, with the line that is said.
#[derive(Debug, Drop)]
pub enum Refusal {
    NoMemory,
    Unread(String),
    BadText(String),
    TooLong(String),
    NotAccepted(String),
}

impl Refusal {
    /// The status of the program.
    pub fn status(&self) -> Status
        ensures { result ≡ status_of self.now }
    {
        match self {
            Refusal::NoMemory => Status::NoMemory,
            Refusal::Unread(_) => Status::Unread,
            Refusal::BadText(_) => Status::BadText,
            Refusal::TooLong(_) => Status::TooLong,
            Refusal::NotAccepted(_) => Status::NotAccepted,
        }
    }

    /// The line that is said, without its LF.
    pub fn line(&self) -> &str
        ensures { result.now ≡ line_of self.now }
    {
        match self {
            Refusal::NoMemory => NO_MEMORY,
            Refusal::Unread(line)
            | Refusal::BadText(line)
            | Refusal::TooLong(line)
            | Refusal::NotAccepted(line) => line.as_str(),
        }
    }
}

impl From<AllocError> for Refusal {
    ghost from_gives = { λ _ refusal. refusal ≡ NoMemory };

    fn from(_refused: AllocError) -> Self {
        Refusal::NoMemory
    }
}

impl From<tm_bits::NoMemory> for Refusal {
    ghost from_gives = { λ _ refusal. refusal ≡ NoMemory };

    fn from(_refused: tm_bits::NoMemory) -> Self {
        Refusal::NoMemory
    }
}
