// How a run of the program ends.

ghost use Rattle.std.specs.Prelude.{◌≡◌};
ghost use Rattle.turbomap.specs.Run.{number};

/// How a run ends. The program's exit status is its number.
#[derive(Clone, Copy, Debug, PartialEq, Eq)]
pub enum Status {
    Done = 0,
    NoMemory = 1,
    BadWords = 2,
    Unread = 3,
    Unwritten = 4,
    BadText = 5,
    TooLong = 6,
    NotAccepted = 7,
}

/// The number of the status.
pub fn number_of(status: Status) -> u8
    ensures { result ≡ number status }
{
    status as u8
}
