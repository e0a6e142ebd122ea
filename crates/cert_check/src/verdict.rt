// What a check comes to.

ghost use Rattle.std.specs.Prelude.{◌≡◌};
ghost use Rattle.cert_check.specs.Reasons.{why_of_mapping, why_of_drop};

use tm_replay::DropWhy;
use tm_unroll::MapWhy;

/// What a check comes to.
#[derive(Clone, Copy, Debug, PartialEq, Eq)]
pub enum Verdict {
    /// All tests hold.
    Yes,
    /// The first test that fails. The entry is the table, the output for `Output`, or the drop, each counted from 1; it is 0 for
    /// `Chain`, `Circuit` and `Unfinished`.
    No { entry: u32, why: Why },
}

/// The tests of a check, by what fails, in the order in which they are made: each table by the first four, then the outputs,
/// the period, the circuit, each drop by four, and at last what the drops come to.
#[derive(Clone, Copy, Debug, PartialEq, Eq)]
pub enum Why {
    /// The gate of the table is no gate, or is not greater than that of the table before, or the lag is not allowed.
    Lag,
    /// The table has too many leaves, or they do not ascend, or one is no leaf of a table of this lag.
    Leaves,
    /// A walk from the table meets none of its leaves, or a leaf is not reached.
    Uncovered,
    /// A gate leaf has no table of at least its advance, or the source gate of a latch leaf has none.
    Unserved,
    /// The source gate of the output has no table.
    Output,
    /// The period of the mapping is more than the certificate's.
    Chain,
    /// The circuit is not the mapped circuit.
    Circuit,
    /// The drop's gate is no gate, its arrival is 0 or not below the period, or the label of its gate is none, has another lag,
    /// or has a greater arrival.
    Order,
    /// The number of the drop's walks is neither 1 nor `k + 1`.
    TooFew,
    /// One of the drop's walks is no walk from its gate at its lag to an end.
    Path,
    /// A node that is served before the drop's arrival stands on two of its walks, or on the walk where there is one.
    Shared,
    /// The drops refute nothing: each output whose source is a gate still has a label.
    Unfinished,
}

impl Why {
    /// The reason for a mapping's fault.
    pub(crate) fn of_mapping(why: MapWhy) -> Why
        ensures { result ≡ why_of_mapping why }
    {
        match why {
            MapWhy::Lag => Why::Lag,
            MapWhy::Leaves => Why::Leaves,
            MapWhy::Uncovered => Why::Uncovered,
            MapWhy::Unserved => Why::Unserved,
            MapWhy::Output => Why::Output,
        }
    }

    /// The reason for a drop's fault.
    pub(crate) fn of_drop(why: DropWhy) -> Why
        ensures { result ≡ why_of_drop why }
    {
        match why {
            DropWhy::Order => Why::Order,
            DropWhy::TooFew => Why::TooFew,
            DropWhy::Path => Why::Path,
            DropWhy::Shared => Why::Shared,
        }
    }
}
