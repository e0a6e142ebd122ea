// A certificate.

use tm_replay::Lowering;
use tm_unroll::Mapping;

/// A certificate: a mapping of this period, and the drops of a replay that show that none has a smaller one.
#[derive(Drop)]
pub struct Cert {
    /// The version of the rules that it speaks of, 1 or 2.
    pub version: u8,
    /// In tables on a chain.
    pub period: u32,
    pub mapping: Mapping,
    /// In the order of the replay.
    pub drops: Vec<Lowering>,
}
