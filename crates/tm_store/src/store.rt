// Files by name: what is held where a store tells it, and the faults of each name, counted.

ghost use Rattle.std.specs.Prelude.{◌≡◌, ℕ, ◌^◌, ◌<◌, ◌≤◌, List, Option, take, IfOk, OnOk, OnErr, IsErrOf, IfSome, IsSomeAnd};
ghost use Rattle.tm_store.specs.Faults.{Rose};
ghost use Rattle.tm_store.specs.Files.{Files, Tells, KeepsOthers};
ghost use Rattle.tm_store.specs.declared.store.StoreFault.TheVariants.{NoMemory};

use std::alloc::{AllocError, Global};
use thiserror::Error;

/// Why a read gives no bytes: a fault that the store has counted, or want of memory.
#[derive(Clone, Copy, Debug, PartialEq, Eq, Error)]
pub enum StoreFault {
    #[error("the read failed")]
    Failed,
    #[error("no memory")]
    NoMemory,
}

impl From<AllocError> for StoreFault {
    ghost from_gives = { λ _ fault. fault ≡ NoMemory };

    fn from(_refused: AllocError) -> Self {
        StoreFault::NoMemory
    }
}

/// The one answer of a failed write: a fault that the store has counted.
#[derive(Clone, Copy, Debug, PartialEq, Eq, Error)]
#[error("the write failed")]
pub struct WriteFailed;

/// Files by name. Each name has a count of read faults and one of write faults, which never fall.
pub trait Store {
    // The files held, where the store tells them.
    ghost held: { Self → Option Files };

    // The failed reads and the failed writes of a name.
    ghost read_faults: { Self → List ℕ → ℕ };

    ghost write_faults: { Self → List ℕ → ℕ };

    /// Gives the bytes held under the name, or the first `most` of them where they are more. Fails
    /// where a fault was counted, as for a name that holds nothing, or for want of memory.
    fn read(&mut self, alloc: Global, name: &str, most: u64) -> Result<Vec<u8>, StoreFault>
        ensures bytes { IfOk result (λ bytes. IfSome (held self.old)
            (λ files. IsSomeAnd (files name.now) (λ content. bytes.items ≡ take most content))) }
        ensures cause { IsErrOf result StoreFault.Failed
            → Rose (read_faults self.old name.now) (read_faults self.new name.now) }

        // Nothing held changes, and the store still tells it.
        ensures same { held self.new ≡ held self.old }
        ensures read_counts { (n : List ℕ) → read_faults self.old n ≤ read_faults self.new n }
        ensures write_counts { (n : List ℕ) → write_faults self.old n ≤ write_faults self.new n };

    /// Makes the name hold exactly the bytes. Takes no memory. Where it fails, a fault was counted,
    /// and nothing is known of that name.
    fn write(&mut self, name: &str, bytes: Vec<u8>) -> Result<(), WriteFailed>
        ensures written { OnOk result
            (IfSome (held self.new) (λ files. files name.now ≡ Some bytes.items)) }
        ensures cause { OnErr result
            (Rose (write_faults self.old name.now) (write_faults self.new name.now)) }

        // Whether it fails or not, every other name is as it was, and the store still tells.
        ensures others { KeepsOthers (held self.old) (held self.new) name.now }
        ensures tells { Tells (held self.old) (held self.new) }
        ensures read_counts { (n : List ℕ) → read_faults self.old n ≤ read_faults self.new n }
        ensures write_counts { (n : List ℕ) → write_faults self.old n ≤ write_faults self.new n };

    // Each count is one of 64 bits.
    ghost read_faults_fit: { (s : Self) (n : List ℕ) → read_faults s n < 2 ^ 64 };

    ghost write_faults_fit: { (s : Self) (n : List ℕ) → write_faults s n < 2 ^ 64 };
}
