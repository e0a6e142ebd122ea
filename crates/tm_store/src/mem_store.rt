// A store in memory, whose failures are chosen beforehand: the store of the tests.

ghost use Rattle.std.specs.Prelude.{◌≡◌, ◌^◌, ◌<◌, take, IfOk, IfErr};
ghost use Rattle.tm_store.specs.declared.store.StoreFault.TheVariants.{NoMemory};

use crate::slot::{Slot, fill, slot_of};
use crate::store::{Store, StoreFault, WriteFailed};
use std::alloc::Global;

/// A store of slots. Its calls are numbered from 0, reads and writes together, up to the greatest
/// `u64`, at which the number stays. It keeps one count of failed reads and one of failed writes,
/// and gives each as the count of every name.
#[derive(Debug, Drop)]
pub struct MemStore {
    slots: Vec<Slot>,
    failing: Vec<u64>,
    next_call: u64,
    failed_reads: u64,
    failed_writes: u64,
    ghost reads_fit: { failed_reads < 2 ^ 64 },
    ghost writes_fit: { failed_writes < 2 ^ 64 },
}

impl MemStore {
    ghost use Rattle.std.specs.Prelude.{◌≢◌, ℕ, Bool, ◌↔◌, ◌||◌, IsTrue, option_map, length, min, ◌+◌, ◌-◌};
    ghost use Rattle.std.specs.List.{AllPairs};
    ghost use Rattle.tm_store.specs.Slot.{names_of, files_of};
    ghost use Rattle.tm_store.specs.MemStore.{Calls, slots_of, calls_of, is_listed};

    /// A store with these slots, in which the calls with the numbers in `failing` fail. Takes no
    /// memory beyond the lists handed in.
    pub fn new(slots: Vec<Slot>, failing: Vec<u64>) -> MemStore
        requires { AllPairs (λ name other. name ≢ other) (names_of slots.items) }
        ensures slots { slots_of result ≡ slots.items }
        ensures calls { calls_of result ≡ record { failing = failing.items; next = 0; failed_reads = 0; failed_writes = 0 } }
    {
        MemStore {
            slots,
            failing,
            next_call: 0,
            failed_reads: 0,
            failed_writes: 0,
        }
    }

    /// The bytes held under the name; `None` where it has no slot or its slot is empty.
    pub fn held(&self, name: &str) -> Option<&[u8]>
        ensures { option_map (λ bytes. bytes.now) result ≡ files_of (slots_of self.now) name.now }
    {
        match slot_of(&self.slots, name) {
            Some(slot) => slot.content(),
            None => None,
        }
    }

    // Counts the call that begins, and answers whether it is listed to fail.
    fn begin_call(&mut self) -> bool
        ensures listed { result ≡ is_listed (calls_of self.old) }
        ensures calls { calls_of self.new ≡ record (calls_of self.old) { next = min (self.old.next_call + 1) (2 ^ 64 - 1) } }
        ensures slots { self.new.slots ≡ self.old.slots }
    {
        let listed = self.failing.contains(&self.next_call);
        self.next_call = self.next_call.saturating_add(1);
        listed
    }
}

// The first `most` bytes, or all where they are fewer.
fn first_bytes(alloc: Global, bytes: &[u8], most: u64) -> Result<Vec<u8>, StoreFault>
    ensures first { IfOk result (λ first. first.items ≡ take most bytes.now) }
    ensures memory { IfErr result (λ fault. fault ≡ NoMemory) }
{
    let count = bytes.len().min(most as usize);
    Ok(Vec::from_slice(alloc, &bytes[..count])?)
}

impl Store for MemStore {
    ghost use Rattle.std.specs.Prelude.{◌≢◌, ℕ, List, Some, ◌↔◌, IsTrue, IsErr, is_err, IsSomeAnd, OnOk, OnErr, IsErrOf};
    ghost use Rattle.tm_store.specs.declared.store.StoreFault.TheVariants.{Failed};
    ghost use Rattle.tm_store.specs.Slot.{names_of, files_of};
    ghost use Rattle.tm_store.specs.MemStore.{slots_of, calls_of, read_fails, write_fails, after_read, after_write};

    ghost held = { λ s. Some (files_of (slots_of s)) };

    ghost read_faults = { λ s _. s.failed_reads };

    ghost write_faults = { λ s _. s.failed_writes };

    fn read(&mut self, alloc: Global, name: &str, most: u64) -> Result<Vec<u8>, StoreFault>
        ensures bytes { IfOk result (λ bytes. IsSomeAnd (files_of (slots_of self.old) name.now)
            (λ content. bytes.items ≡ take most content)) }
        ensures fails { IsErrOf result Failed
            ↔ IsTrue (read_fails (calls_of self.old) (slots_of self.old) name.now) }
        ensures slots { slots_of self.new ≡ slots_of self.old }
        ensures calls { calls_of self.new ≡ after_read (calls_of self.old)
            (read_fails (calls_of self.old) (slots_of self.old) name.now) }
    {
        let listed = self.begin_call();
        match self.held(name) {
            Some(bytes) if !listed => first_bytes(alloc, bytes, most),
            _ => {
                self.failed_reads = self.failed_reads.saturating_add(1);
                Err(StoreFault::Failed)
            }
        }
    }

    fn write(&mut self, name: &str, bytes: Vec<u8>) -> Result<(), WriteFailed>
        ensures written { OnOk result (files_of (slots_of self.new) name.now ≡ Some bytes.items) }
        ensures others { (n : List ℕ) → n ≢ name.now
            → files_of (slots_of self.new) n ≡ files_of (slots_of self.old) n }
        ensures names { names_of (slots_of self.new) ≡ names_of (slots_of self.old) }
        ensures fails { IsErr result
            ↔ IsTrue (write_fails (calls_of self.old) (slots_of self.old) name.now) }
        ensures unchanged { OnErr result (slots_of self.new ≡ slots_of self.old) }
        ensures calls { calls_of self.new ≡ after_write (calls_of self.old)
            (write_fails (calls_of self.old) (slots_of self.old) name.now) }
    {
        let listed = self.begin_call();
        if !listed && fill(&mut self.slots, name, bytes) {
            Ok(())
        } else {
            self.failed_writes = self.failed_writes.saturating_add(1);
            Err(WriteFailed)
        }
    }

    ghost read_faults_fit = { λ s _. s.reads_fit };

    ghost write_faults_fit = { λ s _. s.writes_fit };
}
