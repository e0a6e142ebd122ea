// A sayer in memory, whose failures are chosen beforehand: the sayer of the tests.

ghost use Rattle.std.specs.Prelude.{◌≡◌, ◌^◌, ◌<◌, ◌≤◌, vec_len, vec_capacity};

use crate::say::{Say, SayFailed};
use std::alloc::Global;
use tm_bits::NoMemory;

/// The bytes said, in room that is reserved once. Calls are numbered from 0, up to the greatest
/// `u64`, at which the number stays.
#[derive(Debug, Drop)]
pub struct MemSay {
    bytes: Vec<u8>,
    room: usize,
    failing: Vec<u64>,
    next_call: u64,
    faults: u64,
    ghost faults_fit: { faults < 2 ^ 64 },
    ghost within: { vec_len bytes ≤ room },
    ghost reserved: { room ≤ vec_capacity bytes },
}

impl MemSay {
    ghost use Rattle.std.specs.Prelude.{ℕ, List, [], ◌+◌, ◌-◌, ◌++◌, Bool, ◌==◌, IfOk, min, take, length, if◌then◌else◌};
    ghost use Rattle.tm_store.specs.MemSay.{Lines, lines_of, is_listed, space, line_fails};

    /// A sayer with room for `room` bytes, in which the calls with the numbers in `failing` fail.
    pub fn new(alloc: Global, room: usize, failing: Vec<u64>) -> Result<MemSay, NoMemory>
        ensures { IfOk result (λ say. lines_of say ≡ record { said = []; room = room; failing = failing.items; next = 0; faults = 0 }) }
    {
        let bytes = Vec::with_capacity(alloc, room)?;
        Ok(MemSay {
            bytes,
            room,
            failing,
            next_call: 0,
            faults: 0,
        })
    }

    /// The bytes said so far.
    pub fn said(&self) -> &[u8]
        ensures { result.now ≡ (lines_of self.now).said }
    {
        self.bytes.as_slice()
    }

    // Counts the call that begins, and answers how many bytes it can append.
    fn begin_call(&mut self) -> usize
        ensures space { result ≡ space (lines_of self.old) }
        ensures lines { lines_of self.new ≡ record (lines_of self.old) { next = min (self.old.next_call + 1) (2 ^ 64 - 1) } }
    {
        let listed = self.failing.contains(&self.next_call);
        self.next_call = self.next_call.saturating_add(1);
        if listed {
            0
        } else {
            self.room - self.bytes.len()
        }
    }

    // Appends the bytes, for which there is room.
    fn append(&mut self, bytes: &[u8])
        requires { vec_len self.old.bytes + length bytes.now ≤ self.old.room }
        ensures { lines_of self.new ≡ record (lines_of self.old) { said = (lines_of self.old).said ++ bytes.now } }
    {
        self.bytes.extend_from_slice(bytes).unwrap();
    }
}

impl Say for MemSay {
    ghost use Rattle.std.specs.Prelude.{Some, ◌↔◌, IsTrue, IsErr};
    ghost use Rattle.tm_store.specs.MemSay.{lines_of, line_fails, after_line};

    ghost said = { λ s. Some (lines_of s).said };

    ghost faults = { λ s. s.faults };

    fn line(&mut self, bytes: &[u8]) -> Result<(), SayFailed>
        ensures fails { IsErr result ↔ IsTrue (line_fails (lines_of self.old) bytes.now) }
        ensures lines { lines_of self.new ≡ after_line (lines_of self.old) bytes.now }
    {
        let space = self.begin_call();
        if bytes.len() < space {
            self.append(bytes);
            self.append(b"\n");
            Ok(())
        } else {
            self.append(&bytes[..space]);
            self.faults = self.faults.saturating_add(1);
            Err(SayFailed)
        }
    }

    ghost faults_fit = { λ s. s.faults_fit };
}
