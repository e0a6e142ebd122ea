// Files of the system by their paths. What they hold is the system's, so this store tells nothing;
// it counts its faults.

ghost use Rattle.std.specs.Prelude.{◌≡◌, ◌^◌, ◌<◌, None};

use crate::store::{Store, StoreFault, WriteFailed};
use std::alloc::Global;
use std::io::{ErrorKind, Read, Write};
use std::rt::Files;
use std::{fs, io};

// How many bytes one read asks for at most.
const PIECE: usize = 16384;

/// The files of a runtime, a name taken as a path. It keeps one count of failed reads and one of
/// failed writes, and gives each as the count of every name.
#[derive(Drop)]
pub struct FileStore<R: Files + Drop> {
    files: R,
    failed_reads: u64,
    failed_writes: u64,
    ghost reads_fit: { failed_reads < 2 ^ 64 },
    ghost writes_fit: { failed_writes < 2 ^ 64 },
}

impl<R: Files + Drop> FileStore<R> {
    /// The files of the runtime, with no fault counted.
    pub fn new(files: R) -> FileStore<R>
        ensures reads { result.failed_reads ≡ 0 }
        ensures writes { result.failed_writes ≡ 0 }
    {
        FileStore {
            files,
            failed_reads: 0,
            failed_writes: 0,
        }
    }
}

impl<R: Files + Drop> Store for FileStore<R> {
    ghost held = { λ _. None };

    ghost read_faults = { λ s _. s.failed_reads };

    ghost write_faults = { λ s _. s.failed_writes };

    fn read(&mut self, alloc: Global, name: &str, most: u64) -> Result<Vec<u8>, StoreFault> {
        match read_file(alloc, &self.files, name, most as usize) {
            Ok(bytes) => Ok(bytes),
            Err(error) if error.kind() == ErrorKind::OutOfMemory => Err(StoreFault::NoMemory),
            Err(_) => {
                self.failed_reads = self.failed_reads.saturating_add(1);
                Err(StoreFault::Failed)
            }
        }
    }

    fn write(&mut self, name: &str, bytes: Vec<u8>) -> Result<(), WriteFailed> {
        match write_file(&self.files, name, &bytes) {
            Ok(()) => Ok(()),
            Err(_) => {
                self.failed_writes = self.failed_writes.saturating_add(1);
                Err(WriteFailed)
            }
        }
    }

    ghost read_faults_fit = { λ s _. s.reads_fit };

    ghost write_faults_fit = { λ s _. s.writes_fit };
}

// The first bytes of the file, up to `most` or to its end, where a read gives nothing.
fn read_file<R: Files>(alloc: Global, files: &R, path: &str, most: usize) -> io::Result<Vec<u8>> {
    let mut file = fs::open(files, path)?;
    let mut piece = [0u8; PIECE];
    let mut bytes = Vec::new(alloc);
    while bytes.len() < most {
        let wanted = (most - bytes.len()).min(PIECE);
        let count = file.read(&mut piece[..wanted])?;
        if count == 0 {
            break;
        }
        bytes.extend_from_slice(&piece[..count])?;
    }
    Ok(bytes)
}

// Makes the file anew with these bytes. A write that takes nothing is an error.
fn write_file<R: Files>(files: &R, path: &str, bytes: &[u8]) -> io::Result<()> {
    let mut file = fs::create(files, path)?;
    let mut rest = bytes;
    while !rest.is_empty() {
        let count = file.write(rest)?;
        if count == 0 {
            return Err(io::Error::from(ErrorKind::WriteZero));
        }
        rest = &rest[count..];
    }
    Ok(())
}
