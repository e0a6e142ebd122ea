// Stores and sayers, in memory and outside.

use std::alloc::Global;
use std::fs;
use std::process::Abort;
use std::test::Fail;
use tm_store::{
    FileStore, MemSay, MemStore, OutSay, Say, SayFailed, Slot, Store, StoreFault, WriteFailed,
};

fn slot(alloc: Global, name: &str, bytes: Option<&[u8]>) -> Result<Slot, Fail> {
    let bytes = match bytes {
        Some(bytes) => Some(Vec::from_slice(alloc, bytes)?),
        None => None,
    };
    Ok(Slot {
        name: String::from_str(alloc, name)?,
        bytes,
    })
}

/// A store with a slot `a` that holds three bytes and an empty slot `b`, whose call 4 fails.
fn store(rt: &impl Abort, alloc: Global) -> Result<MemStore, Fail> {
    let mut slots = Vec::new(alloc);
    slots.push(slot(alloc, "a", Some(b"abc"))?)?;
    slots.push(slot(alloc, "b", None)?)?;
    assert!(rt; slots[0].name.as_str() == "a" && slots[1].name.as_str() == "b");
    Ok(MemStore::new(slots, vec![in alloc; 4]?))
}

/// Whether a read of at most so many bytes gives these, or fails where there are none.
fn reads(alloc: Global, store: &mut MemStore, name: &str, most: u64, bytes: Option<&[u8]>) -> bool {
    match store.read(alloc, name, most) {
        Ok(read) => bytes == Some(read.as_slice()),
        Err(fault) => bytes.is_none() && fault == StoreFault::Failed,
    }
}

/// Whether one byte is written.
fn writes(alloc: Global, store: &mut MemStore, name: &str, byte: u8) -> Result<bool, Fail> {
    Ok(store.write(name, vec![in alloc; byte]?) == Ok(()))
}

#[test]
fn a_store_in_memory_reads_and_writes(rt: HostRuntime) -> Result<(), Fail> {
    let alloc = rt.alloc();
    let mut store = store(&rt, alloc)?;
    assert!(rt; reads(alloc, &mut store, "a", 9, Some(b"abc")));
    assert!(rt; reads(alloc, &mut store, "a", 2, Some(b"ab")));
    assert!(rt; reads(alloc, &mut store, "b", 9, None), "an empty slot");
    assert!(rt; writes(alloc, &mut store, "b", 7)?);
    assert!(rt; !writes(alloc, &mut store, "a", 8)?, "call 4 is listed");
    assert!(rt; !writes(alloc, &mut store, "c", 8)?, "no slot");
    assert!(rt; store.held("a") == Some(b"abc".as_slice()));
    assert!(rt; store.held("b") == Some([7].as_slice()));
    assert!(rt; store.held("c").is_none());
    Ok(())
}

#[test]
fn a_sayer_in_memory_keeps_what_fits(rt: HostRuntime) -> Result<(), Fail> {
    let alloc = rt.alloc();
    let mut say = MemSay::new(alloc, 8, vec![in alloc; 1]?)?;
    assert!(rt; say.line(b"one") == Ok(()));
    assert!(rt; say.line(b"two") == Err(SayFailed), "call 1 is listed");
    assert!(rt; say.line(b"three") == Err(SayFailed), "four bytes are left");
    assert!(rt; say.said() == b"one\nthre".as_slice());
    Ok(())
}

#[test]
fn files_hold_what_was_written(rt: HostRuntime) -> Result<(), Fail> {
    let alloc = rt.alloc();
    let name = "tm_store_files.tmp";
    let mut store = FileStore::new(rt.clone()?);
    assert!(rt; store.write(name, vec![in alloc; b'x'; 40_000]?) == Ok(()));
    assert!(rt;
        store.write(name, vec![in alloc; b'y'; 20_000]?) == Ok(()),
        "made anew"
    );
    let whole = store.read(alloc, name, 1_000_000)?;
    assert!(rt; whole.len() == 20_000 && whole.iter().all(|byte| *byte == b'y'));
    assert!(rt; store.read(alloc, name, 17_000)?.len() == 17_000);
    fs::remove_file(&rt, name)?;
    assert!(rt;
        store.read(alloc, name, 9) == Err(StoreFault::Failed),
        "no such file"
    );
    assert!(rt; store.write("no/such/folder", vec![in alloc; 1]?) == Err(WriteFailed));
    Ok(())
}

#[test]
fn a_line_reaches_standard_output(rt: HostRuntime) -> Result<(), Fail> {
    let mut say = OutSay::new(rt.clone()?);
    assert!(rt; say.line(b"a line") == Ok(()));
    Ok(())
}
