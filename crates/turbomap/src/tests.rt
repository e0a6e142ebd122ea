// Runs of the program on a store in memory: what the worked examples and the failures of calls come to.

use crate::rows::{
    COUNT_MOVED, FREE, LATE, MAP, MAP_TOGGLE, MAPPINGS, Mapping, NOTHING, PRIMES, REFUSED, RUNS,
    Run, SIM, WITHOUT_READING,
};
use crate::top::run;
use std::alloc::{AllocError, Global};
use std::process::Abort;
use std::test::Fail;
use tm_store::{MemSay, MemStore, Slot};

// How a run ended: its status, and the sayer and the store that it leaves.
#[derive(Drop)]
pub struct Ending {
    pub status: u8,
    pub say: MemSay,
    pub store: MemStore,
}

impl Ending {
    // What a name holds, or that it holds nothing.
    pub fn held(&self, name: &str) -> &[u8] {
        self.store.held(name).unwrap_or(NOTHING.as_bytes())
    }
}

// What `t.blif`, `v`, `o.blif` and `c.cert` hold before a run.
#[derive(Clone, Copy)]
pub struct Files<'a> {
    pub text: &'a [u8],
    pub vectors: &'a [u8],
    pub mapped: &'a [u8],
    pub cert: &'a [u8],
}

impl<'a> Files<'a> {
    // The one text, and empty slots for what is written.
    pub fn of(text: &'a [u8]) -> Files<'a> {
        Files {
            text,
            vectors: b"",
            mapped: NOTHING.as_bytes(),
            cert: NOTHING.as_bytes(),
        }
    }
}

// These bytes, or none for those that stand for nothing.
fn content(alloc: Global, bytes: &[u8]) -> Result<Option<Vec<u8>>, AllocError> {
    if bytes == NOTHING.as_bytes() {
        return Ok(None);
    }
    Ok(Some(Vec::from_slice(alloc, bytes)?))
}

// A store that holds the files, where these calls fail.
fn store_of(alloc: Global, files: Files<'_>, failing: &[u64]) -> Result<MemStore, AllocError> {
    let mut slots = Vec::new(alloc);
    slots.push(Slot {
        name: String::from_str(alloc, "t.blif")?,
        bytes: content(alloc, files.text)?,
    })?;
    slots.push(Slot {
        name: String::from_str(alloc, "v")?,
        bytes: content(alloc, files.vectors)?,
    })?;
    slots.push(Slot {
        name: String::from_str(alloc, "o.blif")?,
        bytes: content(alloc, files.mapped)?,
    })?;
    slots.push(Slot {
        name: String::from_str(alloc, "c.cert")?,
        bytes: content(alloc, files.cert)?,
    })?;
    Ok(MemStore::new(slots, Vec::from_slice(alloc, failing)?))
}

// The end of a run of these words, where these calls of the store and of the sayer fail.
pub fn end_of(
    alloc: Global,
    words: &[&str],
    files: Files<'_>,
    failing: &[u64],
    silent: &[u64],
) -> Result<Ending, Fail> {
    let mut given = Vec::new(alloc);
    for word in words {
        given.push(String::from_str(alloc, word)?)?;
    }
    let mut store = store_of(alloc, files, failing)?;
    let mut say = MemSay::new(alloc, 200, Vec::from_slice(alloc, silent)?)?;
    let status = run(alloc, &given, &mut store, &mut say);
    Ok(Ending { status, say, store })
}

fn check(rt: &impl Abort, alloc: Global, run: &Run<'_>) -> Result<(), Fail> {
    let files = Files {
        text: run.text.as_bytes(),
        vectors: run.vectors.as_bytes(),
        mapped: run.held.as_bytes(),
        cert: run.cert.as_bytes(),
    };
    let ends = end_of(alloc, run.words, files, run.failing, run.silent)?;
    let said = ends.status == run.status && ends.say.said() == run.said.as_bytes();
    let left = ends.held("o.blif") == run.out.as_bytes()
        && ends.held("c.cert") == run.made.as_bytes();
    assert!(rt; said && left, "{} {}", run.said, run.text);
    Ok(())
}

// A text is mapped with single rows or with prime ones, and what is said and written begins so.
fn check_mapping(
    rt: &impl Abort,
    alloc: Global,
    verb: &'static str,
    row: &Mapping,
) -> Result<(), Fail> {
    let words = [verb, row.k, row.d, "t.blif", "o.blif"];
    let ends = end_of(alloc, &words, Files::of(row.text.as_bytes()), &[], &[])?;
    let said = ends.status == 0 && ends.say.said().starts_with(row.said.as_bytes());
    assert!(rt;
        said && ends.held("o.blif").starts_with(row.out.as_bytes()),
        "{}",
        row.out
    );
    Ok(())
}

#[test]
fn texts_are_mapped(rt: HostRuntime) -> Result<(), Fail> {
    for row in MAPPINGS {
        check_mapping(&rt, rt.alloc(), "map", row)?;
    }
    for row in FREE {
        check_mapping(&rt, rt.alloc(), "map", row)?;
    }
    for row in PRIMES {
        check_mapping(&rt, rt.alloc(), "prime", row)?;
    }
    Ok(())
}

#[test]
fn runs_end(rt: HostRuntime) -> Result<(), Fail> {
    for run in RUNS {
        check(&rt, rt.alloc(), run)?;
    }
    for row in REFUSED {
        let run = Run {
            text: row.text,
            status: 5,
            said: row.said,
            out: NOTHING,
            ..MAP_TOGGLE
        };
        check(&rt, rt.alloc(), &run)?;
    }
    for words in WITHOUT_READING {
        let run = Run {
            words,
            status: 2,
            said: "bad command line\n",
            out: NOTHING,
            ..MAP_TOGGLE
        };
        check(&rt, rt.alloc(), &run)?;
    }
    Ok(())
}

// ---- limits

// These words on texts of any length end with a status and say a line.
fn check_long(
    rt: &impl Abort,
    alloc: Global,
    words: &[&str],
    text: &[u8],
    vectors: &[u8],
    status: u8,
    said: &str,
) -> Result<(), Fail> {
    let files = Files {
        vectors,
        ..Files::of(text)
    };
    let ends = end_of(alloc, words, files, &[], &[])?;
    assert!(rt;
        ends.status == status && ends.say.said() == said.as_bytes(),
        "{said}"
    );
    Ok(())
}

// A file as long as its limit and one a byte longer, and vectors as long as their limit, whose output rows are longer than theirs.
#[test]
fn limits_are_kept(rt: HostRuntime) -> Result<(), Fail> {
    let alloc = rt.alloc();
    let mut text = vec![in alloc; b'#'; 16_777_216]?;
    let said = "period 0 tables 0 registers 0\n";
    check_long(&rt, alloc, &MAP, &text, b"", 0, said)?;
    text.push(b'#')?;
    check_long(&rt, alloc, &MAP, &text, b"", 6, "t.blif: too long\n")?;
    let wide =
        b".outputs a b c d e f g h i j k l m n o p\n.names a\n.names b\n.names c\n.names d\n.names e\n.names f\n.names g\n.names h\n.names i\n.names j\n.names k\n.names l\n.names m\n.names n\n.names o\n.names p\n";
    let mut steps = vec![in alloc; b'\n'; 16_777_216]?;
    check_long(&rt, alloc, &SIM, wide, &steps, 6, "o.blif: too long\n")?;
    steps.push(b'\n')?;
    let late = LATE.as_bytes();
    check_long(&rt, alloc, &SIM, late, &steps, 6, "v: too long\n")
}

// A gate so wide that its subject circuit has 100,001 signals.
#[test]
fn subjects_are_limited(rt: HostRuntime) -> Result<(), Fail> {
    let alloc = rt.alloc();
    let mut text = Vec::from_slice(alloc, b".inputs a b c\n.outputs y\n.names a b c y\n")?;
    for _ in 0..33_333 {
        text.extend_from_slice(b"111 1\n")?;
    }
    let said = "t.blif: line 0: TooManySignals\n";
    check_long(&rt, alloc, &MAP, &text, b"", 5, said)
}

// A circuit without inputs, of which registers were moved, counts like itself.
#[test]
fn moves_keep_the_rows(rt: HostRuntime) -> Result<(), Fail> {
    let alloc = rt.alloc();
    let files = Files {
        vectors: b"\n\n\n\n\n",
        ..Files::of(crate::rows::COUNT.as_bytes())
    };
    let words = ["map", "2", "3", "t.blif", "o.blif"].as_slice();
    let moved = end_of(alloc, words, files, &[], &[])?;
    assert!(rt; moved.held("o.blif").starts_with(COUNT_MOVED.as_bytes()));
    let files = Files {
        text: moved.held("o.blif"),
        ..files
    };
    let ends = end_of(alloc, &SIM, files, &[], &[])?;
    assert!(rt; ends.held("o.blif") == b"00\n01\n10\n11\n00\n".as_slice());
    Ok(())
}
