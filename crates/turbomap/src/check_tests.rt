// Certificates: those that `map` and `prime` write, which `check` accepts, and what it says of others.

use crate::check_rows::{CERTIFIED, CHANGES, CHECKS, Certified, Change, Check, RING3, RING3_CERT};
use crate::rows::{MAPPINGS, Mapping, PRIMES};
use crate::tests::{Ending, Files, end_of};
use std::alloc::Global;
use std::process::Abort;
use std::test::Fail;
use tm_make::sample;

// The end of a check of the texts that files hold.
fn checked(alloc: Global, k: &str, d: &str, files: Files<'_>) -> Result<Ending, Fail> {
    let words = ["check", k, d, "t.blif", "o.blif", "c.cert"];
    end_of(alloc, &words, files, &[], &[])
}

// The worked certificate, with a change.
fn changed(alloc: Global, change: &Change) -> Result<Vec<u8>, Fail> {
    let mut text = Vec::new(alloc);
    for (place, line) in RING3_CERT.iter().enumerate() {
        let number = place.saturating_add(1);
        if number == change.first {
            text.extend_from_slice(change.lines.as_bytes())?;
        }
        if number < change.first || change.last < number {
            text.extend_from_slice(line.as_bytes())?;
        }
    }
    Ok(text)
}

fn check_change(rt: &impl Abort, alloc: Global, change: &Change) -> Result<(), Fail> {
    let cert = changed(alloc, change)?;
    let files = Files {
        mapped: change.mapped.as_bytes(),
        cert: &cert,
        ..Files::of(RING3.as_bytes())
    };
    let ends = checked(alloc, "2", "1", files)?;
    let as_told = ends.status == change.status && ends.say.said() == change.said.as_bytes();
    assert!(rt; as_told, "{}", change.said);
    Ok(())
}

fn check_three(rt: &impl Abort, alloc: Global, row: &Check) -> Result<(), Fail> {
    let files = Files {
        mapped: row.mapped.as_bytes(),
        cert: row.cert.as_bytes(),
        ..Files::of(row.text.as_bytes())
    };
    let ends = checked(alloc, row.k, row.d, files)?;
    let as_told = ends.status == row.status && ends.say.said() == row.said.as_bytes();
    assert!(rt; as_told, "{}", row.said);
    Ok(())
}

// Changes of the worked certificate, and both versions of the certificate of two equal latches.
#[test]
fn certificates_are_checked(rt: HostRuntime) -> Result<(), Fail> {
    for change in CHANGES {
        check_change(&rt, rt.alloc(), change)?;
    }
    for row in CHECKS {
        check_three(&rt, rt.alloc(), row)?;
    }
    Ok(())
}

// The end of a mapping with a certificate.
fn certified(alloc: Global, verb: &str, k: &str, d: &str, text: &[u8]) -> Result<Ending, Fail> {
    let words = [verb, k, d, "t.blif", "o.blif", "c.cert"];
    end_of(alloc, &words, Files::of(text), &[], &[])
}

// A certificate begins so.
fn check_text(rt: &impl Abort, alloc: Global, row: &Certified) -> Result<(), Fail> {
    let ends = certified(alloc, "map", row.k, row.d, row.text.as_bytes())?;
    assert!(rt;
        ends.held("c.cert").starts_with(row.cert.as_bytes()),
        "{}",
        row.cert
    );
    Ok(())
}

// A certificate that is made is accepted.
fn check_made(rt: &impl Abort, alloc: Global, verb: &str, row: &Mapping) -> Result<(), Fail> {
    let text = row.text.as_bytes();
    let made = certified(alloc, verb, row.k, row.d, text)?;
    let files = Files {
        mapped: made.held("o.blif"),
        cert: made.held("c.cert"),
        ..Files::of(text)
    };
    let ends = checked(alloc, row.k, row.d, files)?;
    assert!(rt;
        ends.status == 0 && ends.say.said().starts_with(b"accepted period "),
        "{}",
        row.text
    );
    Ok(())
}

#[test]
fn certificates_are_written(rt: HostRuntime) -> Result<(), Fail> {
    for row in CERTIFIED {
        check_text(&rt, rt.alloc(), row)?;
    }
    for row in MAPPINGS {
        check_made(&rt, rt.alloc(), "map", row)?;
    }
    for row in PRIMES {
        check_made(&rt, rt.alloc(), "prime", row)?;
    }
    Ok(())
}

// What is said of a sample is what is said where its text is mapped and the files are checked; and where no register may move backward, the
// bound is the period.
#[test]
fn samples_are_mapped_like_their_texts(rt: HostRuntime) -> Result<(), Fail> {
    let alloc = rt.alloc();
    let text = sample(alloc, 400)?;
    let made = certified(alloc, "map", "4", "2", &text)?;
    let files = Files {
        mapped: made.held("o.blif"),
        cert: made.held("c.cert"),
        ..Files::of(&text)
    };
    let ends = checked(alloc, "4", "2", files)?;
    let drops = last_word(ends.say.said());
    let line = end_of(alloc, &["large", "400", "4", "2"], files, &[], &[])?;
    let mut said = Vec::from_slice(alloc, b"large 400 ")?;
    said.extend_from_slice(made.say.said().trim_ascii_end())?;
    said.extend_from_slice(b" drops ")?;
    said.extend_from_slice(drops.trim_ascii_end())?;
    said.extend_from_slice(b" accepted\n")?;
    assert!(rt; line.say.said() == said.as_slice());
    let bound = end_of(alloc, &["bound", "4", "2", "0", "t.blif"], files, &[], &[])?;
    let period = bound.say.said().trim_ascii_end();
    assert!(rt;
        made.say
            .said()
            .starts_with(period.get(6..).unwrap_or(b"no"))
    );
    Ok(())
}

// The part of a line after its last blank.
fn last_word(line: &[u8]) -> &[u8] {
    line.rsplit(|byte| *byte == b' ').next().unwrap_or(b"")
}
