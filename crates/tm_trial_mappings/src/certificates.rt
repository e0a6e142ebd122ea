// Texts of certificates, and what is said of faults in them.

ghost use Rattle.std.specs.Prelude.{◌≤◌, length};

use cert_text::{Cert, read, write};
use std::alloc::Global;
use std::test::Fail;
use tm_trial::{TrialFault, mapping};

/// A certificate of a circuit with three gates in a ring.
const RING: &str =
    "turbomap 1\nperiod 3\ntables 3\ntable 4 0 0.0 3.0\ntable 5 0 1.0 4.0\ntable 6 0 2.0 5.0\n\
     drops 5\ndrop 4 1 2 1\ndrop 5 1 2 1\ndrop 6 1 2 1\ndrop 5 0 1 00 01 1\ndrop 6 0 2 000 01 1\nend\n";

/// The text read and written again, or what its fault says.
fn outcome(alloc: Global, text: &str) -> Result<String, Fail>
    requires { length text.now ≤ 1000 }
{
    let mut said = String::new(alloc);
    match read(alloc, text.as_bytes()) {
        Ok(cert) => {
            for byte in write(alloc, &cert)? {
                said.push(char::from(byte))?;
            }
        }
        Err(fault) => said = format!(in alloc; "{fault}")?,
    }
    Ok(said)
}

/// Texts that are written as they are read.
const TEXTS: &[&str] = &[
    RING,
    "turbomap 2\nperiod 0\ntables 0\ndrops 0\nend\n",
    "turbomap 2\nperiod 1\ntables 1\ntable 2 0 0.0 1.0\ndrops 0\nend\n",
    "turbomap 2\nperiod 1\ntables 3\ntable 9 1 0.0 1.0\ntable 10 1 2.0 3.0\ntable 11 0 9.0 10.0\ndrops 0\nend\n",
    "turbomap 1\nperiod 2\ntables 3\ntable 5 0 1.0 3.0\ntable 6 0 2.0 4.0\ntable 7 0 5.0 6.0\ndrops 1\ndrop 7 0 1 00 01 10 11\nend\n",
    "turbomap 2\nperiod 4294967295\ntables 1\ntable 4294967295 255\ndrops 1\ndrop 0 255 4294967295 7\nend\n",
];

#[test]
fn certificates_are_read_and_written(rt: HostRuntime) -> Result<(), Fail> {
    for text in TEXTS {
        assert!(rt; text.len() <= 1000);
        assert!(rt; outcome(rt.alloc(), text)?.as_str() == *text, "{text}");
    }
    Ok(())
}

/// A change of the text of the ring, and what its fault says.
struct Change {
    old: &'static str,
    new: &'static str,
    want: &'static str,
}

const CHANGES: &[Change] = &[
    Change {
        old: "turbomap 1",
        new: "turbomap 3",
        want: "line 1: Version",
    },
    Change {
        old: "period 3",
        new: "period 03",
        want: "line 2: Number",
    },
    Change {
        old: "period 3",
        new: "Period 03",
        want: "line 2: Word",
    },
    Change {
        old: "tables 3",
        new: "tables 4294967295",
        want: "line 7: Word",
    },
    Change {
        old: "tables 3",
        new: "tables 4294967296",
        want: "line 3: Number",
    },
    Change {
        old: "table 4",
        new: "table  4",
        want: "line 4: Word",
    },
    Change {
        old: "0.0 3.0",
        new: "0.0 3.0 ",
        want: "line 4: Word",
    },
    Change {
        old: "0.0 3.0",
        new: "0.0 3.256",
        want: "line 4: Number",
    },
    Change {
        old: "drops 5",
        new: "drops 18446744073709551616",
        want: "line 7: Number",
    },
    Change {
        old: "drop 4 1 2 1",
        new: "drop 4 1 2",
        want: "line 8: Word",
    },
    Change {
        old: "drop 4 1 2 1",
        new: "drop 4 1 2 8",
        want: "line 8: Number",
    },
    Change {
        old: "end\n",
        new: "end",
        want: "line 13: Ending",
    },
    Change {
        old: "end\n",
        new: "",
        want: "line 13: Ending",
    },
    Change {
        old: "end\n",
        new: "end\n ",
        want: "line 14: Ending",
    },
];

/// What is said of the ring's text where it is changed.
fn said_of(alloc: Global, change: &Change) -> Result<String, Fail> {
    let (before, after) = RING.split_once(change.old).unwrap_or(("", ""));
    let new = change.new;
    let text = format!(in alloc; "{before}{new}{after}")?;
    if text.len() > 1000 {
        return Ok(text);
    }
    outcome(alloc, text.as_str())
}

#[test]
fn the_first_fault_is_said(rt: HostRuntime) -> Result<(), Fail> {
    for change in CHANGES {
        assert!(rt;
            said_of(rt.alloc(), change)?.as_str() == change.want,
            "{}",
            change.new
        );
    }
    Ok(())
}

/// The text of a certificate for the period 10 without drops, with at most nine tables.
fn written(alloc: Global, tables: &str) -> Result<Vec<u8>, TrialFault> {
    let mapping = mapping(alloc, tables)?;
    if mapping.luts.len() > 9 {
        return Ok(Vec::new(alloc));
    }
    let cert = Cert {
        version: 2,
        period: 10,
        mapping,
        drops: Vec::new(alloc),
    };
    Ok(write(alloc, &cert)?)
}

#[test]
fn a_certificate_is_written(rt: HostRuntime) -> Result<(), TrialFault> {
    let text = b"turbomap 2\nperiod 10\ntables 1\ntable 40 13 3.12\ndrops 0\nend\n";
    assert!(rt; written(rt.alloc(), "40.13 3.12;")?.as_slice() == text.as_slice());
    Ok(())
}
