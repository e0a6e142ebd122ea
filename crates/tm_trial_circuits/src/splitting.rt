// Gates that are split, written out.

use blif_read::{SOURCE, read};
use blif_write::text;
use std::alloc::{AllocError, Global};
use std::test::Fail;
use tm_bits::MOST_K;
use tm_circuit::Circuit;
use tm_parts::has_names_within;
use tm_split::{SplitFault, subject};

/// What stands before the gates of a text, the gates, and those of the subject circuit for `k`.
struct Row<'a> {
    head: &'a str,
    k: u8,
    gates: &'a str,
    split: &'a str,
}

const HEAD: &str = ".model m\n.inputs a b c d e f g\n.outputs\n.clock clk\n";

const WIDE: &str = ".names a b c d e f g y\n1111111 0\n0------ 0\n";

const PIECES: &str =
    ".names a b y~1\n11 1\n.names c d y~2\n11 1\n.names e f y~3\n11 1\n.names y~1 y~2 y~4\n11 1\n\
    .names y~3 g y~5\n11 1\n.names y~4 y~5 y~6\n11 1\n.names y~6 a y\n1- 0\n-0 0\n";

const ROWS: &[Row<'static>] = &[
    Row {
        head: HEAD,
        k: 2,
        gates: WIDE,
        split: PIECES,
    },
    Row {
        head: HEAD,
        k: 3,
        gates: WIDE,
        split: PIECES,
    },
    Row {
        head: HEAD,
        k: 4,
        gates: WIDE,
        split: PIECES,
    },
    Row {
        head: HEAD,
        k: 5,
        gates: WIDE,
        split: PIECES,
    },
    Row {
        head: HEAD,
        k: 6,
        gates: WIDE,
        split: PIECES,
    },
    Row {
        head: HEAD,
        k: 7,
        gates: WIDE,
        split: WIDE,
    },
    Row {
        head: HEAD,
        k: 8,
        gates: WIDE,
        split: WIDE,
    },
    Row {
        head: HEAD,
        k: 2,
        gates: ".names a b c y\n-0- 1\n",
        split: ".names b y\n0 1\n",
    },
    Row {
        head: HEAD,
        k: 2,
        gates: ".names a b c y\n-0- 0\n",
        split: ".names b y\n0 0\n",
    },
    Row {
        head: HEAD,
        k: 2,
        gates: ".names a b c y\n1-1 1\n--- 1\n",
        split: ".names y\n1\n",
    },
    Row {
        head: HEAD,
        k: 2,
        gates: ".names a b c y\n1-1 0\n--- 0\n",
        split: ".names y\n0\n",
    },
    Row {
        head: HEAD,
        k: 2,
        gates: ".names a b c y\n",
        split: ".names y\n",
    },
    Row {
        head: HEAD,
        k: 2,
        gates: ".names a b c y\n1-0 0\n",
        split: ".names a c y\n10 0\n",
    },
    // A pin that stands twice, and rows of one literal.
    Row {
        head: HEAD,
        k: 2,
        gates: ".names a a b y\n110 1\n",
        split: ".names a a y~1\n11 1\n.names y~1 b y\n10 1\n",
    },
    Row {
        head: HEAD,
        k: 2,
        gates: ".names a b c y\n1-- 1\n-1- 1\n--0 1\n",
        split: ".names a b y~1\n1- 1\n-1 1\n.names y~1 c y\n1- 1\n-0 1\n",
    },
    // Names, also the clock's, have no run as long as that in the new ones.
    Row {
        head: ".model m\n.inputs p~~q~ b c\n.outputs\n.clock clk\n",
        k: 2,
        gates: ".names p~~q~ b c y\n111 1\n",
        split: ".names p~~q~ b y~~~1\n11 1\n.names y~~~1 c y\n11 1\n",
    },
    Row {
        head: ".model m\n.inputs p~~q~ b c\n.outputs\n.clock ~~~\n",
        k: 2,
        gates: ".names p~~q~ b c y\n111 1\n",
        split: ".names p~~q~ b y~~~~1\n11 1\n.names y~~~~1 c y\n11 1\n",
    },
];

/// The subject circuit of a text for `k`, where it is fit to be split.
fn split(alloc: Global, text: &[u8], k: u8) -> Result<Result<Circuit, SplitFault>, Fail> {
    if text.len() < 1 << 32 && 2 <= k && k <= MOST_K {
        let circuit = read(alloc, text, &SOURCE)?;
        if has_names_within(&circuit, 255) {
            return Ok(subject(alloc, &circuit, k));
        }
    }
    Ok(Err(SplitFault::NoMemory))
}

/// The text of the subject circuit of a row.
fn split_text(alloc: Global, row: &Row<'_>) -> Result<Vec<u8>, Fail> {
    let (head, gates) = (row.head, row.gates);
    let given = format!(in alloc; "{head}{gates}.end\n")?;
    let subject = split(alloc, given.as_bytes(), row.k)??;
    Ok(text(alloc, &subject)?)
}

/// Whether a row is as written.
fn holds(alloc: Global, row: &Row<'_>) -> Result<bool, Fail> {
    let written = split_text(alloc, row)?;
    let gates = written
        .strip_prefix(row.head.as_bytes())
        .and_then(|rest| rest.strip_suffix(b".end\n"));
    Ok(gates == Some(row.split.as_bytes()))
}

#[test]
fn gates_are_split(rt: HostRuntime) -> Result<(), Fail> {
    for row in ROWS {
        assert!(rt; holds(rt.alloc(), row)?, "{}", row.gates);
    }
    Ok(())
}

/// A gate where three inputs are 1, with that row so many times.
fn repeated(alloc: Global, times: u32) -> Result<Vec<u8>, AllocError> {
    let mut text = Vec::from_slice(alloc, b".inputs a b c\n.names a b c y\n")?;
    for _ in 0..times {
        text.extend_from_slice(b"111 1\n")?;
    }
    Ok(text)
}

#[test]
fn splitting_to_the_limit(rt: HostRuntime) -> Result<(), Fail> {
    let most = split(rt.alloc(), &repeated(rt.alloc(), 33_332)?, 2)?;
    assert!(rt; most?.signals() == 99_998);
    let more = split(rt.alloc(), &repeated(rt.alloc(), 33_333)?, 2)?;
    assert!(rt; more.err() == Some(SplitFault::TooManySignals));
    Ok(())
}
