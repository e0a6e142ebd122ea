// Leaves in order, and leaves replaced by others, written out.

use std::alloc::Global;
use tm_circuit::Signal;
use tm_trial::{TrialFault, nodes};
use tm_unroll::{Node, in_order, replace_leaf};

/// A leaf, a signal at an advance, replaced by others where at most `k` leaves are left.
struct Row<'a> {
    leaves: &'a str,
    leaf: (u32, u8),
    others: &'a str,
    k: u8,
    new: Option<&'a str>,
}

const ROWS: &[Row<'static>] = &[
    // A gate's cut in the place of the gate, with as many leaves as there may be, and with one too many.
    Row {
        leaves: "4.0 5.0 9.0",
        leaf: (9, 0),
        others: "6.0 7.0",
        k: 4,
        new: Some("4.0 5.0 6.0 7.0"),
    },
    Row {
        leaves: "4.0 5.0 9.0",
        leaf: (9, 0),
        others: "6.0 7.0",
        k: 3,
        new: None,
    },
    // A leaf that stands already, one that is the same signal at another advance, and repeated ones.
    Row {
        leaves: "4.0 9.1",
        leaf: (9, 1),
        others: "4.0 4.1 9.0",
        k: 3,
        new: Some("4.0 4.1 9.0"),
    },
    Row {
        leaves: "4.0 9.1",
        leaf: (9, 1),
        others: "9.0 4.0 9.0",
        k: 2,
        new: Some("4.0 9.0"),
    },
    Row {
        leaves: "9.0 4.0 9.0",
        leaf: (9, 0),
        others: "7.0",
        k: 2,
        new: Some("4.0 7.0"),
    },
    // A leaf in its own place, and one that is no leaf.
    Row {
        leaves: "4.0 9.0",
        leaf: (9, 0),
        others: "9.0",
        k: 2,
        new: Some("4.0 9.0"),
    },
    Row {
        leaves: "4.0 9.0",
        leaf: (5, 0),
        others: "6.0",
        k: 3,
        new: Some("4.0 6.0 9.0"),
    },
    // A constant has no leaves.
    Row {
        leaves: "13.0",
        leaf: (13, 0),
        others: "",
        k: 0,
        new: Some(""),
    },
    Row {
        leaves: "4.0 13.0",
        leaf: (13, 0),
        others: "",
        k: 0,
        new: None,
    },
];

/// Whether a row is as written.
fn holds(alloc: Global, row: &Row<'_>) -> Result<bool, TrialFault> {
    let leaf = Node {
        signal: Signal(row.leaf.0),
        advance: row.leaf.1,
    };
    let leaves = nodes(alloc, row.leaves)?;
    let others = nodes(alloc, row.others)?;
    let replaced = replace_leaf(alloc, &leaves, leaf, &others, row.k)?;
    let Some(text) = row.new else {
        return Ok(replaced.is_none());
    };
    let new = nodes(alloc, text)?;
    Ok(replaced.is_some_and(|replaced| replaced.as_slice() == new.as_slice()))
}

#[test]
fn leaves_are_replaced(rt: HostRuntime) {
    for row in ROWS {
        assert!(rt; holds(rt.alloc(), row) == Ok(true), "{}", row.leaves);
    }
}

/// Whether nodes stand in order as written.
fn is_order(alloc: Global, given: &str, order: &str) -> Result<bool, TrialFault> {
    let ordered = in_order(alloc, &nodes(alloc, given)?)?;
    Ok(ordered.as_slice() == nodes(alloc, order)?.as_slice())
}

#[test]
fn nodes_are_put_in_order(rt: HostRuntime) {
    assert!(rt; is_order(rt.alloc(), "9.0 4.1 12.0 4.0 9.0", "4.0 4.1 9.0 12.0") == Ok(true));
}
