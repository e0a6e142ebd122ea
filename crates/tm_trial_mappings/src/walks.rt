// Walks of a small net, and what is wrong with them.

use crate::nets::Edges;
use std::alloc::Global;
use tm_bits::NoMemory;
use tm_flow::{Judge, WalkFault, judge_walks};

/// The nodes 1 to 9, of which each from 3 on reads the two below it, the next one first. 1 and 2 are ends, and 2 and 4 may be cut.
const LADDER: Edges<'static> = Edges {
    edges: &[
        (3, 2),
        (3, 1),
        (4, 3),
        (4, 2),
        (5, 4),
        (5, 3),
        (6, 5),
        (6, 4),
        (7, 6),
        (7, 5),
        (8, 7),
        (8, 6),
        (9, 8),
        (9, 7),
    ],
    ends: &[1, 2],
    cuts: &[2, 4],
};

/// Walks from a root, and what is wrong with them.
struct Row<'a> {
    name: &'a str,
    root: u32,
    k: u32,
    walks: &'a [&'a [u8]],
    fault: Option<WalkFault>,
}

const ROWS: &[Row<'static>] = &[
    Row {
        name: "a walk that can't be cut",
        root: 5,
        k: 8,
        walks: &[&[1, 1]],
        fault: None,
    },
    Row {
        name: "a walk over a node that may be cut",
        root: 5,
        k: 1,
        walks: &[&[0, 0, 1]],
        fault: Some(WalkFault::Shared),
    },
    Row {
        name: "a walk to an end that may be cut",
        root: 5,
        k: 1,
        walks: &[&[1, 0]],
        fault: Some(WalkFault::Shared),
    },
    Row {
        name: "two walks over a node that may not be cut",
        root: 5,
        k: 1,
        walks: &[&[0, 0, 1], &[1, 0]],
        fault: None,
    },
    Row {
        name: "two walks over a node that may be cut",
        root: 5,
        k: 1,
        walks: &[&[0, 0, 1], &[0, 1]],
        fault: Some(WalkFault::Shared),
    },
    Row {
        name: "the second and the third walk at one end",
        root: 6,
        k: 2,
        walks: &[&[0, 1, 1], &[1, 1], &[0, 1, 0]],
        fault: Some(WalkFault::Shared),
    },
    Row {
        name: "one walk three times",
        root: 6,
        k: 2,
        walks: &[&[0, 1, 1], &[0, 1, 1], &[0, 1, 1]],
        fault: None,
    },
    Row {
        name: "two walks from a root that may be cut",
        root: 4,
        k: 1,
        walks: &[&[0, 0], &[0, 1]],
        fault: None,
    },
    Row {
        name: "a walk from a root that may be cut",
        root: 4,
        k: 1,
        walks: &[&[0, 1]],
        fault: None,
    },
    Row {
        name: "an end as the root",
        root: 1,
        k: 3,
        walks: &[&[]],
        fault: None,
    },
    Row {
        name: "no walks",
        root: 5,
        k: 1,
        walks: &[],
        fault: Some(WalkFault::TooFew),
    },
    Row {
        name: "one walk too few",
        root: 5,
        k: 2,
        walks: &[&[0, 1], &[1, 1]],
        fault: Some(WalkFault::TooFew),
    },
    Row {
        name: "one walk too many",
        root: 5,
        k: 1,
        walks: &[&[1, 1], &[1, 1], &[1, 1]],
        fault: Some(WalkFault::TooFew),
    },
    Row {
        name: "too many, and none of them is a walk",
        root: 5,
        k: 1,
        walks: &[&[7], &[7], &[7]],
        fault: Some(WalkFault::TooFew),
    },
    Row {
        name: "a walk that stops before an end",
        root: 5,
        k: 1,
        walks: &[&[1]],
        fault: Some(WalkFault::Path),
    },
    Row {
        name: "a walk that goes on after an end",
        root: 5,
        k: 1,
        walks: &[&[1, 1, 0]],
        fault: Some(WalkFault::Path),
    },
    Row {
        name: "a digit past what the node reads",
        root: 5,
        k: 1,
        walks: &[&[2]],
        fault: Some(WalkFault::Path),
    },
    Row {
        name: "a shared node before a list that is no walk",
        root: 5,
        k: 2,
        walks: &[&[0, 1], &[0, 1], &[0, 7]],
        fault: Some(WalkFault::Path),
    },
];

/// The lists as vectors.
fn lists(alloc: Global, slices: &[&[u8]]) -> Result<Vec<Vec<u8>>, NoMemory> {
    let mut lists = Vec::new(alloc);
    for slice in slices {
        lists.push(Vec::from_slice(alloc, slice)?)?;
    }
    Ok(lists)
}

/// What is wrong with the walks of a row.
fn fault(
    alloc: Global,
    judge: &mut Judge<u32>,
    row: &Row<'_>,
) -> Result<Option<WalkFault>, NoMemory> {
    let walks = lists(alloc, row.walks)?;
    judge_walks(
        judge,
        &LADDER.net(),
        row.root,
        row.k.max(1),
        walks.as_slice(),
    )
}

/// One judge for all rows, so that what it held before must not count.
#[test]
fn walks_of_a_ladder(rt: HostRuntime) {
    let mut judge = Judge::new(rt.alloc());
    for row in ROWS {
        assert!(rt;
            fault(rt.alloc(), &mut judge, row) == Ok(row.fault),
            "{}",
            row.name
        );
    }
}
