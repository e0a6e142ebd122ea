// Cuts of nets, or the walks that no such cut goes with.

use crate::nets::{Edges, Tree};
use std::alloc::Global;
use tm_bits::NoMemory;
use tm_flow::{Found, LazyNet, Searcher, cut_or_walks, cut_or_walks_from};

/// A search of the root 15 of a net: a cut of these nodes, or so many walks where there is none.
struct Row<'a> {
    name: &'a str,
    net: Edges<'a>,
    k: u32,
    cut: Option<&'a [u32]>,
    walks: usize,
}

const TWO_OVER_THREE: &[(usize, u32)] = &[(15, 11), (15, 12), (11, 1), (11, 2), (12, 2), (12, 3)];

const BACK_BY_ONE: &[(usize, u32)] = &[
    (15, 14),
    (15, 13),
    (14, 3),
    (14, 4),
    (13, 3),
    (3, 1),
    (4, 2),
];

const BACK_ON_TWO: &[(usize, u32)] = &[
    (15, 14),
    (15, 13),
    (15, 12),
    (14, 4),
    (14, 5),
    (13, 4),
    (13, 6),
    (12, 5),
    (4, 1),
    (5, 2),
    (6, 3),
];

const SHARED: &[(usize, u32)] = &[
    (15, 13),
    (15, 14),
    (13, 5),
    (14, 5),
    (5, 3),
    (5, 4),
    (3, 1),
    (4, 2),
];

const READ_TWICE: &[(usize, u32)] = &[(15, 14), (15, 14), (14, 1)];

const ROWS: &[Row<'static>] = &[
    Row {
        name: "four and five",
        net: Edges {
            edges: TWO_OVER_THREE,
            ends: &[1, 2, 3],
            cuts: &[11, 12],
        },
        k: 2,
        cut: Some(&[11, 12]),
        walks: 0,
    },
    Row {
        name: "one of four and five",
        net: Edges {
            edges: TWO_OVER_THREE,
            ends: &[1, 2, 3],
            cuts: &[11, 12],
        },
        k: 1,
        cut: None,
        walks: 2,
    },
    Row {
        name: "the three ends",
        net: Edges {
            edges: TWO_OVER_THREE,
            ends: &[1, 2, 3],
            cuts: &[1, 2, 3],
        },
        k: 3,
        cut: Some(&[1, 2, 3]),
        walks: 0,
    },
    Row {
        name: "two of the three ends",
        net: Edges {
            edges: TWO_OVER_THREE,
            ends: &[1, 2, 3],
            cuts: &[1, 2, 3],
        },
        k: 2,
        cut: None,
        walks: 3,
    },
    Row {
        name: "a walk that can't be cut",
        net: Edges {
            edges: TWO_OVER_THREE,
            ends: &[1, 2, 3],
            cuts: &[2, 12],
        },
        k: 2,
        cut: None,
        walks: 1,
    },
    Row {
        name: "a root that reads nothing",
        net: Edges {
            edges: &[],
            ends: &[],
            cuts: &[],
        },
        k: 2,
        cut: Some(&[]),
        walks: 0,
    },
    Row {
        name: "back by one step",
        net: Edges {
            edges: BACK_BY_ONE,
            ends: &[1, 2],
            cuts: &[3, 4, 13, 14],
        },
        k: 1,
        cut: None,
        walks: 2,
    },
    Row {
        name: "back by one step, and cut",
        net: Edges {
            edges: BACK_BY_ONE,
            ends: &[1, 2],
            cuts: &[3, 4, 13, 14],
        },
        k: 2,
        cut: Some(&[13, 14]),
        walks: 0,
    },
    Row {
        name: "back by two steps",
        net: Edges {
            edges: &[
                (15, 14),
                (15, 13),
                (14, 4),
                (14, 5),
                (4, 3),
                (13, 3),
                (3, 1),
                (5, 2),
            ],
            ends: &[1, 2],
            cuts: &[3, 4, 5, 13, 14],
        },
        k: 1,
        cut: None,
        walks: 2,
    },
    Row {
        name: "back by three steps",
        net: Edges {
            edges: &[
                (15, 14),
                (15, 13),
                (14, 5),
                (14, 6),
                (5, 4),
                (4, 3),
                (13, 3),
                (3, 1),
                (6, 2),
            ],
            ends: &[1, 2],
            cuts: &[3, 4, 5, 6, 13, 14],
        },
        k: 1,
        cut: None,
        walks: 2,
    },
    Row {
        name: "back on two walks",
        net: Edges {
            edges: BACK_ON_TWO,
            ends: &[1, 2, 3],
            cuts: &[4, 5, 6],
        },
        k: 2,
        cut: None,
        walks: 3,
    },
    Row {
        name: "back on two walks, and cut",
        net: Edges {
            edges: BACK_ON_TWO,
            ends: &[1, 2, 3],
            cuts: &[4, 5, 6],
        },
        k: 3,
        cut: Some(&[4, 5, 6]),
        walks: 0,
    },
    Row {
        name: "a shared node that may not be cut",
        net: Edges {
            edges: SHARED,
            ends: &[1, 2],
            cuts: &[3, 4],
        },
        k: 1,
        cut: None,
        walks: 2,
    },
    Row {
        name: "a cut below it",
        net: Edges {
            edges: SHARED,
            ends: &[1, 2],
            cuts: &[3, 4],
        },
        k: 2,
        cut: Some(&[3, 4]),
        walks: 0,
    },
    Row {
        name: "an end that may be cut",
        net: Edges {
            edges: &[(15, 13), (15, 14), (13, 1), (14, 1)],
            ends: &[1],
            cuts: &[1],
        },
        k: 1,
        cut: Some(&[1]),
        walks: 0,
    },
    Row {
        name: "a gate without pins",
        net: Edges {
            edges: &[(15, 13), (15, 14), (14, 1)],
            ends: &[1],
            cuts: &[14],
        },
        k: 1,
        cut: Some(&[14]),
        walks: 0,
    },
    Row {
        name: "nothing but a gate without pins",
        net: Edges {
            edges: &[(15, 14)],
            ends: &[1],
            cuts: &[14],
        },
        k: 0,
        cut: Some(&[]),
        walks: 0,
    },
    Row {
        name: "a cut far from the root",
        net: Edges {
            edges: &[
                (15, 12),
                (15, 13),
                (15, 14),
                (12, 6),
                (13, 6),
                (14, 6),
                (6, 5),
                (5, 1),
                (5, 2),
                (5, 3),
            ],
            ends: &[1, 2, 3],
            cuts: &[5, 12, 13, 14],
        },
        k: 1,
        cut: Some(&[5]),
        walks: 0,
    },
    Row {
        name: "a node read twice",
        net: Edges {
            edges: READ_TWICE,
            ends: &[1],
            cuts: &[14],
        },
        k: 1,
        cut: Some(&[14]),
        walks: 0,
    },
    Row {
        name: "a node read twice, which may not be cut",
        net: Edges {
            edges: READ_TWICE,
            ends: &[1],
            cuts: &[1],
        },
        k: 1,
        cut: Some(&[1]),
        walks: 0,
    },
    Row {
        name: "a walk beside a cut node",
        net: Edges {
            edges: &[(15, 13), (15, 14), (13, 1), (14, 2)],
            ends: &[1, 2],
            cuts: &[13],
        },
        k: 2,
        cut: None,
        walks: 1,
    },
    Row {
        name: "no node at all",
        net: Edges {
            edges: &[(15, 14), (14, 1)],
            ends: &[1],
            cuts: &[1, 14],
        },
        k: 0,
        cut: None,
        walks: 1,
    },
];

/// Whether the search gives what the row says.
fn holds(alloc: Global, searcher: &mut Searcher<u32>, row: &Row<'_>) -> Result<bool, NoMemory> {
    let net = row.net.net();
    if row.k > 8 || net.is_end(15) {
        return Ok(false);
    }
    Ok(match searcher.cut_or_walks(alloc, &net, 15, row.k)? {
        Found::Cut(mut nodes) => {
            nodes.as_mut_slice().sort_unstable();
            row.cut == Some(nodes.as_slice())
        }
        Found::Walks(walks) => row.cut.is_none() && walks.len() == row.walks,
    })
}

/// One searcher for all rows, so that what it met before must not count.
#[test]
fn small_nets(rt: HostRuntime) {
    let mut searcher = Searcher::new(rt.alloc());
    for row in ROWS {
        assert!(rt;
            holds(rt.alloc(), &mut searcher, row) == Ok(true),
            "{}",
            row.name
        );
    }
}

/// A search of the tree's root where the walk along its left side is known twice: a cut of these nodes, or so many walks.
struct Known<'a> {
    k: u32,
    cut: Option<&'a [u64]>,
    walks: usize,
}

const KNOWN: &[Known<'static>] = &[
    Known {
        k: 2,
        cut: Some(&[2, 3]),
        walks: 0,
    },
    Known {
        k: 1,
        cut: None,
        walks: 2,
    },
    Known {
        k: 0,
        cut: None,
        walks: 1,
    },
];

/// Whether it is the cut of these nodes, which come in any order, or so many walks.
fn is_found(found: Found<u64>, cut: Option<&[u64]>, number: usize) -> bool {
    match found {
        Found::Cut(mut nodes) => {
            nodes.as_mut_slice().sort_unstable();
            cut == Some(nodes.as_slice())
        }
        Found::Walks(walks) => cut.is_none() && walks.len() == number,
    }
}

/// Whether the search gives what the row says.
fn is_known(
    alloc: Global,
    searcher: &mut Searcher<u64>,
    row: &Known<'_>,
) -> Result<bool, NoMemory> {
    let left = vec![in alloc; 0; 40]?;
    let again = vec![in alloc; 0; 40]?;
    let known = vec![in alloc; left, again]?;
    let found = searcher.cut_or_walks_from(alloc, &Tree, 1, row.k.min(8), known.as_slice())?;
    Ok(is_found(found, row.cut, row.walks))
}

#[test]
fn a_net_that_no_memory_holds(rt: HostRuntime) {
    let mut searcher = Searcher::new(rt.alloc());
    for row in KNOWN {
        assert!(rt;
            is_known(rt.alloc(), &mut searcher, row) == Ok(true),
            "{}",
            row.k
        );
    }
}

/// Whether one walk goes down from each side of the tree's root, to an end 40 steps away.
fn goes_down_both_sides(alloc: Global) -> Result<bool, NoMemory> {
    Ok(match cut_or_walks(alloc, &Tree, 1, 1)? {
        Found::Walks(walks) => match walks.as_slice() {
            [one, other] => [one.len(), other.len()] == [40, 40] && one.first() != other.first(),
            _ => false,
        },
        Found::Cut(_nodes) => false,
    })
}

/// Whether the two nodes below the root are the cut.
fn is_cut_below_its_root(alloc: Global) -> Result<bool, NoMemory> {
    Ok(is_found(cut_or_walks(alloc, &Tree, 1, 2)?, Some(&[2, 3]), 0))
}

/// Whether a walk below node 2, where no node may be cut, is answered alone where it is known.
fn is_answered_alone(alloc: Global) -> Result<bool, NoMemory> {
    let left = vec![in alloc; 0; 39]?;
    let known = vec![in alloc; left]?;
    let found = cut_or_walks_from(alloc, &Tree, 2, 2, known.as_slice())?;
    Ok(is_found(found, None, 1))
}

#[test]
fn cuts_and_walks_of_the_tree(rt: HostRuntime) {
    assert!(rt; is_cut_below_its_root(rt.alloc()) == Ok(true));
    assert!(rt; goes_down_both_sides(rt.alloc()) == Ok(true));
    assert!(rt; is_answered_alone(rt.alloc()) == Ok(true));
}
