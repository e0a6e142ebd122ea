// Prime covers of small tables, worked out by hand.

ghost use Rattle.std.specs.Prelude.{◌≡◌, ◌≤◌};
ghost use Rattle.tm_bits.specs.declared.TheConstants.{MOST_K};

use prime_cover::prime;
use std::alloc::{AllocError, Global};
use std::test::Fail;
use tm_bits::{Cover, Place, Table};

/// A table by the numbers of its rows of value 1, and the rows of its prime cover, one after another.
struct Case {
    name: &'static str,
    inputs: u8,
    ones: &'static [u64],
    rows: &'static str,
}

const CASES: [Case; 7] = [
    Case {
        name: "constant 1",
        inputs: 2,
        ones: &[0, 1, 2, 3],
        rows: "-- ",
    },
    Case {
        name: "constant 0",
        inputs: 2,
        ones: &[],
        rows: "",
    },
    Case {
        name: "no inputs",
        inputs: 0,
        ones: &[0],
        rows: " ",
    },
    Case {
        name: "two levels",
        inputs: 4,
        ones: &[3, 7, 11, 12, 13, 14, 15],
        rows: "11-- --11 ",
    },
    Case {
        name: "n5",
        inputs: 3,
        ones: &[1, 3, 5, 6, 7],
        rows: "11- --1 ",
    },
    Case {
        name: "parity",
        inputs: 2,
        ones: &[1, 2],
        rows: "01 10 ",
    },
    Case {
        name: "majority",
        inputs: 3,
        ones: &[3, 5, 6, 7],
        rows: "11- 1-1 -11 ",
    },
];

/// The table with these rows of value 1.
fn table_of(inputs: u8, ones: &[u64]) -> Table
    requires { inputs ≤ MOST_K }
    ensures { result.inputs ≡ inputs }
{
    let mut table = Table::constant(inputs, false);
    for row in ones {
        if *row < 1 << inputs {
            table.set(*row, true);
        }
    }
    table
}

/// The rows of a cover, each with a blank after it.
fn spelled(alloc: Global, cover: &Cover) -> Result<Vec<u8>, AllocError> {
    let mut text = Vec::new(alloc);
    for row in cover.rows() {
        for place in row.places() {
            text.push(match place {
                Place::Zero => b'0',
                Place::One => b'1',
                Place::Any => b'-',
            })?;
        }
        text.push(b' ')?;
    }
    Ok(text)
}

#[test]
fn prime_rows(rt: HostRuntime) -> Result<(), Fail> {
    for case in &CASES {
        let inputs = case.inputs.min(8);
        let cover = prime(rt.alloc(), &table_of(inputs, case.ones))?;
        assert!(rt; cover.on());
        let text = spelled(rt.alloc(), &cover)?;
        assert_eq!(rt; text.as_slice(), case.rows.as_bytes(), "{}", case.name);
    }
    Ok(())
}
