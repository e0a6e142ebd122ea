// Vectors read and written, or their first fault.

ghost use Rattle.std.specs.Prelude.{◌≤◌, length};

use std::alloc::Global;
use std::test::Fail;
use tm_sim::vectors::{read, write};

/// A text of vectors, and the text written of what was read, or what its fault says.
struct Row<'a> {
    width: u32,
    text: &'a str,
    comes: &'a str,
}

const ROWS: &[Row<'static>] = &[
    Row {
        width: 2,
        text: "",
        comes: "",
    },
    Row {
        width: 2,
        text: "01\n10\n",
        comes: "01\n10\n",
    },
    Row {
        width: 2,
        text: "01\n10",
        comes: "01\n10\n",
    },
    Row {
        width: 0,
        text: "",
        comes: "",
    },
    Row {
        width: 0,
        text: "\n\n\n",
        comes: "\n\n\n",
    },
    Row {
        width: 0,
        text: "\n1",
        comes: "line 2: Width",
    },
    Row {
        width: 2,
        text: "\n",
        comes: "line 1: Width",
    },
    Row {
        width: 2,
        text: "01\n\n01\n",
        comes: "line 2: Width",
    },
    Row {
        width: 4,
        text: "1100\n110",
        comes: "line 2: Width",
    },
    Row {
        width: 2,
        text: "01\r\n",
        comes: "line 1: Byte",
    },
    Row {
        width: 2,
        text: "0x1\n",
        comes: "line 1: Byte",
    },
    Row {
        width: 2,
        text: "011\n0x\n",
        comes: "line 1: Width",
    },
];

/// Whether a row is as written.
fn holds(alloc: Global, row: &Row<'_>) -> Result<bool, Fail>
    requires { length row.now.text.now ≤ 16777216 }
{
    match read(alloc, row.width, row.text.as_bytes()) {
        Ok(rows) => Ok(write(alloc, &rows)?.as_slice() == row.comes.as_bytes()),
        Err(fault) => Ok(format!(in alloc; "{fault}")?.as_str() == row.comes),
    }
}

#[test]
fn texts_are_read_and_written(rt: HostRuntime) -> Result<(), Fail> {
    for row in ROWS {
        assert!(rt; row.text.len() <= 100);
        assert!(rt; holds(rt.alloc(), row)?, "{}", row.text);
    }
    Ok(())
}
