// Covers and tables written out.

use std::alloc::Global;
use tm_bits::{Cover, MOST_K, NoMemory, Place, Table, row_bits, row_number};
use tm_trial::{TrialFault, cover};

/// A cover, and the first word of its table.
struct Row<'a> {
    cover: &'a str,
    inputs: u8,
    word: u64,
}

const ROWS: &[Row<'static>] = &[
    Row {
        cover: "=01,10",
        inputs: 2,
        word: 0b0110,
    },
    Row {
        cover: "!11",
        inputs: 2,
        word: 0b0111,
    },
    Row {
        cover: "=1-,-1",
        inputs: 2,
        word: 0b1110,
    },
    Row {
        cover: "=100",
        inputs: 3,
        word: 0b0001_0000,
    },
    Row {
        cover: "!1-0,0-1",
        inputs: 3,
        word: 0b1010_0101,
    },
    Row {
        cover: "=",
        inputs: 1,
        word: 0,
    },
    Row {
        cover: "=,",
        inputs: 0,
        word: 1,
    },
];

/// Whether the copy of a cover has the word in its table.
fn has_word(alloc: Global, row: &Row<'_>) -> Result<bool, TrialFault> {
    let inputs = row.inputs;
    let copy = cover(alloc, row.cover)?.try_clone(alloc)?;
    let fits = copy
        .rows()
        .iter()
        .all(|row| row.places().len() == inputs as usize);
    Ok(inputs <= MOST_K && fits && copy.table(inputs).words[0] == row.word)
}

#[test]
fn covers_have_their_tables(rt: HostRuntime) {
    for row in ROWS {
        assert!(rt; has_word(rt.alloc(), row) == Ok(true), "{}", row.cover);
    }
}

#[test]
fn uneven_rows_make_no_cover(rt: HostRuntime) {
    for line in &["=01,1", "!1,0,01", "!"] {
        assert!(rt;
            cover(rt.alloc(), line).err() == Some(TrialFault::Cover),
            "{line}"
        );
    }
}

/// The places of a cover's rows, one row after the other.
fn places(alloc: Global, cover: &Cover) -> Result<Vec<Place>, NoMemory> {
    let mut places = Vec::new(alloc);
    for row in cover.rows() {
        places.extend_from_slice(row.places())?;
    }
    Ok(places)
}

/// Whether the table of two inputs that is 1 where they differ has its two rows as cover.
fn spells_toggle(alloc: Global) -> Result<bool, NoMemory> {
    let mut toggle = Table::constant(2, false);
    toggle.set(row_number(&[false, true]), true);
    toggle.set(row_number(&[true, false]), true);
    let cover = toggle.cover(alloc)?;
    let rows = [Place::Zero, Place::One, Place::One, Place::Zero];
    Ok(
        toggle.words == [0b0110, 0, 0, 0]
            && places(alloc, &cover)?.as_slice() == rows.as_slice()
            && cover.holds(&[true, false])
            && !cover.holds(&[true, true]),
    )
}

/// Whether a table of eight inputs with one row missing has a cover of the others, with that table.
fn spells_eight_inputs(alloc: Global) -> Result<bool, NoMemory> {
    let mut table = Table::constant(8, true);
    let is_full = table.words == [u64::MAX; 4];
    table.set(200, false);
    let cover = table.cover(alloc)?;
    Ok(
        is_full
            && table.bit(199)
            && !table.bit(200)
            && cover.rows().len() == 255
            && cover.table(8) == table
            && row_bits(8, 200) == [true, true, false, false, true, false, false, false],
    )
}

#[test]
fn tables_have_their_covers(rt: HostRuntime) {
    assert!(rt; spells_toggle(rt.alloc()) == Ok(true));
    assert!(rt; spells_eight_inputs(rt.alloc()) == Ok(true));
}
