// Texts at the edges of the rules on words. Names have at most 8 bytes.

use blif_lex::Lines;
use std::alloc::Global;
use std::fmt::Write;
use std::test::Fail;

/// A text, whether names of bindings are measured apart, and its lines: each as its number and its words, with a `;` after it; or
/// its fault.
struct Row<'a> {
    text: &'a [u8],
    bindings: bool,
    lines: &'a str,
}

const ROWS: &[Row<'static>] = &[
    // Cuts, joins and comments.
    Row {
        text: b"",
        bindings: false,
        lines: "",
    },
    Row {
        text: b"\n\n\n",
        bindings: false,
        lines: "",
    },
    Row {
        text: b" \t\r\n\\\n#\n",
        bindings: false,
        lines: "",
    },
    Row {
        text: b"a b",
        bindings: false,
        lines: "1 a b;",
    },
    Row {
        text: b"a\tb \t c\n",
        bindings: false,
        lines: "1 a b c;",
    },
    Row {
        text: b"\na\n\nb\n",
        bindings: false,
        lines: "2 a;4 b;",
    },
    Row {
        text: b"a # b\nc",
        bindings: false,
        lines: "1 a;2 c;",
    },
    Row {
        text: b"a#b c\nd",
        bindings: false,
        lines: "1 a;2 d;",
    },
    Row {
        text: b"#a\\\nb",
        bindings: false,
        lines: "2 b;",
    },
    Row {
        text: b"a\\\nb\nc",
        bindings: false,
        lines: "1 a b;3 c;",
    },
    Row {
        text: b"a \\# x\nb",
        bindings: false,
        lines: "1 a b;",
    },
    Row {
        text: b"a\\ \t\r\nb",
        bindings: false,
        lines: "1 a b;",
    },
    Row {
        text: b"a\\\nb # c\nd",
        bindings: false,
        lines: "1 a b;3 d;",
    },
    Row {
        text: b"\\\n\\\na\\\n\nb",
        bindings: false,
        lines: "1 a;5 b;",
    },
    Row {
        text: b"a\\",
        bindings: false,
        lines: "1 a;",
    },
    Row {
        text: b"a\\\n",
        bindings: false,
        lines: "1 a;",
    },
    Row {
        text: b"a\r\nb \r\r",
        bindings: false,
        lines: "1 a;2 b;",
    },
    // Faults, and words that are passed over.
    Row {
        text: b"a\\\\\nb",
        bindings: false,
        lines: "line 1: BadByte",
    },
    Row {
        text: b"a\rb",
        bindings: false,
        lines: "line 1: BadByte",
    },
    Row {
        text: b"a\r\\\nb",
        bindings: false,
        lines: "line 1: BadByte",
    },
    Row {
        text: b"!~\n\x7f",
        bindings: false,
        lines: "line 2: BadByte",
    },
    Row {
        text: b"a\n\xc3\xa9",
        bindings: false,
        lines: "line 2: BadByte",
    },
    Row {
        text: b"a\\\nb\\b",
        bindings: false,
        lines: "line 1: BadByte",
    },
    Row {
        text: b"12345678 123456789",
        bindings: false,
        lines: "line 1: LongName",
    },
    Row {
        text: b"123456789 \x01\n\x01",
        bindings: false,
        lines: "line 1: BadByte",
    },
    Row {
        text: b"123456789\n\x01",
        bindings: false,
        lines: "line 1: LongName",
    },
    Row {
        text: b".attr \x01 123456789\\\n\x01\nb",
        bindings: false,
        lines: "3 b;",
    },
    Row {
        text: b".param\n.cname \\b\n.attrs",
        bindings: false,
        lines: "3 .attrs;",
    },
    Row {
        text: b".subckt a bcdef=ghi",
        bindings: false,
        lines: "line 1: LongName",
    },
    // Names on both sides of a binding.
    Row {
        text: b".subckt a bcdefghi=jklmnopq",
        bindings: true,
        lines: "1 .subckt a bcdefghi=jklmnopq;",
    },
    Row {
        text: b".subckt a b=c=d=e=f=g",
        bindings: true,
        lines: "line 1: LongName",
    },
    Row {
        text: b".subckt a b=c=d=e=f=",
        bindings: true,
        lines: "1 .subckt a b=c=d=e=f=;",
    },
    Row {
        text: b".subckt a bcdefghij=",
        bindings: true,
        lines: "line 1: LongName",
    },
    Row {
        text: b".subckt a bcdefghij",
        bindings: true,
        lines: "line 1: LongName",
    },
    Row {
        text: b".subckt abcd=efgh b=c",
        bindings: true,
        lines: "line 1: LongName",
    },
    Row {
        text: b".names abcd=efgh",
        bindings: true,
        lines: "line 1: LongName",
    },
];

/// Writes a line as in a row.
fn push_line(out: &mut String, number: u32, words: &[&[u8]]) -> Result<(), Fail> {
    write!(out, "{number}")?;
    for word in words {
        out.push(' ')?;
        for byte in word.iter() {
            out.push(char::from(*byte))?;
        }
    }
    out.push(';')?;
    Ok(())
}

/// The lines of a text as in a row.
fn shown(alloc: Global, lines: &Lines<'_>) -> Result<String, Fail> {
    let mut out = String::new(alloc);
    for i in 0..lines.len() {
        push_line(&mut out, lines.number(i), lines.words(i))?;
    }
    Ok(out)
}

/// Whether a row is as written.
fn holds(alloc: Global, row: &Row<'_>) -> Result<bool, Fail> {
    let text = &row.text[..row.text.len().min(100)];
    match Lines::of(alloc, text, 8, row.bindings) {
        Err(fault) => Ok(format!(in alloc; "{fault}")?.as_str() == row.lines),
        Ok(lines) => Ok(shown(alloc, &lines)?.as_str() == row.lines),
    }
}

#[test]
fn texts_are_cut_into_words(rt: HostRuntime) -> Result<(), Fail> {
    for row in ROWS {
        assert!(rt; holds(rt.alloc(), row)?, "{}", row.lines);
    }
    Ok(())
}
