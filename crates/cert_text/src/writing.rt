// The text of a certificate.

ghost use Rattle.std.specs.Prelude.{◌≡◌, ◌⊎◌, ◌<◌, ◌^◌, ◌++◌, map, length, All, IfOk, OnOk};
ghost use Rattle.std.specs.List.{flat_map};
ghost use Rattle.std.specs.Fmt.{decimal};
ghost use Rattle.tm_bits.specs.Limits.{most_inputs};
ghost use Rattle.tm_flow.specs.Lists.{lists_in};
ghost use Rattle.tm_unroll.specs.Mappings.{table_of};
ghost use Rattle.tm_replay.specs.Replays.{drop_of};
ghost use Rattle.cert_text.specs.Certificates.{certificate_of, certificate_text, line_text, counted, further_word, leaf_word, walk_word, table_words, drop_words, HasSpellingWalk, HasSpellingWalks, IsCertificateOf};

use crate::cert::Cert;
use std::alloc::Global;
use tm_bits::NoMemory;
use tm_replay::Lowering;
use tm_unroll::{Lut, Node};

/// Writes a number.
fn push_number(alloc: Global, out: &mut Vec<u8>, number: u64) -> Result<(), NoMemory>
    ensures { OnOk result (out.new.items ≡ out.old.items ++ decimal number) }
{
    let digits = format!(in alloc; "{number}")?;
    out.extend_from_slice(digits.as_bytes())?;
    Ok(())
}

/// Writes a number as a word behind a blank.
fn push_further_number(alloc: Global, out: &mut Vec<u8>, number: u64) -> Result<(), NoMemory>
    ensures { OnOk result (out.new.items ≡ out.old.items ++ further_word (decimal number)) }
{
    out.push(b' ')?;
    push_number(alloc, out, number)
}

/// Writes the line of a word and a number.
fn push_counted(alloc: Global, out: &mut Vec<u8>, word: &[u8], number: u64) -> Result<(), NoMemory>
    ensures { OnOk result (out.new.items ≡ out.old.items ++ line_text (counted word.now number)) }
{
    out.extend_from_slice(word)?;
    push_further_number(alloc, out, number)?;
    out.push(b'\n')?;
    Ok(())
}

/// Writes a leaf as a word behind a blank.
fn push_leaf(alloc: Global, out: &mut Vec<u8>, leaf: Node) -> Result<(), NoMemory>
    ensures { OnOk result (out.new.items ≡ out.old.items ++ further_word (leaf_word leaf)) }
{
    push_further_number(alloc, out, u64::from(leaf.signal.0))?;
    out.push(b'.')?;
    push_number(alloc, out, u64::from(leaf.advance))
}

/// Writes leaves as words, each behind a blank.
fn push_leaves(alloc: Global, out: &mut Vec<u8>, leaves: &[Node]) -> Result<(), NoMemory>
    ensures { OnOk result (out.new.items ≡ out.old.items ++ flat_map further_word (map leaf_word leaves.now)) }
{
    for leaf in leaves {
        push_leaf(alloc, out, *leaf)?;
    }
    Ok(())
}

/// Writes the line of a table.
fn push_table(alloc: Global, out: &mut Vec<u8>, lut: &Lut) -> Result<(), NoMemory>
    ensures { OnOk result (out.new.items ≡ out.old.items ++ line_text (table_words (table_of lut.now))) }
{
    out.extend_from_slice(b"table")?;
    push_further_number(alloc, out, u64::from(lut.gate.0))?;
    push_further_number(alloc, out, u64::from(lut.lag))?;
    push_leaves(alloc, out, lut.leaves.as_slice())?;
    out.push(b'\n')?;
    Ok(())
}

/// Writes the lines of tables.
fn push_tables(alloc: Global, out: &mut Vec<u8>, luts: &[Lut]) -> Result<(), NoMemory>
    ensures { OnOk result (out.new.items ≡ out.old.items ++ flat_map line_text (map table_words (map table_of luts.now))) }
{
    for lut in luts {
        push_table(alloc, out, lut)?;
    }
    Ok(())
}

/// Writes a walk as a word behind a blank.
fn push_walk(out: &mut Vec<u8>, walk: &[u8]) -> Result<(), NoMemory>
    requires { All (λ index. index < most_inputs) walk.now }
    ensures { OnOk result (out.new.items ≡ out.old.items ++ further_word (walk_word walk.now)) }
{
    out.push(b' ')?;
    for index in walk {
        out.push(b'0' + *index)?;
    }
    Ok(())
}

/// Writes walks as words, each behind a blank.
fn push_walks(out: &mut Vec<u8>, walks: &[Vec<u8>]) -> Result<(), NoMemory>
    requires { All HasSpellingWalk (lists_in walks.now) }
    ensures { OnOk result (out.new.items ≡ out.old.items ++ flat_map further_word (map walk_word (lists_in walks.now))) }
{
    for walk in walks {
        push_walk(out, walk)?;
    }
    Ok(())
}

/// Writes the line of a drop.
fn push_drop(alloc: Global, out: &mut Vec<u8>, drop: &Lowering) -> Result<(), NoMemory>
    requires { HasSpellingWalks (drop_of drop.now).walks }
    ensures { OnOk result (out.new.items ≡ out.old.items ++ line_text (drop_words (drop_of drop.now))) }
{
    out.extend_from_slice(b"drop")?;
    push_further_number(alloc, out, u64::from(drop.gate.0))?;
    push_further_number(alloc, out, u64::from(drop.lag))?;
    push_further_number(alloc, out, u64::from(drop.arrival))?;
    push_walks(out, &drop.walks)?;
    out.push(b'\n')?;
    Ok(())
}

/// Writes the lines of drops.
fn push_drops(alloc: Global, out: &mut Vec<u8>, drops: &[Lowering]) -> Result<(), NoMemory>
    requires { All (λ d. HasSpellingWalks d.walks) (map drop_of drops.now) }
    ensures { OnOk result (out.new.items ≡ out.old.items ++ flat_map line_text (map drop_words (map drop_of drops.now))) }
{
    for drop in drops {
        push_drop(alloc, out, drop)?;
    }
    Ok(())
}

/// The text of a certificate. It takes time and memory in proportion to the text.
pub fn write(alloc: Global, cert: &Cert) -> Result<Vec<u8>, NoMemory>
    requires version { (cert.now.version ≡ 1) ⊎ (cert.now.version ≡ 2) }
    requires few { length cert.now.mapping.luts.items < 2 ^ 32 }
    requires walks { All (λ d. HasSpellingWalks d.walks) (map drop_of cert.now.drops.items) }
    ensures { IfOk result (λ text. text.items ≡ certificate_text (certificate_of cert.now)) }
{
    let mut out = Vec::new(alloc);
    push_counted(alloc, &mut out, b"turbomap", u64::from(cert.version))?;
    push_counted(alloc, &mut out, b"period", u64::from(cert.period))?;
    push_counted(alloc, &mut out, b"tables", cert.mapping.luts.len() as u64)?;
    push_tables(alloc, &mut out, &cert.mapping.luts)?;
    push_counted(alloc, &mut out, b"drops", cert.drops.len() as u64)?;
    push_drops(alloc, &mut out, &cert.drops)?;
    out.extend_from_slice(b"end\n")?;
    Ok(out)
}
