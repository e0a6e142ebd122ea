// Whether tables admit another one.

ghost use Rattle.std.specs.Prelude.{◌≡◌, ◌↔◌, ℕ, ◌<◌, length, slice_index, All, Contains, IfOk, IsTrue, MatchBool, MatchOption};
ghost use Rattle.tm_circuit.specs.declared.sources.Source.TheVariants.{Gate};
ghost use Rattle.tm_unroll.specs.Mappings.{table_of, root};
ghost use Rattle.tm_absorb.specs.Absorbing.{Reads, TakesIn};
ghost use Rattle.tm_absorb.specs.Slots.{AreWithin, IsAdmittedAt, IsRefusedAt};
ghost use Rattle.tm_absorb.specs.Admitting.{IsRootOrOther, LooksAtRoot, HasRoom, Admits};

use crate::slots::table_in;
use std::alloc::Global;
use tm_bits::NoMemory;
use tm_circuit::{Circuit, Signal, Source};
use tm_unroll::{Lut, Node, replace_leaf};

/// Whether a table can take in another one, or has nothing to do with it.
fn admits(
    alloc: Global,
    circuit: &Circuit,
    k: u8,
    table: &Lut,
    other: &Lut,
) -> Result<bool, NoMemory>
    requires within { All (λ x. x.signal < length circuit.now.drives) other.now.leaves.items }
    ensures { IfOk result (λ yes. MatchBool yes (Admits circuit.now.drives k (table_of table.now) (table_of other.now))
        (Admits circuit.now.drives k (table_of table.now) (table_of other.now) → ⊥)) }
{
    if !looks_at_root(circuit, table, other) {
        return Ok(false);
    }
    has_room(alloc, k, table, other)
}

/// The node that a table gives.
fn root(table: &Lut) -> Node
    ensures { result ≡ root (table_of table.now) }
{
    Node {
        signal: table.gate,
        advance: table.lag,
    }
}

/// Whether a table looks at the gate of another one only as the root of the other.
fn looks_at_root(circuit: &Circuit, table: &Lut, other: &Lut) -> bool
    requires within { All (λ x. x.signal < length circuit.now.drives) other.now.leaves.items }
    ensures { MatchBool result (LooksAtRoot circuit.now.drives (table_of table.now) (table_of other.now))
        (LooksAtRoot circuit.now.drives (table_of table.now) (table_of other.now) → ⊥) }
{
    for leaf in other.leaves.as_slice() {
        if !is_root_or_other(circuit, table, leaf) {
            return false;
        }
    }
    true
}

/// Whether a leaf is the root of a table, or its source is not the gate of the table.
fn is_root_or_other(circuit: &Circuit, table: &Lut, leaf: &Node) -> bool
    requires { leaf.now.signal < length circuit.now.drives }
    ensures { MatchBool result (IsRootOrOther circuit.now.drives (table_of table.now) leaf.now)
        (IsRootOrOther circuit.now.drives (table_of table.now) leaf.now → ⊥) }
{
    if !is_gate(circuit.source(leaf.signal), table.gate) {
        return true;
    }
    is_root(table, leaf)
}

/// Whether a source is a gate.
fn is_gate(source: Source, gate: Signal) -> bool
    ensures { IsTrue result ↔ (source ≡ Gate gate) }
{
    match source {
        Source::Gate(other) => other.0 == gate.0,
        Source::Input(_) | Source::Ring => false,
    }
}

/// Whether a node is the one that a table gives.
fn is_root(table: &Lut, node: &Node) -> bool
    ensures { IsTrue result ↔ (node.now ≡ root (table_of table.now)) }
{
    node.signal.0 == table.gate.0 && node.advance == table.lag
}

/// Whether a table that reads another one has few enough leaves with the leaves of the other in its place.
fn has_room(alloc: Global, k: u8, table: &Lut, other: &Lut) -> Result<bool, NoMemory>
    ensures { IfOk result (λ yes. MatchBool yes (HasRoom k (table_of table.now) (table_of other.now))
        (HasRoom k (table_of table.now) (table_of other.now) → ⊥)) }
{
    let root = root(table);
    if !other.leaves.as_slice().contains(&root) {
        return Ok(true);
    }
    let new = replace_leaf(
        alloc,
        other.leaves.as_slice(),
        root,
        table.leaves.as_slice(),
        k,
    )?;
    Ok(new.is_some())
}

/// Whether there is a table in a slot and it does not admit another one.
fn refuses(
    alloc: Global,
    circuit: &Circuit,
    k: u8,
    slots: &[Option<Lut>],
    table: &Lut,
    gate: Signal,
) -> Result<bool, NoMemory>
    requires within { AreWithin (length circuit.now.drives) slots.now }
    ensures { IfOk result (λ yes. MatchBool yes (IsRefusedAt circuit.now.drives k slots.now (table_of table.now) gate)
        (IsAdmittedAt circuit.now.drives k slots.now (table_of table.now) gate)) }
{
    let Some(other) = table_in(slots, gate) else {
        return Ok(false);
    };
    let yes = admits(alloc, circuit, k, table, other)?;
    Ok(!yes)
}

/// The place of a gate whose table does not admit another one, looked for from a place on and then from the beginning.
pub(crate) fn refuser_from(
    alloc: Global,
    circuit: &Circuit,
    k: u8,
    slots: &[Option<Lut>],
    table: &Lut,
    gates: &[Signal],
    place: usize,
) -> Result<Option<usize>, NoMemory>
    requires within { AreWithin (length circuit.now.drives) slots.now }
    ensures { IfOk result (λ refuser. MatchOption refuser
        ((g : ℕ) → Contains gates.now g → IsAdmittedAt circuit.now.drives k slots.now (table_of table.now) g)
        (λ at. IsRefusedAt circuit.now.drives k slots.now (table_of table.now) (slice_index gates.now at))) }
{
    let place = place.min(gates.len());
    if let Some(more) = first_refuser(alloc, circuit, k, slots, table, &gates[place..])? {
        return Ok(Some(place + more));
    }
    first_refuser(alloc, circuit, k, slots, table, &gates[..place])
}

/// The place of the first of some gates whose table does not admit another one.
fn first_refuser(
    alloc: Global,
    circuit: &Circuit,
    k: u8,
    slots: &[Option<Lut>],
    table: &Lut,
    gates: &[Signal],
) -> Result<Option<usize>, NoMemory>
    requires within { AreWithin (length circuit.now.drives) slots.now }
    ensures { IfOk result (λ first. MatchOption first
        ((g : ℕ) → Contains gates.now g → IsAdmittedAt circuit.now.drives k slots.now (table_of table.now) g)
        (λ at. (at < length gates.now) × IsRefusedAt circuit.now.drives k slots.now (table_of table.now) (slice_index gates.now at))) }
{
    for (place, gate) in gates.iter().enumerate() {
        if refuses(alloc, circuit, k, slots, table, *gate)? {
            return Ok(Some(place));
        }
    }
    Ok(None)
}

/// What becomes of a table that reads another one and takes it in; `None` where it does not read it.
pub(crate) fn taken_in(
    alloc: Global,
    k: u8,
    table: &Lut,
    other: &Lut,
) -> Result<Option<Lut>, NoMemory>
    requires { HasRoom k (table_of table.now) (table_of other.now) }
    ensures { IfOk result (λ new. MatchOption new (Reads (table_of other.now) (table_of table.now) → ⊥)
        (λ lut. TakesIn k (table_of table.now) (table_of other.now) (table_of lut))) }
{
    let root = root(table);
    let leaves = other.leaves.as_slice();
    if !leaves.contains(&root) {
        return Ok(None);
    }
    match replace_leaf(alloc, leaves, root, table.leaves.as_slice(), k)? {
        Some(leaves) => Ok(Some(Lut {
            gate: other.gate,
            lag: other.lag,
            leaves,
        })),
        None => unreachable!(),
    }
}
